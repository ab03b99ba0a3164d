//! `which`: the identity and the entry file of a name from a context.
ghost use Rattle.std.specs.Prelude.{◌≡◌, ◌≤◌, ◌++◌, ◌∷◌, [], ℕ, List, Err, true, codes, IfSome, IfOk, IfErr, string_bytes};
ghost use Rattle.env_maps.specs.ByName.{is_among};
ghost use Rattle.import_lookup.specs.Loading.{import_in, serves};
ghost use Rattle.pkg_top.specs.WhichDue.{which_due, which_of, told_import, found_line as line_of_found};
ghost use Rattle.command_answers.specs.Answers.{Answers, Refuses, ReadFaultRose, NoFault, IsLate, IsUnprinted};

use command_answers::{Status, uuid_text};
use env_maps::{Context, EnvFault, Id};
use import_lookup::{ImportAnswer, Stack, import, names_of};
use pkg_world::{Duplicate, Name, Names, NormPath, Place, Store};
use std::alloc::{AllocError, Global};

/// The line of `which`, or its refusal: the import of a name from a context over the environments of the load path.
/// (Julia manual, Code Loading.)
pub(crate) fn which<S: Store>(
    alloc: Global,
    name: &Name,
    context: &Context,
    place: &Place,
    store: &mut S,
) -> Result<String, Status>
    ensures answer { IfSome (S.files store.old) (λ all. Answers (which_due all place.now context.now name.now) result) }
    ensures late { IfErr result IsLate }
    ensures unprinted { IfErr result IsUnprinted }
    ensures fault { IfErr result (ReadFaultRose (S.read_faults store.old) (S.read_faults store.new)) }
    ensures files { S.files store.new ≡ S.files store.old }
    ensures later { S.read_faults store.old ≤ S.read_faults store.new }
    ensures other { S.write_faults store.new ≡ S.write_faults store.old }
{
    match names_of(alloc, context, name) {
        Ok(names) => which_over(alloc, name, context, place, &names, store),
        Err(_) => Err(Status::Memory),
    }
}

/// The same over the stack that is loaded with these names.
fn which_over<S: Store>(
    alloc: Global,
    name: &Name,
    context: &Context,
    place: &Place,
    names: &Names,
    store: &mut S,
) -> Result<String, Status>
    requires serves { serves names.now.items context.now ≡ true }
    requires among { is_among name.now names.now.items ≡ true }
    ensures answer { IfSome (S.files store.old) (λ all. Answers (which_of name.now (import_in all place.now names.now.items context.now name.now)) result) }
    ensures late { IfErr result IsLate }
    ensures unprinted { IfErr result IsUnprinted }
    ensures fault { IfErr result (ReadFaultRose (S.read_faults store.old) (S.read_faults store.new)) }
    ensures files { S.files store.new ≡ S.files store.old }
    ensures later { S.read_faults store.old ≤ S.read_faults store.new }
    ensures other { S.write_faults store.new ≡ S.write_faults store.old }
{
    match Stack::load(alloc, store, place, names) {
        Ok(stack) => match import(alloc, &stack, store, context, name) {
            Ok(answer) => told(alloc, name, answer),
            Err(EnvFault::ReadFault(path)) => Err(Status::ReadFault(path)),
            Err(EnvFault::BadFile(..)) => unreachable!(),
            Err(EnvFault::Memory) => Err(Status::Memory),
        },
        Err(EnvFault::ReadFault(path)) => Err(Status::ReadFault(path)),
        Err(EnvFault::BadFile(path, cause)) => Err(Status::BadFile(path, cause)),
        Err(EnvFault::Memory) => Err(Status::Memory),
    }
}

/// The line of an import's answer, or the refusal.
fn told(alloc: Global, name: &Name, answer: ImportAnswer) -> Result<String, Status>
    ensures answer { Answers (told_import name.now answer) result }
    ensures late { IfErr result IsLate }
    ensures unprinted { IfErr result IsUnprinted }
    ensures fault { IfErr result NoFault }
{
    match answer {
        ImportAnswer::Found(id, path) => found(alloc, &id, &path),
        ImportAnswer::NoIdentity => Err(no_identity(alloc, name)),
        ImportAnswer::NoSource(id) => Err(Status::NoSource(id.uuid)),
    }
}

fn no_identity(alloc: Global, name: &Name) -> Status
    ensures refusal { Refuses {T = List ℕ} (Err (Status.NoIdentity name.now)) result }
    ensures late { IsLate result }
    ensures unprinted { IsUnprinted result }
    ensures fault { NoFault result }
{
    match name.copy(alloc) {
        Ok(name) => Status::NoIdentity(name),
        Err(_) => Status::Memory,
    }
}

fn found(alloc: Global, id: &Id, path: &NormPath) -> Result<String, Status>
    ensures line { IfOk result (λ line. string_bytes line ≡ line_of_found id.now path.now) }
    ensures memory { IfErr result (λ status. status ≡ Status.Memory) }
{
    match found_line(alloc, id, path) {
        Ok(line) => Ok(line),
        Err(_) => Err(Status::Memory),
    }
}

/// `NAME UUID PATH`.
fn found_line(alloc: Global, id: &Id, path: &NormPath) -> Result<String, AllocError>
    ensures { IfOk result (λ line. string_bytes line ≡ line_of_found id.now path.now) }
{
    let uuid = uuid_text(alloc, &id.uuid)?;
    three_words(alloc, id.name.as_str(), uuid.as_str(), path.as_str())
}

fn three_words(alloc: Global, first: &str, second: &str, third: &str) -> Result<String, AllocError>
    ensures { IfOk result (λ line. string_bytes line ≡ first.now ++ (codes " " ++ (second.now ++ (codes " " ++ (third.now ++ 10 ∷ []))))) }
{
    format!(in alloc; "{first} {second} {third}\n")
}
