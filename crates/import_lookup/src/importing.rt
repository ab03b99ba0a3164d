//! The import of a name from a context.
ghost use Rattle.std.specs.Prelude.{◌≡◌, ◌≤◌, ℕ, List, Option, Ok, Some, true, IfSome, IfOk, IfErr};
ghost use Rattle.pkg_world.specs.declared.place.Place.{Place};
ghost use Rattle.env_maps.specs.ByName.{is_among};
ghost use Rattle.project_places.specs.Faults.{OnlyReadFault};
ghost use Rattle.import_lookup.specs.Import as spec;
ghost use Rattle.import_lookup.specs.Loading.{kept_maps, loaded_maps, import_in, serves, stack_in};

use crate::answer::ImportAnswer;
use crate::stack::Stack;
use env_maps::{Context, DepAnswer, EnvFault, Id, extension_of};
use pkg_world::{Duplicate, KindAnswer, Name, NormPath, Store};
use std::alloc::{AllocError, Global};

/// The import of a name from a context, over a stack that was loaded with this name and with the context's. (Julia manual,
/// Code Loading.)
///
/// 1. The context's own name is the context itself; an extension's is the extension.
/// 2. From the top level, and from a package without identifier, the first environment that gives the name an identity
///    decides.
/// 3. From any other package, and from an extension, the first environment that has it decides: its dependency of that
///    name, or none. An extension has the package that it extends, its triggers and that package's dependencies.
/// 4. The first environment that has a path for the identity decides. It is found where that path is a file.
///
/// Errors: ReadFault, where the store can't tell what is there; want of memory.
pub fn import<S: Store>(
    alloc: Global,
    stack: &Stack,
    store: &mut S,
    context: &Context,
    name: &Name,
) -> Result<ImportAnswer, EnvFault>
    ensures told { IfSome (S.files store.old) (λ all. IfOk result (λ answer. answer ≡ spec.import_over all (loaded_maps all stack.now.library) stack.now.envs context.now name.now)) }
    ensures whole { IfSome (S.files store.old) (λ all. IfOk result (λ answer. (place : Place) → (names : List (List ℕ)) → stack_in all place names ≡ Ok stack.now → serves names context.now ≡ true → is_among name.now names ≡ true → import_in all place names context.now name.now ≡ Ok answer)) }
    ensures refused { IfErr result (OnlyReadFault (S.read_faults store.old) (S.read_faults store.new)) }
    ensures files { S.files store.new ≡ S.files store.old }
    ensures later { S.read_faults store.old ≤ S.read_faults store.new }
    ensures other { S.write_faults store.new ≡ S.write_faults store.old }
{
    imported(alloc, stack, store, context, name)
}

fn imported<S: Store>(
    alloc: Global,
    stack: &Stack,
    store: &mut S,
    context: &Context,
    name: &Name,
) -> Result<ImportAnswer, EnvFault>
    ensures told { IfSome (S.files store.old) (λ all. IfOk result (λ answer. answer ≡ spec.import_over all (loaded_maps all stack.now.library) stack.now.envs context.now name.now)) }
    ensures refused { IfErr result (OnlyReadFault (S.read_faults store.old) (S.read_faults store.new)) }
    ensures files { S.files store.new ≡ S.files store.old }
    ensures later { S.read_faults store.old ≤ S.read_faults store.new }
    ensures other { S.write_faults store.new ≡ S.write_faults store.old }
{
    match identity(alloc, stack, context, name) {
        Ok(Some(id)) => by_identity(alloc, stack, store, context, id),
        Ok(None) => Ok(ImportAnswer::NoIdentity),
        Err(_) => Err(EnvFault::Memory),
    }
}

/// The identity that a name has from a context.
fn identity(
    alloc: Global,
    stack: &Stack,
    context: &Context,
    name: &Name,
) -> Result<Option<Id>, AllocError>
    ensures { IfOk result (λ id. id ≡ spec.identity kept_maps stack.now.envs context.now name.now) }
{
    match context {
        Context::Top => root_in(alloc, stack, name),
        Context::Package(id) => {
            if id.name.as_str() == name.as_str() {
                return Ok(Some(id.copy(alloc)?));
            }
            match id.uuid {
                Some(_) => dependency_in(alloc, stack, context, name),
                None => root_in(alloc, stack, name),
            }
        }
        Context::Extension(uuid, _, extension) => {
            if extension.as_str() == name.as_str() {
                return Ok(Some(extension_of(alloc, uuid, extension)?));
            }
            dependency_in(alloc, stack, context, name)
        }
    }
}

/// The identity that a name has at the top level.
fn root_in(alloc: Global, stack: &Stack, name: &Name) -> Result<Option<Id>, AllocError>
    ensures { IfOk result (λ id. id ≡ spec.root_in kept_maps stack.now.envs name.now) }
{
    for env in stack.envs() {
        match env.root(alloc, name)? {
            Some(id) => return Ok(Some(id)),
            None => {}
        }
    }
    Ok(None)
}

/// The dependency of that name in the first environment that has the context.
fn dependency_in(
    alloc: Global,
    stack: &Stack,
    context: &Context,
    name: &Name,
) -> Result<Option<Id>, AllocError>
    ensures { IfOk result (λ id. id ≡ spec.dependency_in kept_maps stack.now.envs context.now name.now) }
{
    for env in stack.envs() {
        match env.dep(alloc, context, name)? {
            DepAnswer::Found(id) => return Ok(Some(id)),
            DepAnswer::NoName => return Ok(None),
            DepAnswer::NotMine => {}
        }
    }
    Ok(None)
}

fn by_identity<S: Store>(
    alloc: Global,
    stack: &Stack,
    store: &mut S,
    context: &Context,
    id: Id,
) -> Result<ImportAnswer, EnvFault>
    ensures told { IfSome (S.files store.old) (λ all. IfOk result (λ answer. answer ≡ spec.by_identity all (loaded_maps all stack.now.library) stack.now.envs context.now (Some id))) }
    ensures refused { IfErr result (OnlyReadFault (S.read_faults store.old) (S.read_faults store.new)) }
    ensures files { S.files store.new ≡ S.files store.old }
    ensures later { S.read_faults store.old ≤ S.read_faults store.new }
    ensures other { S.write_faults store.new ≡ S.write_faults store.old }
{
    match path_in(alloc, stack, store, context, &id) {
        Ok(Some(path)) => by_path(alloc, store, id, path),
        Ok(None) => Ok(ImportAnswer::NoSource(id)),
        Err(fault) => Err(fault),
    }
}

/// The entry path in the first environment that has one for the identity.
fn path_in<S: Store>(
    alloc: Global,
    stack: &Stack,
    store: &mut S,
    context: &Context,
    id: &Id,
) -> Result<Option<NormPath>, EnvFault>
    ensures path { IfSome (S.files store.old) (λ all. IfOk result (λ path. path ≡ spec.path_in all (loaded_maps all stack.now.library) stack.now.envs context.now id.now)) }
    ensures refused { IfErr result (OnlyReadFault (S.read_faults store.old) (S.read_faults store.new)) }
    ensures files { S.files store.new ≡ S.files store.old }
    ensures later { S.read_faults store.old ≤ S.read_faults store.new }
    ensures other { S.write_faults store.new ≡ S.write_faults store.old }
{
    'envs: for env in stack.envs() {
        match env.entry(alloc, store, stack.library(), context, id) {
            Ok(Some(path)) => return Ok(Some(path)),
            Ok(None) => {}
            Err(fault) => return Err(fault),
        }
    }
    Ok(None)
}

/// The identity is found where its path is a file.
fn by_path<S: Store>(
    alloc: Global,
    store: &mut S,
    id: Id,
    path: NormPath,
) -> Result<ImportAnswer, EnvFault>
    ensures told { IfSome (S.files store.old) (λ all. IfOk result (λ answer. answer ≡ spec.by_path all id (Some path))) }
    ensures refused { IfErr result (OnlyReadFault (S.read_faults store.old) (S.read_faults store.new)) }
    ensures files { S.files store.new ≡ S.files store.old }
    ensures later { S.read_faults store.old ≤ S.read_faults store.new }
    ensures other { S.write_faults store.new ≡ S.write_faults store.old }
{
    match store.kind(alloc, &path) {
        KindAnswer::File => Ok(ImportAnswer::Found(id, path)),
        KindAnswer::Folder => Ok(ImportAnswer::NoSource(id)),
        KindAnswer::Missing => Ok(ImportAnswer::NoSource(id)),
        KindAnswer::Failed => Err(EnvFault::ReadFault(path)),
        KindAnswer::Memory => Err(EnvFault::Memory),
    }
}
