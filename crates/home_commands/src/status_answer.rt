//! `status`: the dependencies of the active project, or all stanzas of its manifest.
ghost use Rattle.std.specs.Prelude.{◌≡◌, ◌≤◌, ◌++◌, Ok, IfSome, IfOk, IfErr, OnOk, string_bytes};
ghost use Rattle.home_commands.specs.ExtensionLines.{extension_lines};
ghost use Rattle.home_commands.specs.Home.{seen_both};
ghost use Rattle.home_commands.specs.StatusDue as spec;
ghost use Rattle.command_answers.specs.Answers.{Answers, ReadFaultRose, IsLate, IsUnprinted};

use crate::extension_lines::push_extensions;
use crate::home::{Both, both_files};
use crate::stanza_line::{push_deps, push_packed, push_path, push_stanzas};
use command_answers::Status;
use pkg_world::{NormPath, Place, Store};
use registry_tables::{RegFault, registries};
use std::alloc::{AllocError, Global};

/// The lines of `status`, or its refusal: the project's file, then for each dependency, or with `all` for each stanza of
/// the manifest, its name, identifier, version and origin, with `extensions` then each stanza's extensions and whether they
/// are active, and last the packed registries of the depots, which are not read. (own rule)
///
/// Refusals: MissingFile where the project file is not there; BadFile where it or the manifest is refused; ReadFault
/// where the store fails; want of memory. A manifest that is not there is empty.
pub fn status_lines<S: Store>(
    alloc: Global,
    all: bool,
    extensions: bool,
    place: &Place,
    store: &mut S,
) -> Result<String, Status>
    ensures answer { IfSome (S.files store.old) (λ files. Answers (spec.status_due files place.now all extensions) result) }
    ensures late { IfErr result IsLate }
    ensures unprinted { IfErr result IsUnprinted }
    ensures fault { IfErr result (ReadFaultRose (S.read_faults store.old) (S.read_faults store.new)) }
    ensures files { S.files store.new ≡ S.files store.old }
    ensures later { S.read_faults store.old ≤ S.read_faults store.new }
    ensures other { S.write_faults store.new ≡ S.write_faults store.old }
{
    match both_files(alloc, store, place) {
        Ok(both) => of_both(alloc, all, extensions, place, store, &both),
        Err(status) => Err(status),
    }
}

/// The lines of the two files and of the packed registries.
fn of_both<S: Store>(
    alloc: Global,
    all: bool,
    extensions: bool,
    place: &Place,
    store: &mut S,
    both: &Both,
) -> Result<String, Status>
    ensures answer { IfSome (S.files store.old) (λ files. Answers (spec.status_of files place.now all extensions (seen_both both.now)) result) }
    ensures late { IfErr result IsLate }
    ensures unprinted { IfErr result IsUnprinted }
    ensures fault { IfErr result (ReadFaultRose (S.read_faults store.old) (S.read_faults store.new)) }
    ensures files { S.files store.new ≡ S.files store.old }
    ensures later { S.read_faults store.old ≤ S.read_faults store.new }
    ensures other { S.write_faults store.new ≡ S.write_faults store.old }
{
    match registries(alloc, store, &place.depots) {
        Ok(found) => match text_of(alloc, all, extensions, both, found.packed.items()) {
            Ok(text) => Ok(text),
            Err(_) => Err(Status::Memory),
        },
        Err(RegFault::ReadFault(path)) => Err(Status::ReadFault(path)),
        Err(RegFault::MissingFile(_)) => unreachable!(),
        Err(RegFault::BadFile(..)) => unreachable!(),
        Err(RegFault::Memory) => Err(Status::Memory),
    }
}

fn text_of(
    alloc: Global,
    all: bool,
    extensions: bool,
    both: &Both,
    packed: &[NormPath],
) -> Result<String, AllocError>
    ensures { IfOk result (λ text. string_bytes text ≡ spec.status_text all extensions (seen_both both.now) packed.now) }
{
    let mut text = String::new(alloc);
    push_path(&mut text, "project ", &both.file)?;
    push_packages(alloc, &mut text, all, both)?;
    push_if(alloc, &mut text, extensions, both)?;
    push_packed(&mut text, packed)?;
    Ok(text)
}

fn push_packages(alloc: Global, text: &mut String, all: bool, both: &Both) -> Result<(), AllocError>
    ensures { OnOk result (string_bytes text.new ≡ string_bytes text.old ++ spec.package_lines all (seen_both both.now)) }
{
    let stanzas = both.stanzas.items();
    if all {
        push_stanzas(alloc, text, stanzas)
    } else {
        push_deps(alloc, text, both.deps.items(), stanzas)
    }
}

/// Appends the lines of extensions, where they are asked for.
fn push_if(
    alloc: Global,
    text: &mut String,
    extensions: bool,
    both: &Both,
) -> Result<(), AllocError>
    ensures { OnOk result (string_bytes text.new ≡ string_bytes text.old ++ extension_lines extensions (seen_both both.now).stanzas) }
{
    if extensions {
        return push_extensions(alloc, text, both.stanzas.items());
    }
    Ok(())
}
