//! The entry file of an extension.
ghost use Rattle.std.specs.Prelude.{◌≡◌, ◌≤◌, IfSome, IfOk, IfErr, string_bytes};
ghost use Rattle.std.specs.Option.{option_and_then};
ghost use Rattle.pkg_world.specs.Path.{joined};
ghost use Rattle.project_places.specs.Faults.{OnlyReadFault};
ghost use Rattle.entry_files.specs.Entries as spec;

use crate::source::source_inside;
use pkg_world::{Name, NormPath, Store};
use project_places::{EnvFault, is_there, path_in};
use std::alloc::{AllocError, Global};

/// The entry file of an extension E, which need not be there, by the entry of its parent P: in the folder above P's `src`
/// it is `ext/E/E.jl` where that is a file, else `ext/E.jl`. None exactly where P's entry doesn't end in `src/P.jl`, or
/// where both would rise above the root. (Own rule, after Julia's loader.)
///
/// Errors: ReadFault, where the store can't tell what is there; want of memory.
pub fn extension_entry<S: Store>(
    alloc: Global,
    store: &mut S,
    entry: &NormPath,
    parent: &Name,
    extension: &Name,
) -> Result<Option<NormPath>, EnvFault>
    ensures path { IfSome (S.files store.old) (λ all. IfOk result (λ path. path ≡ spec.extension_entry all parent.now extension.now entry.now)) }
    ensures refused { IfErr result (OnlyReadFault (S.read_faults store.old) (S.read_faults store.new)) }
    ensures files { S.files store.new ≡ S.files store.old }
    ensures later { S.read_faults store.old ≤ S.read_faults store.new }
    ensures other { S.write_faults store.new ≡ S.write_faults store.old }
{
    match home_of(alloc, parent, entry) {
        Ok(Some(home)) => extension_in(alloc, store, &home, extension),
        Ok(None) => Ok(None),
        Err(_) => Err(EnvFault::Memory),
    }
}

/// The folder above `src` of an entry that ends in `src/P.jl`; None where it ends otherwise.
fn home_of(alloc: Global, name: &Name, entry: &NormPath) -> Result<Option<NormPath>, AllocError>
    ensures { IfOk result (λ home. home ≡ spec.home_of name.now entry.now) }
{
    let folder = entry.folder(alloc)?;
    let home = folder.folder(alloc)?;
    if is_source(alloc, &home, name, entry)? {
        Ok(Some(home))
    } else {
        Ok(None)
    }
}

/// Whether an entry is `src/X.jl` in that folder.
fn is_source(
    alloc: Global,
    home: &NormPath,
    name: &Name,
    entry: &NormPath,
) -> Result<bool, AllocError>
    ensures { IfOk result (λ is. is ≡ spec.is_path (joined home.now (spec.source_text name.now)) entry.now) }
{
    match source_inside(alloc, home, name)? {
        Some(path) => Ok(path.as_str() == entry.as_str()),
        None => Ok(false),
    }
}

fn extension_in<S: Store>(
    alloc: Global,
    store: &mut S,
    home: &NormPath,
    extension: &Name,
) -> Result<Option<NormPath>, EnvFault>
    ensures path { IfSome (S.files store.old) (λ all. IfOk result (λ path. path ≡ spec.extension_in all extension.now home.now)) }
    ensures refused { IfErr result (OnlyReadFault (S.read_faults store.old) (S.read_faults store.new)) }
    ensures files { S.files store.new ≡ S.files store.old }
    ensures later { S.read_faults store.old ≤ S.read_faults store.new }
    ensures other { S.write_faults store.new ≡ S.write_faults store.old }
{
    match nested(alloc, store, home, extension) {
        Ok(Some(path)) => Ok(Some(path)),
        Ok(None) => Ok(flat(alloc, home, extension)?),
        Err(fault) => Err(fault),
    }
}

/// `ext/E/E.jl`, where that is a file.
fn nested<S: Store>(
    alloc: Global,
    store: &mut S,
    home: &NormPath,
    extension: &Name,
) -> Result<Option<NormPath>, EnvFault>
    ensures path { IfSome (S.files store.old) (λ all. IfOk result (λ path. path ≡ option_and_then (spec.if_file all) (joined home.now (spec.nested_text extension.now)))) }
    ensures refused { IfErr result (OnlyReadFault (S.read_faults store.old) (S.read_faults store.new)) }
    ensures files { S.files store.new ≡ S.files store.old }
    ensures later { S.read_faults store.old ≤ S.read_faults store.new }
    ensures other { S.write_faults store.new ≡ S.write_faults store.old }
{
    match nested_path(alloc, home, extension) {
        Ok(Some(path)) => if_file(alloc, store, path),
        Ok(None) => Ok(None),
        Err(_) => Err(EnvFault::Memory),
    }
}

/// The path where it is a file.
fn if_file<S: Store>(
    alloc: Global,
    store: &mut S,
    path: NormPath,
) -> Result<Option<NormPath>, EnvFault>
    ensures path { IfSome (S.files store.old) (λ all. IfOk result (λ found. found ≡ spec.if_file all path)) }
    ensures refused { IfErr result (OnlyReadFault (S.read_faults store.old) (S.read_faults store.new)) }
    ensures files { S.files store.new ≡ S.files store.old }
    ensures later { S.read_faults store.old ≤ S.read_faults store.new }
    ensures other { S.write_faults store.new ≡ S.write_faults store.old }
{
    match is_there(alloc, store, &path) {
        Ok(true) => Ok(Some(path)),
        Ok(false) => Ok(None),
        Err(fault) => Err(fault),
    }
}

/// `ext/E/E.jl` in a folder.
fn nested_path(
    alloc: Global,
    home: &NormPath,
    extension: &Name,
) -> Result<Option<NormPath>, AllocError>
    ensures { IfOk result (λ path. path ≡ joined home.now (spec.nested_text extension.now)) }
{
    let text = nested_text(alloc, extension)?;
    path_in(alloc, home, text.as_str())
}

fn nested_text(alloc: Global, extension: &Name) -> Result<String, AllocError>
    ensures { IfOk result (λ text. string_bytes text ≡ spec.nested_text extension.now) }
{
    let text = extension.as_str();
    format!(in alloc; "ext/{text}/{text}.jl")
}

/// `ext/E.jl` in a folder.
fn flat(alloc: Global, home: &NormPath, extension: &Name) -> Result<Option<NormPath>, AllocError>
    ensures { IfOk result (λ path. path ≡ joined home.now (spec.flat_text extension.now)) }
{
    let text = flat_text(alloc, extension)?;
    path_in(alloc, home, text.as_str())
}

fn flat_text(alloc: Global, extension: &Name) -> Result<String, AllocError>
    ensures { IfOk result (λ text. string_bytes text ≡ spec.flat_text extension.now) }
{
    let text = extension.as_str();
    format!(in alloc; "ext/{text}.jl")
}
