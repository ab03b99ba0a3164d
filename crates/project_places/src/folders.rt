//! Folders that have a project file.
ghost use Rattle.std.specs.Prelude.{◌≡◌, ◌==◌, ◌≤◌, Some, IfSome, IfOk, IfErr, length};
ghost use Rattle.pkg_world.specs.Path.{joined};
ghost use Rattle.project_places.specs.Active as spec;
ghost use Rattle.project_places.specs.Faults.{OnlyReadFault};

use crate::fault::EnvFault;
use crate::there::{first_there, is_there, path_in};
use pkg_world::{Duplicate, NormPath, PathFault, Store};
use std::alloc::{AllocError, Global};

/// The project file of a folder, which need not be there: `JuliaProject.toml` where that is a file, else `Project.toml`.
/// (Julia manual, Code Loading.)
///
/// Errors: ReadFault, where the store can't tell what is there; want of memory.
pub fn file_in<S: Store>(
    alloc: Global,
    store: &mut S,
    folder: &NormPath,
) -> Result<NormPath, EnvFault>
    ensures path { IfSome (S.files store.old) (λ all. IfOk result (λ path. spec.file_in all folder.now ≡ path)) }
    ensures refused { IfErr result (OnlyReadFault (S.read_faults store.old) (S.read_faults store.new)) }
    ensures files { S.files store.new ≡ S.files store.old }
    ensures later { S.read_faults store.old ≤ S.read_faults store.new }
    ensures other { S.write_faults store.new ≡ S.write_faults store.old }
{
    first_there(alloc, store, folder, "JuliaProject.toml", "Project.toml")
}

/// Whether a folder has a project file.
pub(crate) fn has_project<S: Store>(
    alloc: Global,
    store: &mut S,
    folder: &NormPath,
) -> Result<bool, EnvFault>
    ensures found { IfSome (S.files store.old) (λ all. IfOk result (λ found. found ≡ spec.has_project all folder.now)) }
    ensures refused { IfErr result (OnlyReadFault (S.read_faults store.old) (S.read_faults store.new)) }
    ensures files { S.files store.new ≡ S.files store.old }
    ensures later { S.read_faults store.old ≤ S.read_faults store.new }
    ensures other { S.write_faults store.new ≡ S.write_faults store.old }
{
    match file_in(alloc, store, folder) {
        Ok(file) => is_there(alloc, store, &file),
        Err(fault) => Err(fault),
    }
}

/// The nearest folder with a project file, from a folder upwards to the root.
#[tactic(auto, using(crate::proofs::Ups::nearest_here, crate::proofs::Ups::nearest_root, crate::proofs::Ups::nearest_above))]
pub(crate) fn nearest<S: Store>(
    alloc: Global,
    store: &mut S,
    folder: &NormPath,
) -> Result<Option<NormPath>, EnvFault>
    ensures path { IfSome (S.files store.old) (λ all. IfOk result (λ path. path ≡ spec.nearest all folder.now)) }
    ensures refused { IfErr result (OnlyReadFault (S.read_faults store.old) (S.read_faults store.new)) }
    ensures files { S.files store.new ≡ S.files store.old }
    ensures later { S.read_faults store.old ≤ S.read_faults store.new }
    ensures other { S.write_faults store.new ≡ S.write_faults store.old }
{
    match has_project(alloc, store, folder) {
        Ok(true) => Ok(Some(folder.copy(alloc)?)),
        Ok(false) => {
            if is_root(folder) {
                return Ok(None);
            }
            let above = folder.folder(alloc)?;
            nearest(alloc, store, &above)
        }
        Err(fault) => Err(fault),
    }
}

fn is_root(path: &NormPath) -> bool
    ensures { result ≡ (length path.now == 0) }
{
    path.as_str() == "/"
}

/// The first depot's folder of that text that has a project file.
pub(crate) fn first_environment<S: Store>(
    alloc: Global,
    store: &mut S,
    depots: &[NormPath],
    text: &str,
) -> Result<Option<NormPath>, EnvFault>
    ensures path { IfSome (S.files store.old) (λ all. IfOk result (λ path. path ≡ spec.first_environment all depots.now text.now)) }
    ensures refused { IfErr result (OnlyReadFault (S.read_faults store.old) (S.read_faults store.new)) }
    ensures files { S.files store.new ≡ S.files store.old }
    ensures later { S.read_faults store.old ≤ S.read_faults store.new }
    ensures other { S.write_faults store.new ≡ S.write_faults store.old }
{
    match depots.split_first() {
        None => Ok(None),
        Some((depot, more)) => match environment_in(alloc, store, depot, text) {
            Ok(Some(folder)) => Ok(Some(folder)),
            Ok(None) => first_environment(alloc, store, more, text),
            Err(fault) => Err(fault),
        },
    }
}

/// A depot's folder of that text, where it has a project file.
fn environment_in<S: Store>(
    alloc: Global,
    store: &mut S,
    depot: &NormPath,
    text: &str,
) -> Result<Option<NormPath>, EnvFault>
    ensures path { IfSome (S.files store.old) (λ all. IfOk result (λ path. path ≡ spec.environment_in all (joined depot.now text.now))) }
    ensures refused { IfErr result (OnlyReadFault (S.read_faults store.old) (S.read_faults store.new)) }
    ensures files { S.files store.new ≡ S.files store.old }
    ensures later { S.read_faults store.old ≤ S.read_faults store.new }
    ensures other { S.write_faults store.new ≡ S.write_faults store.old }
{
    match path_in(alloc, depot, text) {
        Ok(Some(folder)) => if_project(alloc, store, folder),
        Ok(None) => Ok(None),
        Err(_) => Err(EnvFault::Memory),
    }
}

/// A folder where it has a project file.
fn if_project<S: Store>(
    alloc: Global,
    store: &mut S,
    folder: NormPath,
) -> Result<Option<NormPath>, EnvFault>
    ensures path { IfSome (S.files store.old) (λ all. IfOk result (λ path. path ≡ spec.if_project all folder)) }
    ensures refused { IfErr result (OnlyReadFault (S.read_faults store.old) (S.read_faults store.new)) }
    ensures files { S.files store.new ≡ S.files store.old }
    ensures later { S.read_faults store.old ≤ S.read_faults store.new }
    ensures other { S.write_faults store.new ≡ S.write_faults store.old }
{
    match has_project(alloc, store, &folder) {
        Ok(true) => Ok(Some(folder)),
        Ok(false) => Ok(None),
        Err(fault) => Err(fault),
    }
}

/// A folder of the first depot; the current folder without a depot, and where it rises above the root.
pub(crate) fn in_first(
    alloc: Global,
    cwd: &NormPath,
    depots: &[NormPath],
    text: &str,
) -> Result<NormPath, AllocError>
    ensures { IfOk result (λ path. path ≡ spec.in_first cwd.now depots.now text.now) }
{
    let Some(depot) = depots.first() else {
        return cwd.copy(alloc);
    };
    match NormPath::join(alloc, depot, text) {
        Ok(path) => Ok(path),
        Err(PathFault::Escapes) => cwd.copy(alloc),
        Err(PathFault::Memory) => Err(AllocError),
    }
}
