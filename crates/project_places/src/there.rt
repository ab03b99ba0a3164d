//! What stands at a path.
ghost use Rattle.std.specs.Prelude.{◌≡◌, ◌≤◌, true, IfSome, IfOk, IfErr};
ghost use Rattle.pkg_world.specs.Path.{is_plain, joined};
ghost use Rattle.pkg_world.specs.Tree.{holds, is_file as is_file_meant};
ghost use Rattle.project_places.specs.Active.{first_there as first_meant};
ghost use Rattle.project_places.specs.Faults.{OnlyReadFault};

use crate::fault::EnvFault;
use pkg_world::{NormPath, PathFault, Store, Unread, is_file};
use std::alloc::{AllocError, Global};

/// Whether a path is a file.
///
/// Errors: ReadFault, where the store can't tell what is there; want of memory.
pub fn is_there<S: Store>(alloc: Global, store: &mut S, path: &NormPath) -> Result<bool, EnvFault>
    ensures found { IfSome (S.files store.old) (λ all. IfOk result (λ found. found ≡ is_file_meant (holds path.now all))) }
    ensures refused { IfErr result (OnlyReadFault (S.read_faults store.old) (S.read_faults store.new)) }
    ensures files { S.files store.new ≡ S.files store.old }
    ensures later { S.read_faults store.old ≤ S.read_faults store.new }
    ensures other { S.write_faults store.new ≡ S.write_faults store.old }
{
    match is_file(alloc, store, path) {
        Ok(found) => Ok(found),
        Err(Unread::Failed(path)) => Err(EnvFault::ReadFault(path)),
        Err(Unread::Memory) => Err(EnvFault::Memory),
    }
}

/// Of two names in a folder the first that is a file, else the second, which need not be there.
pub(crate) fn first_there<S: Store>(
    alloc: Global,
    store: &mut S,
    folder: &NormPath,
    preferred: &str,
    other: &str,
) -> Result<NormPath, EnvFault>
    requires preferred { is_plain preferred.now ≡ true }
    requires other { is_plain other.now ≡ true }
    ensures path { IfSome (S.files store.old) (λ all. IfOk result (λ path. first_meant all folder.now preferred.now other.now ≡ path)) }
    ensures refused { IfErr result (OnlyReadFault (S.read_faults store.old) (S.read_faults store.new)) }
    ensures files { S.files store.new ≡ S.files store.old }
    ensures later { S.read_faults store.old ≤ S.read_faults store.new }
    ensures other { S.write_faults store.new ≡ S.write_faults store.old }
{
    let path = folder.child(alloc, preferred)?;
    match is_there(alloc, store, &path) {
        Ok(true) => Ok(path),
        Ok(false) => Ok(folder.child(alloc, other)?),
        Err(fault) => Err(fault),
    }
}

/// The path that a text means inside a folder; None exactly where it rises above the root. The one error is want of memory.
pub fn path_in(alloc: Global, folder: &NormPath, text: &str) -> Result<Option<NormPath>, AllocError>
    ensures { IfOk result (λ path. path ≡ joined folder.now text.now) }
{
    match NormPath::join(alloc, folder, text) {
        Ok(path) => Ok(Some(path)),
        Err(PathFault::Escapes) => Ok(None),
        Err(PathFault::Memory) => Err(AllocError),
    }
}
