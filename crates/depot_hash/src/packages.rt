//! Where a tree is installed.
ghost use Rattle.std.specs.Prelude.{◌≡◌, ◌≤◌, ◌∷◌, [], Some, IfSome, IfOk, IfErr, string_bytes};
ghost use Rattle.std.specs.Str.{IsAscii};
ghost use Rattle.pkg_world.specs.Path.{joined};
ghost use Rattle.depot_hash.specs.Installed as spec;
ghost use Rattle.depot_hash.specs.Faults.{OnlyReadFault};

use crate::fault::{FolderFault, unread};
use crate::slugs::{slug, slug4};
use pkg_world::{Name, NormPath, NormPaths, PathFault, Store, TreeId, is_folder};
use std::alloc::{AllocError, Global};
use uuid::Uuid;

/// The folder in which a package's tree is installed: the first `DEPOT/packages/NAME/SLUG` that is a folder, with five
/// letters in all depots first, then with four letters in all depots. A path that rises above the root counts as not
/// there. None exactly where there is no such folder.
///
/// Its only errors are ReadFault, where the store can't tell what is there, and want of memory.
pub fn installed<S: Store>(
    alloc: Global,
    store: &mut S,
    depots: &NormPaths,
    name: &Name,
    uuid: &Uuid,
    tree: &TreeId,
) -> Result<Option<NormPath>, FolderFault>
    ensures told { IfSome (S.files store.old) (λ all. IfOk result (λ path. path ≡ spec.installed_in all depots.now.items name.now uuid.now tree.now)) }
    ensures fault { IfErr result (OnlyReadFault (S.read_faults store.old) (S.read_faults store.new)) }
    ensures files { S.files store.new ≡ S.files store.old }
    ensures later { S.read_faults store.old ≤ S.read_faults store.new }
    ensures other { S.write_faults store.new ≡ S.write_faults store.old }
{
    match below(alloc, store, depots, name, &slug(uuid, tree)) {
        Ok(Some(path)) => Ok(Some(path)),
        Ok(None) => below(alloc, store, depots, name, &slug4(uuid, tree)),
        Err(fault) => Err(fault),
    }
}

/// The first folder of that slug, in the order of the depots.
fn below<S: Store>(
    alloc: Global,
    store: &mut S,
    depots: &NormPaths,
    name: &Name,
    slug: &[u8],
) -> Result<Option<NormPath>, FolderFault>
    requires { IsAscii slug.now }
    ensures told { IfSome (S.files store.old) (λ all. IfOk result (λ path. path ≡ spec.first_there all (spec.below_depots depots.now.items name.now slug.now))) }
    ensures fault { IfErr result (OnlyReadFault (S.read_faults store.old) (S.read_faults store.new)) }
    ensures files { S.files store.new ≡ S.files store.old }
    ensures later { S.read_faults store.old ≤ S.read_faults store.new }
    ensures other { S.write_faults store.new ≡ S.write_faults store.old }
{
    let text = folder_text(alloc, name, slug)?;
    for depot in depots.items() {
        match folder_at(alloc, store, depot, text.as_str()) {
            Ok(Some(path)) => return Ok(Some(path)),
            Ok(None) => {}
            Err(fault) => return Err(fault),
        }
    }
    Ok(None)
}

fn folder_text(alloc: Global, name: &Name, slug: &[u8]) -> Result<String, AllocError>
    requires { IsAscii slug.now }
    ensures { IfOk result (λ text. string_bytes text ≡ spec.folder_text name.now slug.now) }
{
    let name = name.as_str();
    let slug = letters(slug);
    format!(in alloc; "packages/{name}/{slug}")
}

fn letters(slug: &[u8]) -> &str
    requires { IsAscii slug.now }
    ensures { result.now ≡ slug.now }
{
    match str::from_utf8(slug) {
        Ok(text) => text,
        Err(_) => unreachable!(),
    }
}

/// The path that a text means from a depot, where a folder is there.
fn folder_at<S: Store>(
    alloc: Global,
    store: &mut S,
    depot: &NormPath,
    text: &str,
) -> Result<Option<NormPath>, FolderFault>
    ensures told { IfSome (S.files store.old) (λ all. IfOk result (λ path. path ≡ spec.first_there all (joined depot.now text.now ∷ []))) }
    ensures fault { IfErr result (OnlyReadFault (S.read_faults store.old) (S.read_faults store.new)) }
    ensures files { S.files store.new ≡ S.files store.old }
    ensures later { S.read_faults store.old ≤ S.read_faults store.new }
    ensures other { S.write_faults store.new ≡ S.write_faults store.old }
{
    match NormPath::join(alloc, depot, text) {
        Ok(path) => if_folder(alloc, store, path),
        Err(PathFault::Escapes) => Ok(None),
        Err(PathFault::Memory) => Err(FolderFault::Memory),
    }
}

fn if_folder<S: Store>(
    alloc: Global,
    store: &mut S,
    path: NormPath,
) -> Result<Option<NormPath>, FolderFault>
    ensures told { IfSome (S.files store.old) (λ all. IfOk result (λ found. found ≡ spec.first_there all (Some path ∷ []))) }
    ensures fault { IfErr result (OnlyReadFault (S.read_faults store.old) (S.read_faults store.new)) }
    ensures files { S.files store.new ≡ S.files store.old }
    ensures later { S.read_faults store.old ≤ S.read_faults store.new }
    ensures other { S.write_faults store.new ≡ S.write_faults store.old }
{
    match is_folder(alloc, store, &path) {
        Ok(true) => Ok(Some(path)),
        Ok(false) => Ok(None),
        Err(why) => Err(unread(why)),
    }
}
