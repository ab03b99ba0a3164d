//! Entry files.
ghost use Rattle.std.specs.Prelude.{◌≡◌, ◌≤◌, IfSome, IfOk, IfErr, option_map};
ghost use Rattle.std.specs.Option.{option_copied, option_and_then};
ghost use Rattle.pkg_world.specs.Path.{joined};
ghost use Rattle.manifest_file.specs.Said.{said_stanza};
ghost use Rattle.depot_hash.specs.Installed.{installed_in};
ghost use Rattle.env_maps.specs.Maps as spec;
ghost use Rattle.project_places.specs.Faults.{OnlyReadFault};

use crate::id::is_uuid;
use crate::library::library_folder;
use depot_hash::{FolderFault, installed};
use entry_files::source_inside;
use manifest_file::{Origin, Stanza};
use pkg_world::{Name, NormPath, NormPaths, Store, TreeId};
use project_places::{EnvFault, is_there, path_in};
use std::alloc::{AllocError, Global};
use uuid::Uuid;

/// The entry file of a stanza, its path taken from the manifest's folder; `library` is the identifier that the standard
/// library of its name has.
pub(crate) fn stanza_entry<S: Store>(
    alloc: Global,
    store: &mut S,
    depots: &NormPaths,
    folder: &NormPath,
    stdlib: &Option<NormPath>,
    library: &Option<Uuid>,
    stanza: Option<&Stanza>,
) -> Result<Option<NormPath>, EnvFault>
    ensures path { IfSome (S.files store.old) (λ all. IfOk result (λ path. path ≡ spec.stanza_entry all depots.now.items folder.now stdlib.now library.now (option_map said_stanza (option_copied stanza.entry)))) }
    ensures refused { IfErr result (OnlyReadFault (S.read_faults store.old) (S.read_faults store.new)) }
    ensures files { S.files store.new ≡ S.files store.old }
    ensures later { S.read_faults store.old ≤ S.read_faults store.new }
    ensures other { S.write_faults store.new ≡ S.write_faults store.old }
{
    match stanza {
        Some(stanza) => origin_entry(alloc, store, depots, folder, stdlib, library, stanza),
        None => Ok(None),
    }
}

fn origin_entry<S: Store>(
    alloc: Global,
    store: &mut S,
    depots: &NormPaths,
    folder: &NormPath,
    stdlib: &Option<NormPath>,
    library: &Option<Uuid>,
    stanza: &Stanza,
) -> Result<Option<NormPath>, EnvFault>
    ensures path { IfSome (S.files store.old) (λ all. IfOk result (λ path. path ≡ spec.origin_entry all depots.now.items folder.now stdlib.now library.now stanza.now.name stanza.now.uuid stanza.now.origin)) }
    ensures refused { IfErr result (OnlyReadFault (S.read_faults store.old) (S.read_faults store.new)) }
    ensures files { S.files store.new ≡ S.files store.old }
    ensures later { S.read_faults store.old ≤ S.read_faults store.new }
    ensures other { S.write_faults store.new ≡ S.write_faults store.old }
{
    let Stanza { name, uuid, .. } = stanza;
    match &stanza.origin {
        Origin::Path(text) => path_entry(alloc, store, folder, name, text),
        Origin::Tree(tree) => tree_entry(alloc, store, depots, name, uuid, tree),
        Origin::Repo { tree, .. } => tree_entry(alloc, store, depots, name, uuid, tree),
        Origin::Std => Ok(library_entry(alloc, stdlib, library, name, uuid)?),
    }
}

/// The entry of a standard library: `src/X.jl` in its folder, where the project file there has the stanza's identifier.
fn library_entry(
    alloc: Global,
    stdlib: &Option<NormPath>,
    library: &Option<Uuid>,
    name: &Name,
    uuid: &Uuid,
) -> Result<Option<NormPath>, AllocError>
    ensures { IfOk result (λ path. path ≡ spec.library_entry stdlib.now library.now name.now uuid.now) }
{
    if !is_uuid(library, uuid) {
        return Ok(None);
    }
    match library_folder(alloc, stdlib, name)? {
        Some(folder) => source_inside(alloc, &folder, name),
        None => Ok(None),
    }
}

/// The entry of a package that lies at a path.
fn path_entry<S: Store>(
    alloc: Global,
    store: &mut S,
    folder: &NormPath,
    name: &Name,
    text: &Name,
) -> Result<Option<NormPath>, EnvFault>
    ensures path { IfSome (S.files store.old) (λ all. IfOk result (λ entry. entry ≡ option_and_then (spec.entry_at all name.now) (joined folder.now text.now))) }
    ensures refused { IfErr result (OnlyReadFault (S.read_faults store.old) (S.read_faults store.new)) }
    ensures files { S.files store.new ≡ S.files store.old }
    ensures later { S.read_faults store.old ≤ S.read_faults store.new }
    ensures other { S.write_faults store.new ≡ S.write_faults store.old }
{
    match path_in(alloc, folder, text.as_str()) {
        Ok(Some(path)) => entry_at(alloc, store, name, path),
        Ok(None) => Ok(None),
        Err(_) => Err(EnvFault::Memory),
    }
}

/// The path itself where it is a file, else `src/X.jl` inside.
fn entry_at<S: Store>(
    alloc: Global,
    store: &mut S,
    name: &Name,
    path: NormPath,
) -> Result<Option<NormPath>, EnvFault>
    ensures path { IfSome (S.files store.old) (λ all. IfOk result (λ entry. entry ≡ spec.entry_at all name.now path)) }
    ensures refused { IfErr result (OnlyReadFault (S.read_faults store.old) (S.read_faults store.new)) }
    ensures files { S.files store.new ≡ S.files store.old }
    ensures later { S.read_faults store.old ≤ S.read_faults store.new }
    ensures other { S.write_faults store.new ≡ S.write_faults store.old }
{
    match is_there(alloc, store, &path) {
        Ok(true) => Ok(Some(path)),
        Ok(false) => Ok(source_inside(alloc, &path, name)?),
        Err(fault) => Err(fault),
    }
}

/// The entry of a package that is installed as a tree; None where it isn't installed.
fn tree_entry<S: Store>(
    alloc: Global,
    store: &mut S,
    depots: &NormPaths,
    name: &Name,
    uuid: &Uuid,
    tree: &TreeId,
) -> Result<Option<NormPath>, EnvFault>
    ensures path { IfSome (S.files store.old) (λ all. IfOk result (λ entry. entry ≡ spec.source_in name.now (installed_in all depots.now.items name.now uuid.now tree.now))) }
    ensures refused { IfErr result (OnlyReadFault (S.read_faults store.old) (S.read_faults store.new)) }
    ensures files { S.files store.new ≡ S.files store.old }
    ensures later { S.read_faults store.old ≤ S.read_faults store.new }
    ensures other { S.write_faults store.new ≡ S.write_faults store.old }
{
    match installed(alloc, store, depots, name, uuid, tree) {
        Ok(Some(folder)) => Ok(source_inside(alloc, &folder, name)?),
        Ok(None) => Ok(None),
        Err(FolderFault::ReadFault(path)) => Err(EnvFault::ReadFault(path)),
        Err(FolderFault::MissingFile(_)) => unreachable!(),
        Err(FolderFault::Limit(_, _)) => unreachable!(),
        Err(FolderFault::Memory) => Err(EnvFault::Memory),
    }
}
