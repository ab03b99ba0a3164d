//! The folder of the standard libraries.
ghost use Rattle.std.specs.Prelude.{◌≡◌, ◌≤◌, ◌∷◌, ◌++◌, [], Ok, IfSome, IfOk, IfErr, OnOk, MatchResult, option_to_list};
ghost use Rattle.project_places.specs.Active.{file_in as file_meant};
ghost use Rattle.project_places.specs.Files.{Adds, Refuses};
ghost use Rattle.project_places.specs.Faults.{ReadFaultRose};
ghost use Rattle.registry_tables.specs.Registries.{children as children_meant, in_folder as in_folder_meant};
ghost use Rattle.standard_libraries.specs.Libraries as spec;

use crate::children::children;
use crate::library::{Library, library_of};
use pkg_world::{Name, NormPath, Store, Unread, names_in};
use project_places::{EnvFault, file_in, project_at};
use std::alloc::{AllocError, Global};
use std::collections::{BTreeMap, VecDeque};
use uuid::Uuid;

/// The standard libraries by their identifiers.
pub type Libraries = BTreeMap<Uuid, Library>;

/// The standard libraries of a folder: of each folder in it whose project file has `name` and `uuid`, what that file says.
/// A library without `version` has Julia's. Of several folders of one identifier the first by name counts. (Own rules.)
///
/// The project files of all folders are read, by the bytes of the folders' names. Without a folder there is no library.
///
/// Errors: BadFile, exactly at the first project file that is refused; ReadFault, where the store can't read; want of
/// memory.
pub fn libraries_in<S: Store>(
    alloc: Global,
    store: &mut S,
    stdlib: &Option<NormPath>,
    julia: &[u32; 3],
) -> Result<Libraries, EnvFault>
    ensures told { IfSome (S.files store.old) (λ all. MatchResult result (λ found. spec.libraries_in all julia.now stdlib.now ≡ Ok found.entries) (Refuses (spec.libraries_in all julia.now stdlib.now))) }
    ensures fault { IfErr result (ReadFaultRose (S.read_faults store.old) (S.read_faults store.new)) }
    ensures files { S.files store.new ≡ S.files store.old }
    ensures later { S.read_faults store.old ≤ S.read_faults store.new }
    ensures other { S.write_faults store.new ≡ S.write_faults store.old }
{
    match stdlib {
        None => Ok(BTreeMap::new(alloc)),
        Some(folder) => in_folder(alloc, store, folder, julia),
    }
}

fn in_folder<S: Store>(
    alloc: Global,
    store: &mut S,
    folder: &NormPath,
    julia: &[u32; 3],
) -> Result<Libraries, EnvFault>
    ensures told { IfSome (S.files store.old) (λ all. MatchResult result (λ found. spec.libraries_at all julia.now (in_folder_meant all folder.now) ≡ Ok found.entries) (Refuses (spec.libraries_at all julia.now (in_folder_meant all folder.now)))) }
    ensures fault { IfErr result (ReadFaultRose (S.read_faults store.old) (S.read_faults store.new)) }
    ensures files { S.files store.new ≡ S.files store.old }
    ensures later { S.read_faults store.old ≤ S.read_faults store.new }
    ensures other { S.write_faults store.new ≡ S.write_faults store.old }
{
    match names_in(alloc, store, folder) {
        Ok(Some(names)) => of_names(alloc, store, folder, names.items(), julia),
        Ok(None) => Ok(BTreeMap::new(alloc)),
        Err(Unread::Failed(path)) => Err(EnvFault::ReadFault(path)),
        Err(Unread::Memory) => Err(EnvFault::Memory),
    }
}

fn of_names<S: Store>(
    alloc: Global,
    store: &mut S,
    folder: &NormPath,
    names: &[Name],
    julia: &[u32; 3],
) -> Result<Libraries, EnvFault>
    ensures told { IfSome (S.files store.old) (λ all. MatchResult result (λ found. spec.libraries_at all julia.now (children_meant folder.now names.now) ≡ Ok found.entries) (Refuses (spec.libraries_at all julia.now (children_meant folder.now names.now)))) }
    ensures fault { IfErr result (ReadFaultRose (S.read_faults store.old) (S.read_faults store.new)) }
    ensures files { S.files store.new ≡ S.files store.old }
    ensures later { S.read_faults store.old ≤ S.read_faults store.new }
    ensures other { S.write_faults store.new ≡ S.write_faults store.old }
{
    let folders = children(alloc, folder, names)?;
    of_folders(alloc, store, folders.items(), julia)
}

/// The libraries of these folders.
fn of_folders<S: Store>(
    alloc: Global,
    store: &mut S,
    folders: &[NormPath],
    julia: &[u32; 3],
) -> Result<Libraries, EnvFault>
    ensures told { IfSome (S.files store.old) (λ all. MatchResult result (λ found. spec.libraries_at all julia.now folders.now ≡ Ok found.entries) (Refuses (spec.libraries_at all julia.now folders.now))) }
    ensures fault { IfErr result (ReadFaultRose (S.read_faults store.old) (S.read_faults store.new)) }
    ensures files { S.files store.new ≡ S.files store.old }
    ensures later { S.read_faults store.old ≤ S.read_faults store.new }
    ensures other { S.write_faults store.new ≡ S.write_faults store.old }
{
    match read_folders(alloc, store, folders, julia) {
        Ok(found) => Ok(by_id(alloc, found)?),
        Err(fault) => Err(fault),
    }
}

/// What the project files of these folders say, one after the other.
fn read_folders<S: Store>(
    alloc: Global,
    store: &mut S,
    folders: &[NormPath],
    julia: &[u32; 3],
) -> Result<VecDeque<Library>, EnvFault>
    ensures told { IfSome (S.files store.old) (λ all. MatchResult result (λ found. spec.folders_read all julia.now folders.now ≡ Ok found.items) (Refuses (spec.folders_read all julia.now folders.now))) }
    ensures fault { IfErr result (ReadFaultRose (S.read_faults store.old) (S.read_faults store.new)) }
    ensures files { S.files store.new ≡ S.files store.old }
    ensures later { S.read_faults store.old ≤ S.read_faults store.new }
    ensures other { S.write_faults store.new ≡ S.write_faults store.old }
{
    let mut found = VecDeque::new(alloc);
    match add_folders(alloc, store, folders, julia, &mut found) {
        Ok(()) => Ok(found),
        Err(fault) => Err(fault),
    }
}

fn add_folders<S: Store>(
    alloc: Global,
    store: &mut S,
    folders: &[NormPath],
    julia: &[u32; 3],
    found: &mut VecDeque<Library>,
) -> Result<(), EnvFault>
    ensures told { IfSome (S.files store.old) (λ all. Adds (spec.folders_read all julia.now folders.now) found.old.items found.new.items result) }
    ensures fault { IfErr result (ReadFaultRose (S.read_faults store.old) (S.read_faults store.new)) }
    ensures files { S.files store.new ≡ S.files store.old }
    ensures later { S.read_faults store.old ≤ S.read_faults store.new }
    ensures other { S.write_faults store.new ≡ S.write_faults store.old }
{
    'folders: for folder in folders {
        match add_folder(alloc, store, folder, julia, found) {
            Ok(()) => {}
            Err(fault) => return Err(fault),
        }
    }
    Ok(())
}

fn add_folder<S: Store>(
    alloc: Global,
    store: &mut S,
    folder: &NormPath,
    julia: &[u32; 3],
    found: &mut VecDeque<Library>,
) -> Result<(), EnvFault>
    ensures told { IfSome (S.files store.old) (λ all. Adds (spec.folder_read all julia.now folder.now) found.old.items found.new.items result) }
    ensures fault { IfErr result (ReadFaultRose (S.read_faults store.old) (S.read_faults store.new)) }
    ensures files { S.files store.new ≡ S.files store.old }
    ensures later { S.read_faults store.old ≤ S.read_faults store.new }
    ensures other { S.write_faults store.new ≡ S.write_faults store.old }
{
    match library_at(alloc, store, folder, julia) {
        Ok(Some(library)) => push(found, library),
        Ok(None) => Ok(()),
        Err(fault) => Err(fault),
    }
}

/// Appends a library. The one error is want of memory.
fn push(found: &mut VecDeque<Library>, library: Library) -> Result<(), EnvFault>
    ensures ok { OnOk result (found.new.items ≡ found.old.items ++ library ∷ []) }
    ensures err { IfErr result (λ fault. fault ≡ EnvFault.Memory) }
{
    match found.push_back(library) {
        Ok(()) => Ok(()),
        Err(_) => Err(EnvFault::Memory),
    }
}

/// The library of a folder; None where its project file isn't there or makes none.
fn library_at<S: Store>(
    alloc: Global,
    store: &mut S,
    folder: &NormPath,
    julia: &[u32; 3],
) -> Result<Option<Library>, EnvFault>
    ensures told { IfSome (S.files store.old) (λ all. MatchResult result (λ found. spec.library_read all julia.now (file_meant all folder.now) ≡ Ok found) (Refuses (spec.library_read all julia.now (file_meant all folder.now)))) }
    ensures fault { IfErr result (ReadFaultRose (S.read_faults store.old) (S.read_faults store.new)) }
    ensures files { S.files store.new ≡ S.files store.old }
    ensures later { S.read_faults store.old ≤ S.read_faults store.new }
    ensures other { S.write_faults store.new ≡ S.write_faults store.old }
{
    match file_in(alloc, store, folder) {
        Ok(file) => library_of_file(alloc, store, &file, julia),
        Err(fault) => Err(fault),
    }
}

fn library_of_file<S: Store>(
    alloc: Global,
    store: &mut S,
    file: &NormPath,
    julia: &[u32; 3],
) -> Result<Option<Library>, EnvFault>
    ensures told { IfSome (S.files store.old) (λ all. MatchResult result (λ found. spec.library_read all julia.now file.now ≡ Ok found) (Refuses (spec.library_read all julia.now file.now))) }
    ensures fault { IfErr result (ReadFaultRose (S.read_faults store.old) (S.read_faults store.new)) }
    ensures files { S.files store.new ≡ S.files store.old }
    ensures later { S.read_faults store.old ≤ S.read_faults store.new }
    ensures other { S.write_faults store.new ≡ S.write_faults store.old }
{
    match project_at(alloc, store, file) {
        Ok(Some(project)) => Ok(library_of(alloc, julia, project)),
        Ok(None) => Ok(None),
        Err(fault) => Err(fault),
    }
}

/// The libraries by their identifiers; the first of an identifier counts.
fn by_id(alloc: Global, found: VecDeque<Library>) -> Result<Libraries, AllocError>
    ensures { IfOk result (λ libraries. libraries.entries ≡ spec.by_id found.items) }
{
    let mut libraries = BTreeMap::new(alloc);
    let mut left = found;
    'libraries: while let Some(library) = left.pop_front() {
        put(&mut libraries, library)?;
    }
    Ok(libraries)
}

/// Puts a library to the others, unless its identifier is there.
fn put(libraries: &mut Libraries, library: Library) -> Result<(), AllocError>
    ensures { OnOk result (libraries.new.entries ≡ spec.put libraries.old.entries library) }
{
    let uuid = library.uuid();
    if libraries.contains_key(&uuid) {
        return Ok(());
    }
    libraries.insert(uuid, library)?;
    Ok(())
}
