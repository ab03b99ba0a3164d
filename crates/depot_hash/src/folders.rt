//! Git's ids of folders.
ghost use Rattle.std.specs.Prelude.{◌≡◌, ◌≤◌, ◌+◌, ◌∷◌, ◌++◌, [], List, ℕ, None, true, IfSome, IfOk, IfErr, OnOk, MatchResult};
ghost use Rattle.std.specs.BTreeSet.{contains_text};
ghost use Rattle.std.specs.List.{flat_map, list_any};
ghost use Rattle.std.specs.Str.{bytes_eq};
ghost use Rattle.pkg_world.specs.Path.{is_plain, path_text};
ghost use Rattle.pkg_world.specs.Tree.{at, holds, file_bytes};
ghost use Rattle.depot_hash.specs.Folders as spec;
ghost use Rattle.depot_hash.specs.Folders.{RefusesFolder, a_file, a_folder, passed};
ghost use Rattle.depot_hash.specs.Walks.{can_run, added_at, added_by, seen_at, seen_by, Walks, Adds, Hashes, AddsFolder, holds_no_slash};
ghost use Rattle.depot_hash.specs.Faults.{ReadFaultRose};

use crate::entries::{Mode, TreeEntry};
use crate::fault::{FolderFault, unread};
use crate::objects::blob_id;
use crate::trees::id_of;
use pkg_world::{
    Duplicate, LimitKind, Name, NormPath, NormPaths, Store, TreeId, file_at, names_in,
};
use std::alloc::{AllocError, Global};
use std::collections::BTreeSet;

/// The most folders on a path below a folder that is hashed.
const MAX_DEPTH: u32 = 64;

/// The most files of a tree.
const MAX_FILES: u32 = 1_048_576;

/// The entries of a folder's tree, and the number of files that were met so far.
#[derive(Drop)]
struct Found {
    entries: Vec<TreeEntry>,
    files: u32,
}

/// Git's id of the tree of a folder: it has every file, and every folder in which at some depth there is a file, but
/// folders named `.git` are not looked into. A file can be run where its path is among `execs`. A folder without files
/// has the empty tree. A name that can't stand in a path is passed over. (Git's object format.)
///
/// Errors: MissingFile with this path, exactly where no folder is there; Limit, where more than 64 folders stand on a
/// path below it (TreeDepth, 65) or there are more than 1,048,576 files (TreeFiles, 1,048,577), the one that is passed
/// first where names are gone through by their bytes and a folder is entered at its name; ReadFault, where the store
/// can't read; want of memory.
pub fn folder_id<S: Store>(
    alloc: Global,
    store: &mut S,
    folder: &NormPath,
    execs: &NormPaths,
) -> Result<TreeId, FolderFault>
    ensures told { IfSome (S.files store.old) (λ all. MatchResult result (λ id. spec.folder_id all folder.now execs.now.items ≡ Ok id) (RefusesFolder folder.now (spec.folder_id all folder.now execs.now.items))) }
    ensures fault { IfErr result (ReadFaultRose (S.read_faults store.old) (S.read_faults store.new)) }
    ensures files { S.files store.new ≡ S.files store.old }
    ensures later { S.read_faults store.old ≤ S.read_faults store.new }
    ensures other { S.write_faults store.new ≡ S.write_faults store.old }
{
    let execs = texts_of(alloc, execs)?;
    match names_in(alloc, store, folder) {
        Ok(Some(names)) => hashed(alloc, store, &execs, folder, names.items()),
        Ok(None) => Err(FolderFault::MissingFile(folder.copy(alloc)?)),
        Err(why) => Err(unread(why)),
    }
}

/// The paths as texts, to be looked up.
fn texts_of(alloc: Global, paths: &NormPaths) -> Result<BTreeSet<String>, AllocError>
    ensures { IfOk result (λ texts. (name : List ℕ) → contains_text texts name ≡ list_any (λ path. bytes_eq (path_text path) name) paths.now.items) }
{
    let mut texts = BTreeSet::new(alloc);
    for path in paths.items() {
        texts.insert(String::from_str(alloc, path.as_str())?)?;
    }
    Ok(texts)
}

/// The id of the tree of a folder with these names.
fn hashed<S: Store>(
    alloc: Global,
    store: &mut S,
    execs: &BTreeSet<String>,
    folder: &NormPath,
    names: &[Name],
) -> Result<TreeId, FolderFault>
    ensures told { IfSome (S.files store.old) (λ all. Hashes (passed 0 (flat_map (seen_by 0 all folder.now) names.now)) (flat_map (added_by (can_run execs.now) all folder.now) names.now) result) }
    ensures fault { IfErr result (ReadFaultRose (S.read_faults store.old) (S.read_faults store.new)) }
    ensures files { S.files store.new ≡ S.files store.old }
    ensures later { S.read_faults store.old ≤ S.read_faults store.new }
    ensures other { S.write_faults store.new ≡ S.write_faults store.old }
{
    match entries_in(alloc, store, execs, folder, names, 0, 0) {
        Ok(found) => Ok(id_of(alloc, found.entries.as_slice())?),
        Err(fault) => Err(fault),
    }
}

/// The entries of the tree of a folder with these names, which has `depth` folders on its path, where so many files
/// were met before.
#[cycle(walk)]
fn entries_in<S: Store>(
    alloc: Global,
    store: &mut S,
    execs: &BTreeSet<String>,
    folder: &NormPath,
    names: &[Name],
    depth: u32,
    files: u32,
) -> Result<Found, FolderFault>
    ensures told { IfSome (S.files store.old) (λ all. Walks (passed files (flat_map (seen_by depth all folder.now) names.now)) (flat_map (added_by (can_run execs.now) all folder.now) names.now) result) }
    ensures fault { IfErr result (ReadFaultRose (S.read_faults store.old) (S.read_faults store.new)) }
    ensures files { S.files store.new ≡ S.files store.old }
    ensures later { S.read_faults store.old ≤ S.read_faults store.new }
    ensures other { S.write_faults store.new ≡ S.write_faults store.old }
{
    let mut found = Found {
        entries: Vec::new(alloc),
        files,
    };
    for name in names {
        match at_name(alloc, store, execs, folder, name, depth, &mut found) {
            Ok(()) => {}
            Err(fault) => return Err(fault),
        }
    }
    Ok(found)
}

/// Adds what stands under a name in a folder.
#[cycle(walk)]
fn at_name<S: Store>(
    alloc: Global,
    store: &mut S,
    execs: &BTreeSet<String>,
    folder: &NormPath,
    name: &Name,
    depth: u32,
    found: &mut Found,
) -> Result<(), FolderFault>
    ensures told { IfSome (S.files store.old) (λ all. Adds (passed found.old.files (seen_by depth all folder.now name.now)) (added_by (can_run execs.now) all folder.now name.now) found.old found.new result) }
    ensures fault { IfErr result (ReadFaultRose (S.read_faults store.old) (S.read_faults store.new)) }
    ensures files { S.files store.new ≡ S.files store.old }
    ensures later { S.read_faults store.old ≤ S.read_faults store.new }
    ensures other { S.write_faults store.new ≡ S.write_faults store.old }
{
    if !is_plain(name.as_str()) {
        return Ok(());
    }
    let path = folder.child(alloc, name.as_str())?;
    match file_at(alloc, store, &path) {
        Ok(Some(bytes)) => add_file(alloc, execs, &path, name, bytes.items(), found),
        Ok(None) => at_folder(alloc, store, execs, &path, name, depth, found),
        Err(why) => Err(unread(why)),
    }
}

/// Adds a file.
fn add_file(
    alloc: Global,
    execs: &BTreeSet<String>,
    path: &NormPath,
    name: &Name,
    bytes: &[u8],
    found: &mut Found,
) -> Result<(), FolderFault>
    ensures told { Adds (passed found.old.files (a_file ∷ [])) (spec.file_entry name.now (can_run execs.now path.now) bytes.now ∷ []) found.old found.new result }
    ensures fault { (before now : ℕ) → IfErr result (ReadFaultRose before now) }
{
    if found.files >= MAX_FILES {
        return Err(FolderFault::Limit(LimitKind::TreeFiles, 1_048_577));
    }
    let mode = if execs.contains(path.as_str()) {
        Mode::Exec
    } else {
        Mode::File
    };
    add_entry(alloc, name, mode, blob_id(bytes), found)?;
    found.files += 1;
    Ok(())
}

/// Adds a folder, where one is there.
#[cycle(walk)]
fn at_folder<S: Store>(
    alloc: Global,
    store: &mut S,
    execs: &BTreeSet<String>,
    path: &NormPath,
    name: &Name,
    depth: u32,
    found: &mut Found,
) -> Result<(), FolderFault>
    requires no_file { IfSome (S.files store.old) (λ all. file_bytes (holds path.now all) ≡ None) }
    requires plain { is_plain name.now ≡ true }
    ensures told { IfSome (S.files store.old) (λ all. Adds (passed found.old.files (seen_at depth name.now (at path.now all))) (added_at (can_run execs.now) path.now name.now (at path.now all)) found.old found.new result) }
    ensures fault { IfErr result (ReadFaultRose (S.read_faults store.old) (S.read_faults store.new)) }
    ensures files { S.files store.new ≡ S.files store.old }
    ensures later { S.read_faults store.old ≤ S.read_faults store.new }
    ensures other { S.write_faults store.new ≡ S.write_faults store.old }
{
    if name.as_str() == ".git" {
        return Ok(());
    }
    match names_in(alloc, store, path) {
        Ok(Some(names)) => {
            match enter(alloc, store, execs, path, names.items(), depth, found.files) {
                Ok(inner) => add_folder(alloc, name, inner, found),
                Err(fault) => Err(fault),
            }
        }
        Ok(None) => Ok(()),
        Err(why) => Err(unread(why)),
    }
}

/// What is below a folder that is entered at its name, with `depth` folders on the path before it.
#[cycle(walk)]
fn enter<S: Store>(
    alloc: Global,
    store: &mut S,
    execs: &BTreeSet<String>,
    path: &NormPath,
    names: &[Name],
    depth: u32,
    files: u32,
) -> Result<Found, FolderFault>
    ensures told { IfSome (S.files store.old) (λ all. Walks (passed files (a_folder (depth + 1) ∷ flat_map (seen_by (depth + 1) all path.now) names.now)) (flat_map (added_by (can_run execs.now) all path.now) names.now) result) }
    ensures fault { IfErr result (ReadFaultRose (S.read_faults store.old) (S.read_faults store.new)) }
    ensures files { S.files store.new ≡ S.files store.old }
    ensures later { S.read_faults store.old ≤ S.read_faults store.new }
    ensures other { S.write_faults store.new ≡ S.write_faults store.old }
{
    if depth >= MAX_DEPTH {
        return Err(FolderFault::Limit(LimitKind::TreeDepth, 65));
    }
    entries_in(alloc, store, execs, path, names, depth + 1, files)
}

/// Adds a folder with what was found in it, where that has entries.
fn add_folder(
    alloc: Global,
    name: &Name,
    inner: Found,
    found: &mut Found,
) -> Result<(), FolderFault>
    ensures told { AddsFolder name.now inner found.old found.new result }
    ensures fault { (before now : ℕ) → IfErr result (ReadFaultRose before now) }
{
    if !inner.entries.is_empty() {
        let id = id_of(alloc, inner.entries.as_slice())?;
        add_entry(alloc, name, Mode::Folder, id, found)?;
    }
    found.files = inner.files;
    Ok(())
}

fn add_entry(
    alloc: Global,
    name: &Name,
    mode: Mode,
    id: TreeId,
    found: &mut Found,
) -> Result<(), AllocError>
    ensures entries { OnOk result (found.new.entries.items ≡ found.old.entries.items ++ record { name = name.now; mode = mode; id = id } ∷ []) }
    ensures files { found.new.files ≡ found.old.files }
{
    let name = name.copy(alloc)?;
    found.entries.push(TreeEntry { name, mode, id })?;
    Ok(())
}

/// Whether a name can stand in a path.
fn is_plain(name: &str) -> bool
    ensures { result ≡ is_plain name.now }
{
    !(name.is_empty() || (name == "." || name == "..")) && holds_no_slash(name.as_bytes())
}

fn holds_no_slash(bytes: &[u8]) -> bool
    ensures { result ≡ holds_no_slash bytes.now }
{
    bytes.iter().all(|b| *b != b'/')
}
