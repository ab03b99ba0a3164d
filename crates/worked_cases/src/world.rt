//! Stores in memory from the worlds of steps, and the files of a store.
ghost use Rattle.pkg_world.specs.Held.{mem_files, sure_files};
ghost use Rattle.worked_cases.specs.Folders.{HasNoFile};

use crate::case::{Faults, Files, World};
use crate::keys::{Stop, malformed};
use crate::paths::{path_at, root_path};
use pkg_world::{
    ListAnswer, MemStore, Names, NormPath, ReadAnswer, Store, StoreCall, SureStore, WriteAnswer,
};
use std::alloc::{AllocError, Global};
use std::collections::BTreeMap;

/// How many paths of a store are looked at, at most.
const MOST_PATHS: u32 = 1 << 20;

/// The store that holds a world, and fails where it is told to.
pub fn mem_store(alloc: Global, world: &World, faults: &Faults) -> Result<MemStore, Stop> {
    let mut store = mem_folders(alloc, &world.folders)?;
    fill(alloc, &mut store, &world.files)?;
    fail_calls(alloc, &mut store, world.files.len(), &faults.calls)?;
    Ok(store)
}

fn mem_folders(alloc: Global, folders: &Vec<String>) -> Result<MemStore, Stop> {
    let mut store = MemStore::make(alloc)?;
    'folders: for text in folders.iter() {
        let path = root_path(alloc, text.as_str(), text.as_str())?;
        add_mem_folder(alloc, &mut store, &path)?;
    }
    Ok(store)
}

#[tactic(auto, using(crate::proofs::Folders::has_room, crate::proofs::Folders::stays))]
fn add_mem_folder(alloc: Global, store: &mut MemStore, path: &NormPath) -> Result<(), AllocError>
    requires { HasNoFile (mem_files store.old) }
    ensures { HasNoFile (mem_files store.new) }
{
    store.put_folder(alloc, path)
}

/// Makes the calls fail that are to. Those of `replace` are counted behind the ones that filled the store.
fn fail_calls(
    alloc: Global,
    store: &mut MemStore,
    filled: usize,
    calls: &[(StoreCall, u64)],
) -> Result<(), AllocError> {
    for (call, nth) in calls.iter() {
        let before = if *call == StoreCall::Replace {
            filled as u64
        } else {
            0
        };
        store.fail_at(alloc, *call, nth.saturating_add(before))?;
    }
    Ok(())
}

/// The store without failures that holds a world.
pub fn sure_store(alloc: Global, world: &World) -> Result<SureStore, Stop> {
    let mut store = sure_folders(alloc, &world.folders)?;
    fill(alloc, &mut store, &world.files)?;
    Ok(store)
}

fn sure_folders(alloc: Global, folders: &Vec<String>) -> Result<SureStore, Stop> {
    let mut store = SureStore::make(alloc)?;
    'folders: for text in folders.iter() {
        let path = root_path(alloc, text.as_str(), text.as_str())?;
        add_sure_folder(alloc, &mut store, &path)?;
    }
    Ok(store)
}

#[tactic(auto, using(crate::proofs::Folders::has_room, crate::proofs::Folders::stays))]
fn add_sure_folder(alloc: Global, store: &mut SureStore, path: &NormPath) -> Result<(), AllocError>
    requires { HasNoFile (sure_files store.old) }
    ensures { HasNoFile (sure_files store.new) }
{
    store.put_folder(alloc, path)
}

fn fill<S: Store>(alloc: Global, store: &mut S, files: &Files) -> Result<(), Stop> {
    for (path, bytes) in files.iter() {
        put(alloc, store, path.as_str(), bytes.as_slice())?;
    }
    Ok(())
}

/// Puts a file where no other file or folder of the world stands in its way.
fn put<S: Store>(alloc: Global, store: &mut S, path: &str, bytes: &[u8]) -> Result<(), Stop> {
    let place = root_path(alloc, path, path)?;
    match store.replace(alloc, &place, bytes) {
        WriteAnswer::Done => Ok(()),
        WriteAnswer::Memory => Err(Stop::Memory),
        WriteAnswer::Blocked => Err(malformed(alloc, path, "is blocked by another path")),
        WriteAnswer::Failed => Err(malformed(alloc, path, "was refused by the store")),
    }
}

/// All files of a store. A call that fails is made again.
pub fn files_in<S: Store>(alloc: Global, store: &mut S) -> Result<Files, Stop> {
    let mut found = BTreeMap::new(alloc);
    let mut pending = Vec::new(alloc);
    pending.push(NormPath::root(alloc))?;
    for _ in 0..MOST_PATHS {
        let Some(path) = pending.pop() else {
            break;
        };
        visit(alloc, store, path, &mut found, &mut pending)?;
    }
    Ok(found)
}

/// Takes the file at a path into the found ones, or the paths in a folder into the pending ones.
fn visit<S: Store>(
    alloc: Global,
    store: &mut S,
    path: NormPath,
    found: &mut Files,
    pending: &mut Vec<NormPath>,
) -> Result<(), Stop> {
    match store.read(alloc, &path) {
        ReadAnswer::Bytes(bytes) => {
            let bytes = Vec::from_slice(alloc, bytes.items())?;
            found.insert(String::from_str(alloc, path.as_str())?, bytes)?;
            Ok(())
        }
        ReadAnswer::Folder => visit_folder(alloc, store, path, pending),
        ReadAnswer::Failed => Ok(pending.push(path)?),
        ReadAnswer::Missing => Ok(()),
        ReadAnswer::Memory => Err(Stop::Memory),
    }
}

fn visit_folder<S: Store>(
    alloc: Global,
    store: &mut S,
    path: NormPath,
    pending: &mut Vec<NormPath>,
) -> Result<(), Stop> {
    match store.list(alloc, &path) {
        ListAnswer::Names(names) => push_all(alloc, &path, &names, pending),
        ListAnswer::Failed => Ok(pending.push(path)?),
        ListAnswer::Missing | ListAnswer::File => Ok(()),
        ListAnswer::Memory => Err(Stop::Memory),
    }
}

fn push_all(
    alloc: Global,
    folder: &NormPath,
    names: &Names,
    pending: &mut Vec<NormPath>,
) -> Result<(), Stop> {
    for name in names.items().iter() {
        pending.push(path_at(alloc, name.as_str(), folder, name.as_str())?)?;
    }
    Ok(())
}
