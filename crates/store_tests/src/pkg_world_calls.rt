//! Lists, names, paths, and the stores and sinks in memory.
ghost use Rattle.std.specs.Prelude.{◌≡◌, ◌∷◌, [], IfOk};

use crate::files::{File, at, filled};
use crate::store_calls::{Row, first_wrong, read};
use pkg_world::{
    Duplicate, Listed, MemSink, MemStore, Name, Named, NormPath, PathFault, PutFail, Sink, Store,
    StoreCall, SureSink, SureStore, Text, Unread, file_at, is_file, is_folder, names_in,
};
use std::alloc::{AllocError, Global};
use std::test::Fail;

#[test]
fn a_list_changes_as_its_calls_say(rt: HostRuntime) -> Result<(), Fail> {
    let alloc = rt.alloc();
    let mut list = Listed::make(alloc);
    list.push(1u32)?;
    list.push(2u32)?;
    list.reserve(1)?;
    list.push_spare(3u32);
    list.set(0, 4u32);
    list.remove(1);
    assert_eq!(rt; list.items(), [4u32, 3].as_slice());
    let other = list.copy(alloc)?;
    assert_eq!(rt; other.items(), [4u32, 3].as_slice());
    Ok(())
}

#[test]
fn a_named_list_is_copied(rt: HostRuntime) -> Result<(), Fail> {
    let alloc = rt.alloc();
    let mut pairs = Listed::make(alloc);
    pairs.push((Name::of(alloc, "A")?, 1u32))?;
    let named = Named::of(pairs);
    let other = named.copy(alloc)?;
    for (name, value) in other.items() {
        assert_eq!(rt; name.as_str(), "A");
        assert_eq!(rt; *value, 1);
    }
    assert_eq!(rt; other.items().len(), 1);
    Ok(())
}

#[test]
fn names_texts_and_paths_are_copied(rt: HostRuntime) -> Result<(), Fail> {
    let alloc = rt.alloc();
    assert_eq!(rt; Name::of(alloc, "App")?.copy(alloc)?.as_str(), "App");
    assert_eq!(rt; Text::of(alloc, "no")?.copy(alloc)?.as_str(), "no");
    let path = NormPath::root(alloc).child(alloc, "p")?;
    assert_eq!(rt; path.copy(alloc)?.as_str(), "/p");
    assert_eq!(rt; path.folder(alloc)?.as_str(), "/");
    Ok(())
}

/// Texts, and the paths that they mean from the folder `/p`.
const JOINED: [(&str, &str); 6] = [
    ("../lib", "/lib"),
    ("../../lib", "above the root"),
    ("/a//./b/", "/a/b"),
    ("", "/p"),
    ("a/../..", "/"),
    ("...", "/p/..."),
];

fn joined(alloc: Global, base: &NormPath, text: &str) -> Result<String, AllocError> {
    match NormPath::join(alloc, base, text) {
        Ok(path) => String::from_str(alloc, path.as_str()),
        Err(PathFault::Escapes) => String::from_str(alloc, "above the root"),
        Err(PathFault::Memory) => Err(AllocError),
    }
}

#[test]
fn a_text_is_joined_to_a_base(rt: HostRuntime) -> Result<(), Fail> {
    let base = at(rt.alloc(), "p")?;
    for (text, want) in JOINED {
        assert_eq!(rt; joined(rt.alloc(), &base, text)?.as_str(), want, "{text}");
    }
    Ok(())
}

const SMALL_TREE: [Row; 18] = [
    (StoreCall::Replace, "/a/b/c", "done"),
    (StoreCall::Kind, "/a", "folder"),
    (StoreCall::Kind, "/a/b/c", "file"),
    (StoreCall::Kind, "/a/x", "missing"),
    (StoreCall::Kind, "/a/b/c/d", "missing"),
    (StoreCall::Read, "/a/b/c", "new"),
    (StoreCall::Read, "/a/b", "folder"),
    (StoreCall::Read, "/a/x", "missing"),
    (StoreCall::Read, "/a/b/c/d", "missing"),
    (StoreCall::Replace, "/a/b", "blocked"),
    (StoreCall::Replace, "/a/b/c/d", "blocked"),
    (StoreCall::Replace, "/", "blocked"),
    (StoreCall::Replace, "/a/é", "done"),
    (StoreCall::Replace, "/a/Z", "done"),
    (StoreCall::List, "/a", "Z b é "),
    (StoreCall::List, "/a/Z", "file"),
    (StoreCall::List, "/x", "missing"),
    (StoreCall::List, "/", "a "),
];

/// The second read, kind and list fail, and the third replacement.
const FAILING: [Row; 10] = [
    (StoreCall::Replace, "/a", "done"),
    (StoreCall::Read, "/a", "new"),
    (StoreCall::Read, "/a", "failed"),
    (StoreCall::Read, "/a", "new"),
    (StoreCall::Kind, "/a", "file"),
    (StoreCall::Kind, "/a", "failed"),
    (StoreCall::List, "/", "a "),
    (StoreCall::List, "/", "failed"),
    (StoreCall::Replace, "/a/b", "blocked"),
    (StoreCall::Replace, "/b", "failed"),
];

fn first_wrong_of_sure(alloc: Global) -> Result<Option<Row>, PathFault> {
    let mut store = SureStore::make(alloc)?;
    first_wrong(alloc, &mut store, SMALL_TREE.as_slice())
}

fn first_wrong_of_mem(alloc: Global) -> Result<Option<Row>, PathFault> {
    let mut store = MemStore::make(alloc)?;
    first_wrong(alloc, &mut store, SMALL_TREE.as_slice())
}

#[test]
fn both_stores_tell_a_small_tree(rt: HostRuntime) -> Result<(), Fail> {
    assert_eq!(rt; first_wrong_of_sure(rt.alloc())?, None);
    assert_eq!(rt; first_wrong_of_mem(rt.alloc())?, None);
    Ok(())
}

/// A store where the calls fail that `FAILING` is about.
fn failing(alloc: Global) -> Result<MemStore, AllocError> {
    let mut store = MemStore::make(alloc)?;
    for (call, nth) in [
        (StoreCall::Read, 2),
        (StoreCall::Kind, 2),
        (StoreCall::List, 2),
        (StoreCall::Replace, 3),
    ] {
        store.fail_at(alloc, call, nth)?;
    }
    Ok(store)
}

fn first_wrong_of_failing(alloc: Global) -> Result<Option<Row>, PathFault> {
    let mut store = failing(alloc)?;
    first_wrong(alloc, &mut store, FAILING.as_slice())
}

#[test]
fn listed_calls_alone_fail(rt: HostRuntime) -> Result<(), Fail> {
    assert_eq!(rt; first_wrong_of_failing(rt.alloc())?, None);
    Ok(())
}

/// The path `/a`.
fn top_level(alloc: Global) -> Result<NormPath, PathFault>
    ensures { IfOk result (λ path. path ≡ (97 ∷ []) ∷ []) }
{
    NormPath::join(alloc, &NormPath::root(alloc), "/a")
}

/// What is read where a sure store got the root folder and then a file.
fn sure_text(alloc: Global, path: &NormPath) -> Result<String, AllocError>
    requires { path.now ≡ (97 ∷ []) ∷ [] }
{
    let mut store = SureStore::make(alloc)?;
    store.put_folder(alloc, &NormPath::root(alloc))?;
    store.put_file(alloc, path, b"one")?;
    read(alloc, &mut store, path)
}

/// What is read where a store got a folder.
fn folder_text(alloc: Global, path: &NormPath) -> Result<String, AllocError>
    requires { path.now ≡ (97 ∷ []) ∷ [] }
{
    let mut store = MemStore::make(alloc)?;
    store.put_folder(alloc, path)?;
    read(alloc, &mut store, path)
}

/// What is read where a store got a file.
fn file_text(alloc: Global, path: &NormPath) -> Result<String, AllocError>
    requires { path.now ≡ (97 ∷ []) ∷ [] }
{
    let mut store = MemStore::make(alloc)?;
    store.put_file(alloc, path, b"two")?;
    read(alloc, &mut store, path)
}

#[test]
fn what_is_put_is_read_back(rt: HostRuntime) -> Result<(), Fail> {
    let path = top_level(rt.alloc())?;
    assert_eq!(rt; sure_text(rt.alloc(), &path)?.as_str(), "one");
    assert_eq!(rt; folder_text(rt.alloc(), &path)?.as_str(), "folder");
    assert_eq!(rt; file_text(rt.alloc(), &path)?.as_str(), "two");
    Ok(())
}

/// The files that are asked for.
const ASKED: [File; 2] = [("/a/b", "text"), ("/a/Z", "")];

/// How many bytes the file at a path has, how many names the folder there, and which of the two stands there.
fn asked(alloc: Global, text: &str) -> Result<(Option<usize>, Option<usize>, [bool; 2]), Fail> {
    let path = at(alloc, text)?;
    let mut store = filled(alloc, ASKED.as_slice())?;
    Ok(stands(alloc, &mut store, &path)?)
}

fn stands(
    alloc: Global,
    store: &mut MemStore,
    path: &NormPath,
) -> Result<(Option<usize>, Option<usize>, [bool; 2]), Unread> {
    let bytes = file_at(alloc, store, path)?;
    let names = names_in(alloc, store, path)?;
    let file = is_file(alloc, store, path)?;
    let folder = is_folder(alloc, store, path)?;
    Ok((
        bytes.map(|bytes| bytes.items().len()),
        names.map(|names| names.items().len()),
        [file, folder],
    ))
}

#[test]
fn what_stands_at_a_path_is_found(rt: HostRuntime) -> Result<(), Fail> {
    for (text, want) in [
        ("/a", (None, Some(2), [false, true])),
        ("/a/b", (Some(4), None, [true, false])),
        ("/b", (None, None, [false, false])),
    ] {
        assert_eq!(rt; asked(rt.alloc(), text)?, want, "{text}");
    }
    Ok(())
}

#[test]
fn a_failing_put_keeps_three_bytes(rt: HostRuntime) -> Result<(), Fail> {
    let alloc = rt.alloc();
    let mut sure = SureSink::make(alloc)?;
    let mut mem = MemSink::make(alloc, Some(PutFail { nth: 2, keep: 3 }))?;
    for piece in ["one ", "two, ", "three"] {
        let _ = sure.put(alloc, piece.as_bytes());
        let _ = mem.put(alloc, piece.as_bytes());
    }
    assert_eq!(rt; sure.text(), b"one two, three".as_slice());
    assert_eq!(rt; mem.text(), b"one twothree".as_slice());
    Ok(())
}

/// Puts as many files into one folder and reads each once; how many gave their bytes.
fn read_all(alloc: Global, store: &mut SureStore, count: u32) -> Result<u32, PathFault> {
    for number in 0..count {
        let path = at(alloc, format!(in alloc; "/files/{number}")?.as_str())?;
        let _ = store.replace(alloc, &path, b"new");
    }
    let mut found = 0u32;
    for number in 0..count {
        let path = at(alloc, format!(in alloc; "/files/{number}")?.as_str())?;
        if read(alloc, store, &path)?.as_str() == "new" {
            found = found.saturating_add(1);
        }
    }
    Ok(found)
}

fn read_of_twenty_thousand(alloc: Global) -> Result<u32, PathFault> {
    let mut store = SureStore::make(alloc)?;
    read_all(alloc, &mut store, 20_000)
}

#[test]
fn twenty_thousand_files_are_read(rt: HostRuntime) -> Result<(), Fail> {
    assert_eq!(rt; read_of_twenty_thousand(rt.alloc())?, 20_000);
    Ok(())
}
