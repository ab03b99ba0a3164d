//! Checksums, slugs, Git's ids of files and folders, and installed trees, with answers from Git and from the standards.
ghost use Rattle.std.specs.Prelude.{◌≡◌, ◌∷◌, [], true, IfOk};
ghost use Rattle.std.specs.List.{list_all};
ghost use Rattle.depot_hash.specs.Trees.{is_name};

use depot_hash::{
    FolderFault, Mode, TreeEntry, TreeFault, blob_id, checksum_goes_on, crc32c, folder_id,
    installed, one_text_one_path, slug, slug_text, slug4, tree_id,
};
use pkg_world::{MemStore, Name, NormPath, PathFault, Store, StoreCall, TreeId};
use std::alloc::{AllocError, Global};
use std::process::Abort;
use std::test::Fail;
use store_tests::files::{File, at, fill, filled, paths};
use uuid::Uuid;

/// The tree of the folder `/a` below, with `bin/a` as a file that can be run.
const RUNS: &str = "a8af9fbad502d06b149244f056eb07af2238299b";

const PACKAGE: [File; 8] = [
    ("/a/bin/a", "#!/bin/sh\n"),
    ("/a/src/A.jl", "module A end\n"),
    ("/a/src/deep/x.jl", "x = 1\n"),
    ("/a/Project.toml", "name = \"A\"\n"),
    ("/a/.git/config", "[core]\n"),
    ("/a/src/.git/HEAD", "ref: refs/heads/main\n"),
    ("/h/.gitfile", "x"),
    ("/h/sub/.hidden/k", "k"),
];

/// A folder, the file that can be run, and the id.
const FOLDERS: [(&str, &str, &str); 7] = [
    ("/a", "/a/bin/a", RUNS),
    ("/a", "/bin/a", "d08434f4b26fdaaaffa2b10df3bb96b0fed94c08"),
    ("/a/.git/..", "/a/bin/../bin/a", RUNS),
    ("/e", "/a/bin/a", "4b825dc642cb6eb9a060e54bf8d69288fbee4904"),
    ("/b", "/a/bin/a", "missing /b"),
    ("/a/bin/a", "/a/bin/a", "missing /a/bin/a"),
    ("/h", "/", "6556019c88dcd249b1ea548cca9aa2c8b9efb485"),
];

/// The path of a folder of the root.
fn empty(alloc: Global) -> Result<NormPath, PathFault>
    ensures { IfOk result (λ path. path ≡ (101 ∷ []) ∷ []) }
{
    NormPath::join(alloc, &NormPath::root(alloc), "/e")
}

fn shown(alloc: Global, answer: Result<TreeId, FolderFault>) -> Result<String, AllocError> {
    match answer {
        Ok(id) => String::from_str(alloc, id.text(alloc)?.as_str()),
        Err(FolderFault::ReadFault(path)) => format!(in alloc; "failed {path}"),
        Err(FolderFault::MissingFile(path)) => format!(in alloc; "missing {path}"),
        Err(FolderFault::Limit(kind, count)) => format!(in alloc; "{kind:?} {count}"),
        Err(FolderFault::Memory) => Err(AllocError),
    }
}

fn place(
    alloc: Global,
    answer: Result<Option<NormPath>, FolderFault>,
) -> Result<String, AllocError> {
    match answer {
        Ok(Some(path)) => String::from_str(alloc, path.as_str()),
        Ok(None) => String::from_str(alloc, "none"),
        Err(fault) => shown(alloc, Err(fault)),
    }
}

#[test]
fn checksums_are_those_of_the_standard(rt: HostRuntime) {
    assert_eq!(rt; crc32c(0, b"123456789"), 0xe306_9283);
    assert_eq!(rt; crc32c(crc32c(0, b"1234"), b"56789"), 0xe306_9283);
    assert_eq!(rt; crc32c(0, &[0; 32]), 0x8a91_36aa);
    checksum_goes_on();
    one_text_one_path();
}

#[test]
fn slugs_have_five_or_four_letters(rt: HostRuntime) {
    let tree = TreeId::read(RUNS).unwrap_or(TreeId::of([0; 20]));
    let uuid = Uuid::from_u128(0x6c8d_3b52_0f59_4f1e_9a3c_5f0e_7a3b_1c02);
    assert_eq!(rt; slug_text(0xe306_9283), *b"tJkvJ");
    assert_eq!(rt; slug(&uuid, &tree), *b"hNEXG");
    assert_eq!(rt; slug4(&uuid, &tree), *b"hNEX");
}

#[test]
fn names_of_entries_have_no_mark(rt: HostRuntime) -> Result<(), Fail> {
    for (text, want) in [
        ("a", true),
        (".git", true),
        ("", false),
        ("a/b", false),
        ("a\0", false),
    ] {
        let name = Name::of(rt.alloc(), text)?;
        assert_eq!(rt; TreeEntry::is_name(&name), want, "{text}");
    }
    Ok(())
}

fn entry(alloc: Global, text: &str, mode: Mode, id: TreeId) -> Result<TreeEntry, AllocError>
    requires { is_name text.now ≡ true }
    ensures { IfOk result (λ entry. is_name entry.name ≡ true) }
{
    let name = Name::of(alloc, text)?;
    Ok(TreeEntry { name, mode, id })
}

fn answer(alloc: Global, entries: &[TreeEntry]) -> Result<String, AllocError>
    requires { list_all (λ entry. is_name entry.name) entries.now ≡ true }
{
    match tree_id(alloc, entries) {
        Ok(id) => String::from_str(alloc, id.text(alloc)?.as_str()),
        Err(TreeFault::TwoNames(name)) => String::from_str(alloc, name.as_str()),
        Err(TreeFault::Memory) => Err(AllocError),
    }
}

#[test]
fn nothing_has_its_known_ids(rt: HostRuntime) -> Result<(), Fail> {
    let alloc = rt.alloc();
    assert_eq!(rt;
        blob_id(b"").text(alloc)?.as_str(),
        "e69de29bb2d1d6434b8b29ae775ad8c2e48c5391"
    );
    assert_eq!(rt;
        answer(alloc, &[])?.as_str(),
        "4b825dc642cb6eb9a060e54bf8d69288fbee4904"
    );
    Ok(())
}

#[test]
fn entries_stand_in_gits_order(rt: HostRuntime) -> Result<(), Fail> {
    let alloc = rt.alloc();
    let folder = TreeId::read("ff68abe468b4c20b58995e894958777bb0681dce");
    let entries = [
        entry(alloc, "a0", Mode::File, blob_id(b"zero"))?,
        entry(
            alloc,
            "a",
            Mode::Folder,
            folder.unwrap_or(TreeId::of([0; 20])),
        )?,
        entry(alloc, "a.b", Mode::File, blob_id(b"dot"))?,
    ];
    assert_eq!(rt;
        answer(alloc, &entries)?.as_str(),
        "281a4d40f26a0bc48557bad954a7c4011c9fe3c7"
    );
    Ok(())
}

#[test]
fn the_first_name_of_two_entries_is_told(rt: HostRuntime) -> Result<(), Fail> {
    let alloc = rt.alloc();
    let id = blob_id(b"");
    let entries = [
        entry(alloc, "b", Mode::File, id)?,
        entry(alloc, "b", Mode::Folder, id)?,
        entry(alloc, "a", Mode::Folder, id)?,
        entry(alloc, "a", Mode::Exec, id)?,
    ];
    assert_eq!(rt; answer(alloc, &entries)?.as_str(), "a");
    Ok(())
}

/// A store with the files of `PACKAGE`, and the empty folder.
fn package(alloc: Global) -> Result<MemStore, PathFault> {
    let mut store = with_empty(alloc)?;
    fill(alloc, &mut store, PACKAGE.as_slice())?;
    Ok(store)
}

fn with_empty(alloc: Global) -> Result<MemStore, PathFault> {
    let path = empty(alloc)?;
    let mut store = MemStore::make(alloc)?;
    store.put_folder(alloc, &path)?;
    Ok(store)
}

/// What `folder_id` answers at these paths.
fn id_at(
    alloc: Global,
    store: &mut MemStore,
    folder: &str,
    execs: &[&str],
) -> Result<Result<TreeId, FolderFault>, PathFault> {
    let folder = at(alloc, folder)?;
    let execs = paths(alloc, execs)?;
    Ok(folder_id(alloc, store, &folder, &execs))
}

fn have_those_ids(rt: &impl Abort, alloc: Global, store: &mut MemStore) -> Result<(), Fail> {
    for (folder, exec, want) in FOLDERS {
        let got = id_at(alloc, store, folder, &["/x", exec])?;
        assert_eq!(rt; shown(alloc, got)?.as_str(), want, "{folder}");
    }
    Ok(())
}

#[test]
fn folders_have_gits_ids(rt: HostRuntime) -> Result<(), Fail> {
    let mut store = package(rt.alloc())?;
    have_those_ids(&rt, rt.alloc(), &mut store)
}

/// The path of a file below that many folders.
fn deep(alloc: Global, count: usize) -> Result<String, AllocError> {
    let mut text = String::from_str(alloc, "/r")?;
    for _ in 0..count {
        text.push_str("/d")?;
    }
    text.push_str("/f")?;
    Ok(text)
}

/// What `folder_id` answers of `/r` with one file, below that many folders.
fn deep_id(alloc: Global, count: usize) -> Result<Result<TreeId, FolderFault>, PathFault> {
    let path = at(alloc, deep(alloc, count)?.as_str())?;
    let mut store = MemStore::make(alloc)?;
    let _ = store.replace(alloc, &path, b"deep");
    id_at(alloc, &mut store, "/r", &[])
}

#[test]
fn a_path_has_64_folders_below(rt: HostRuntime) -> Result<(), Fail> {
    for (count, want) in [
        (64, "26b18298d7a8147f10228760e3ce87dd9eb3121f"),
        (65, "TreeDepth 65"),
    ] {
        let got = deep_id(rt.alloc(), count)?;
        assert_eq!(rt; shown(rt.alloc(), got)?.as_str(), want);
    }
    Ok(())
}

/// What `installed` answers of the package A.
fn installed_at(
    alloc: Global,
    store: &mut MemStore,
    depots: &[&str],
    uuid: &Uuid,
    tree: &TreeId,
) -> Result<Result<Option<NormPath>, FolderFault>, PathFault> {
    let depots = paths(alloc, depots)?;
    let name = Name::of(alloc, "A")?;
    Ok(installed(alloc, store, &depots, &name, uuid, tree))
}

/// A store with one file, where the first read, the second list and the first kind fail.
fn failing(alloc: Global) -> Result<MemStore, PathFault> {
    let mut store = filled(alloc, [("/a/x", "in a")].as_slice())?;
    for (call, nth) in [
        (StoreCall::Read, 1),
        (StoreCall::List, 2),
        (StoreCall::Kind, 1),
    ] {
        store.fail_at(alloc, call, nth)?;
    }
    Ok(store)
}

fn tell_their_paths(rt: &impl Abort, alloc: Global, store: &mut MemStore) -> Result<(), Fail> {
    for want in [
        "failed /a/x",
        "failed /a",
        "ff68abe468b4c20b58995e894958777bb0681dce",
    ] {
        let got = id_at(alloc, store, "/a", &[])?;
        assert_eq!(rt; shown(alloc, got)?.as_str(), want);
    }
    let got = installed_at(alloc, store, &["/d"], &Uuid::nil(), &TreeId::of([0; 20]))?;
    assert_eq!(rt; place(alloc, got)?.as_str(), "failed /d/packages/A/CgWBk");
    Ok(())
}

#[test]
fn a_call_that_fails_is_told_by_its_path(rt: HostRuntime) -> Result<(), Fail> {
    let mut store = failing(rt.alloc())?;
    tell_their_paths(&rt, rt.alloc(), &mut store)
}

/// Files of the depots `/d` and `/e`, and where the tree is installed.
const DEPOTS: [([File; 2], &str); 6] = [
    (
        [("/e/packages/A/hNEXG/x", ""), ("/d/packages/A/hNEX/x", "")],
        "/e/packages/A/hNEXG",
    ),
    (
        [("/e/packages/A/hNEXG/x", ""), ("/d/packages/A/hNEXG/x", "")],
        "/d/packages/A/hNEXG",
    ),
    (
        [("/e/packages/A/hNEX/x", ""), ("/d/packages/A/hNEX/x", "")],
        "/d/packages/A/hNEX",
    ),
    (
        [("/e/packages/A/hNEX/x", ""), ("/d/packages/A/hNEX", "")],
        "/e/packages/A/hNEX",
    ),
    (
        [("/d/packages/A/hNEXG", ""), ("/e/packages/A/hNEX", "")],
        "none",
    ),
    (
        [("/d/packages/B/hNEXG/x", ""), ("/packages/A/hNEXG/x", "")],
        "none",
    ),
];

/// What `installed` answers of the depots `/d` and `/e` with these files.
fn installed_among(
    alloc: Global,
    files: &[File],
) -> Result<Result<Option<NormPath>, FolderFault>, PathFault> {
    let tree = TreeId::read(RUNS).unwrap_or(TreeId::of([0; 20]));
    let uuid = Uuid::from_u128(0x6c8d_3b52_0f59_4f1e_9a3c_5f0e_7a3b_1c02);
    let mut store = filled(alloc, files)?;
    installed_at(alloc, &mut store, &["/d", "/e"], &uuid, &tree)
}

#[test]
fn a_tree_is_found_in_the_depots(rt: HostRuntime) -> Result<(), Fail> {
    for (files, want) in DEPOTS {
        let got = installed_among(rt.alloc(), files.as_slice())?;
        assert_eq!(rt; place(rt.alloc(), got)?.as_str(), want);
    }
    Ok(())
}
