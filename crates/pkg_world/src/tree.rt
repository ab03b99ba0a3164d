//! The tree of files that the stores in memory hold: each folder a map from names, so that a look-up goes
//! down the parts of a path and passes by all else.
ghost use Rattle.std.specs.Prelude.{◌≡◌, ℕ, [], Some, None, IsSome, map, string_bytes, IfOk, OnErr, OnOk};
ghost use Rattle.std.specs.List.Sorted.{IsStrictlySortedBy};
ghost use Rattle.std.specs.Ordering.{nat_cmp};
ghost use Rattle.std.specs.Cmp.Lexicographic.{slice_cmp};
ghost use Rattle.pkg_world.specs.Tree.{a_file, some_folder, at, below, find, holds, insert, names, placed, settled, with_leaf};
ghost use Rattle.pkg_world.specs.Outside.{ReadGives, ReadFaultRose, KindGives, KindFaultRose, ListGives, ListFaultRose, ReplaceGives, WriteFaultRose};
ghost use Rattle.pkg_world.specs.Stored.{node_view, files_view, leaf_view, FoundGives, PlacedGives, entered, added};

use crate::list::{Bytes, Listed, Names};
use crate::path::NormPath;
use crate::store::{KindAnswer, ListAnswer, ReadAnswer, WriteAnswer};
use crate::text::Name;
use std::alloc::{AllocError, Global};
use std::collections::BTreeMap;
use std::mem;

/// What a folder holds under a name.
#[derive(Drop)]
pub(crate) enum Node {
    File(Vec<u8>),
    Folder(Entries),
}

/// What a folder holds under each name.
pub(crate) type Entries = BTreeMap<String, Node>;

/// What is to stand at a path.
#[derive(Drop)]
pub(crate) enum Leaf {
    File(Vec<u8>),
    Folder,
}

/// How a leaf was placed.
#[derive(Clone, Copy)]
pub(crate) enum Placed {
    Done,
    /// A file stands in the way, or a leaf of the other kind.
    Blocked,
    Memory,
}

/// What stands at a path.
enum Found<'a> {
    File(&'a Vec<u8>),
    Folder(&'a Entries),
    Missing,
}

/// What stands at a path below a folder.
#[cycle(look)]
fn look<'a>(entries: &'a Entries, parts: &[String]) -> Found<'a>
    ensures { FoundGives (at (map string_bytes parts.now) (files_view entries.now)) result }
{
    let [part, rest @ ..] = parts else {
        return Found::Folder(entries);
    };
    match entries.get(part.as_str()) {
        Some(node) => look_in(node, rest),
        None => Found::Missing,
    }
}

/// What stands at a path below a node.
#[cycle(look)]
fn look_in<'a>(node: &'a Node, parts: &[String]) -> Found<'a>
    ensures { FoundGives (below (map string_bytes parts.now) (node_view node.now)) result }
{
    match node {
        Node::File(bytes) => {
            if parts.is_empty() {
                Found::File(bytes)
            } else {
                Found::Missing
            }
        }
        Node::Folder(inner) => look(inner, parts),
    }
}

/// The bytes of a file. It never fails.
pub(crate) fn read_file(alloc: Global, root: &Entries, path: &NormPath) -> ReadAnswer
    ensures answer { ReadGives (holds path.now (files_view root.now)) result }
    ensures sure { (before now : ℕ) → ReadFaultRose result before now }
{
    match look(root, path.parts()) {
        Found::File(bytes) => match copy_bytes(alloc, bytes) {
            Ok(made) => ReadAnswer::Bytes(made),
            Err(_) => ReadAnswer::Memory,
        },
        Found::Folder(_) => ReadAnswer::Folder,
        Found::Missing => ReadAnswer::Missing,
    }
}

fn copy_bytes(alloc: Global, bytes: &[u8]) -> Result<Bytes, AllocError>
    ensures { IfOk result (λ made. made.items ≡ bytes.now) }
{
    let mut made = Listed::make(alloc);
    for byte in bytes {
        made.push(*byte)?;
    }
    Ok(made)
}

/// What stands at a path. It never fails.
pub(crate) fn kind_of(root: &Entries, path: &NormPath) -> KindAnswer
    ensures answer { KindGives (holds path.now (files_view root.now)) result }
    ensures sure { (before now : ℕ) → KindFaultRose result before now }
{
    match look(root, path.parts()) {
        Found::File(_) => KindAnswer::File,
        Found::Folder(_) => KindAnswer::Folder,
        Found::Missing => KindAnswer::Missing,
    }
}

/// The names in a folder. It never fails.
pub(crate) fn list_folder(alloc: Global, root: &Entries, path: &NormPath) -> ListAnswer
    ensures answer { ListGives (at path.now (files_view root.now)) result }
    ensures sure { (before now : ℕ) → ListFaultRose result before now }
{
    match look(root, path.parts()) {
        Found::File(_) => ListAnswer::File,
        Found::Folder(entries) => match names_in(alloc, entries) {
            Ok(names) => ListAnswer::Names(names),
            Err(_) => ListAnswer::Memory,
        },
        Found::Missing => ListAnswer::Missing,
    }
}

fn names_in(alloc: Global, entries: &Entries) -> Result<Names, AllocError>
    ensures names { IfOk result (λ found. names (files_view entries.now) ≡ found.items) }
    ensures sorted { IfOk result (λ found. IsStrictlySortedBy (slice_cmp nat_cmp) found.items) }
{
    let mut found = Listed::make(alloc);
    for name in entries.keys() {
        found.push(Name::of(alloc, name.as_str())?)?;
    }
    Ok(found)
}

/// Places a leaf at a path and adds missing folders. At every answer but Done all is as before.
pub(crate) fn place(alloc: Global, root: &mut Entries, parts: &[String], leaf: Leaf) -> Placed
    ensures { PlacedGives (with_leaf (leaf_view leaf) (map string_bytes parts.now) (files_view root.old)) (files_view root.old) (files_view root.new) result }
{
    let [part, rest @ ..] = parts else {
        return match leaf {
            Leaf::File(_) => Placed::Blocked,
            Leaf::Folder => Placed::Done,
        };
    };
    enter(alloc, root, part, rest, leaf)
}

/// Places a leaf at a path below a name in a folder.
#[cycle(enter)]
fn enter(
    alloc: Global,
    entries: &mut Entries,
    name: &String,
    parts: &[String],
    leaf: Leaf,
) -> Placed
    ensures { PlacedGives (entered (leaf_view leaf) (string_bytes name.now) (map string_bytes parts.now) (files_view entries.old)) (files_view entries.old) (files_view entries.new) result }
{
    match entries.get_mut(name.as_str()) {
        Some(slot) => {
            let (node, placed) = change(alloc, take(alloc, slot), parts, leaf);
            *slot = node;
            placed
        }
        None => add(alloc, entries, name, parts, leaf),
    }
}

/// A node with a leaf placed at a path below it. At every answer but Done it is as before.
#[cycle(enter)]
fn change(alloc: Global, node: Node, parts: &[String], leaf: Leaf) -> (Node, Placed)
    ensures { PlacedGives (placed (leaf_view leaf) (map string_bytes parts.now) (Some (node_view node))) (node_view node) (node_view result.0) result.1 }
{
    let [part, rest @ ..] = parts else {
        return settle(node, leaf);
    };
    match node {
        Node::File(bytes) => (Node::File(bytes), Placed::Blocked),
        Node::Folder(mut inner) => {
            let placed = enter(alloc, &mut inner, part, rest, leaf);
            (Node::Folder(inner), placed)
        }
    }
}

/// A file takes the place of a file, and a folder may be there.
fn settle(node: Node, leaf: Leaf) -> (Node, Placed)
    ensures { PlacedGives (placed (leaf_view leaf) [] (Some (node_view node))) (node_view node) (node_view result.0) result.1 }
{
    match (node, leaf) {
        (Node::File(_), Leaf::File(bytes)) => (Node::File(bytes), Placed::Done),
        (Node::Folder(inner), Leaf::Folder) => (Node::Folder(inner), Placed::Done),
        (other, _) => (other, Placed::Blocked),
    }
}

/// Adds a name that is not there yet, with all that stands below it.
fn add(alloc: Global, entries: &mut Entries, name: &String, parts: &[String], leaf: Leaf) -> Placed
    requires { find (string_bytes name.now) (files_view entries.old) ≡ None }
    ensures { PlacedGives (entered (leaf_view leaf) (string_bytes name.now) (map string_bytes parts.now) (files_view entries.old)) (files_view entries.old) (files_view entries.new) result }
{
    match add_chain(alloc, entries, name, parts, leaf) {
        Ok(()) => Placed::Done,
        Err(_) => Placed::Memory,
    }
}

/// Builds the whole chain before the one insert, so that want of memory leaves the folder.
fn add_chain(
    alloc: Global,
    entries: &mut Entries,
    name: &String,
    parts: &[String],
    leaf: Leaf,
) -> Result<(), AllocError>
    ensures ok { OnOk result (added (leaf_view leaf) (string_bytes name.now) (map string_bytes parts.now) (files_view entries.old) ≡ Some (files_view entries.new)) }
    ensures err { OnErr result (files_view entries.new ≡ files_view entries.old) }
{
    let node = chain(alloc, parts, leaf)?;
    entries.insert(name.clone()?, node)?;
    Ok(())
}

/// A leaf below new folders.
fn chain(alloc: Global, parts: &[String], leaf: Leaf) -> Result<Node, AllocError>
    ensures { IfOk result (λ node. placed (leaf_view leaf) (map string_bytes parts.now) None ≡ Some (node_view node)) }
{
    let [part, rest @ ..] = parts else {
        return Ok(fresh(alloc, leaf));
    };
    let below = chain(alloc, rest, leaf)?;
    let mut entries = BTreeMap::new(alloc);
    entries.insert(part.clone()?, below)?;
    Ok(Node::Folder(entries))
}

fn fresh(alloc: Global, leaf: Leaf) -> Node
    ensures { settled (leaf_view leaf) None ≡ Some (node_view result) }
{
    match leaf {
        Leaf::File(bytes) => Node::File(bytes),
        Leaf::Folder => Node::Folder(BTreeMap::new(alloc)),
    }
}

/// Sets a path to the bytes and adds missing folders. It never fails.
pub(crate) fn write_file(
    alloc: Global,
    root: &mut Entries,
    path: &NormPath,
    bytes: &[u8],
) -> WriteAnswer
    ensures answer { ReplaceGives path.now bytes.now (Some (files_view root.old)) (Some (files_view root.new)) result }
    ensures sure { (before now : ℕ) → WriteFaultRose result before now }
{
    let Ok(leaf) = file_of(alloc, bytes) else {
        return WriteAnswer::Memory;
    };
    match place(alloc, root, path.parts(), leaf) {
        Placed::Done => WriteAnswer::Done,
        Placed::Blocked => WriteAnswer::Blocked,
        Placed::Memory => WriteAnswer::Memory,
    }
}

/// The bytes are copied first, so that want of memory leaves the tree.
fn file_of(alloc: Global, bytes: &[u8]) -> Result<Leaf, AllocError>
    ensures { IfOk result (λ leaf. leaf_view leaf ≡ a_file bytes.now) }
{
    let mut made = Vec::new(alloc);
    made.extend_from_slice(bytes)?;
    Ok(Leaf::File(made))
}

/// Sets a path that is free for it to the bytes.
pub(crate) fn put_file(
    alloc: Global,
    root: &mut Entries,
    path: &NormPath,
    bytes: &[u8],
) -> Result<(), AllocError>
    requires { IsSome (with_leaf (a_file bytes.now) path.now (files_view root.old)) }
    ensures ok { OnOk result (with_leaf (a_file bytes.now) path.now (files_view root.old) ≡ Some (files_view root.new)) }
    ensures err { OnErr result (files_view root.new ≡ files_view root.old) }
{
    let leaf = file_of(alloc, bytes)?;
    put(alloc, root, path.parts(), leaf)
}

/// Makes a path that is free for it a folder.
pub(crate) fn put_folder(
    alloc: Global,
    root: &mut Entries,
    path: &NormPath,
) -> Result<(), AllocError>
    requires { IsSome (with_leaf some_folder path.now (files_view root.old)) }
    ensures ok { OnOk result (with_leaf some_folder path.now (files_view root.old) ≡ Some (files_view root.new)) }
    ensures err { OnErr result (files_view root.new ≡ files_view root.old) }
{
    put(alloc, root, path.parts(), Leaf::Folder)
}

fn put(alloc: Global, root: &mut Entries, parts: &[String], leaf: Leaf) -> Result<(), AllocError>
    requires { IsSome (with_leaf (leaf_view leaf) (map string_bytes parts.now) (files_view root.old)) }
    ensures ok { OnOk result (with_leaf (leaf_view leaf) (map string_bytes parts.now) (files_view root.old) ≡ Some (files_view root.new)) }
    ensures err { OnErr result (files_view root.new ≡ files_view root.old) }
{
    match place(alloc, root, parts, leaf) {
        Placed::Done => Ok(()),
        Placed::Blocked => unreachable!(),
        Placed::Memory => Err(AllocError),
    }
}

/// Moves the node out, to be changed and put back.
fn take(alloc: Global, node: &mut Node) -> Node
    ensures { result ≡ node.old }
{
    mem::replace(node, Node::File(Vec::new(alloc)))
}
