//! `verify`: whether an installed folder has the tree that a stanza names.
ghost use Rattle.std.specs.Prelude.{◌≡◌, ◌≤◌, ◌++◌, ◌∷◌, [], List, ℕ, Ok, Err, Some, IfSome, IfOk, IfErr, OnOk, codes, map, string_bytes};
ghost use Rattle.std.specs.List.{filter_map, cons_option};
ghost use Rattle.pkg_world.specs.Path.{joined, pieces_at};
ghost use Rattle.manifest_file.specs.Said.{said_stanza};
ghost use Rattle.depot_hash.specs.Folders.{folder_id as id_meant};
ghost use Rattle.home_commands.specs.VerifyDue as spec;
ghost use Rattle.home_commands.specs.VerifySteps.{both_in_order, least_of_three, with_one, with_found};
ghost use Rattle.command_answers.specs.Answers.{Answers, Refuses, ReadFaultRose, NoFault, IsLate, IsUnprinted};

use crate::home::both_files;
use command_answers::{Difference, Status, plain_uuid};
use depot_hash::{FolderFault, folder_id, installed};
use manifest_file::{Origin, Stanza};
use pkg_world::{
    Duplicate, Listed, Name, NormPath, NormPaths, PathFault, Place, Store, Text, TreeId,
    first_piece,
};
use std::alloc::{AllocError, Global};
use uuid::Uuid;

/// The stanzas of a name that have a tree: the identifier and the tree of the one, or the two least identifiers of several.
#[derive(Clone, Copy, Debug, PartialEq, Eq)]
pub(crate) enum Bearers {
    Nobody,
    One(Uuid, TreeId),
    Several(Uuid, Uuid),
}

/// The line of `verify`, or its refusal. The one stanza of the name that has a tree is looked for in the manifest of the
/// active project, its folder in the depots, and the folder's tree is compared with the stanza's. The files that can be
/// run are those of the list, whose paths are joined by `:` and taken from the folder. (Git's object format.)
///
/// Refusals: MissingFile where the project file is not there, BadFile where it or the manifest is refused; NotInManifest
/// where no stanza with a tree has the name, AmbiguousName where several have it; NoSource where no depot has the tree;
/// Limit where its folder is too deep or has too many files; Differs where the trees are not the same; ReadFault where the
/// store fails; want of memory.
pub fn verify<S: Store>(
    alloc: Global,
    name: &Name,
    list: &Option<Text>,
    place: &Place,
    store: &mut S,
) -> Result<String, Status>
    ensures answer { IfSome (S.files store.old) (λ all. Answers (spec.verify_due all place.now name.now list.now) result) }
    ensures late { IfErr result IsLate }
    ensures unprinted { IfErr result IsUnprinted }
    ensures fault { IfErr result (ReadFaultRose (S.read_faults store.old) (S.read_faults store.new)) }
    ensures files { S.files store.new ≡ S.files store.old }
    ensures later { S.read_faults store.old ≤ S.read_faults store.new }
    ensures other { S.write_faults store.new ≡ S.write_faults store.old }
{
    match both_files(alloc, store, place) {
        Ok(both) => verify_among(alloc, name, list, place, both.stanzas.items(), store),
        Err(status) => Err(status),
    }
}

fn verify_among<S: Store>(
    alloc: Global,
    name: &Name,
    list: &Option<Text>,
    place: &Place,
    stanzas: &[Stanza],
    store: &mut S,
) -> Result<String, Status>
    ensures answer { IfSome (S.files store.old) (λ all. Answers (spec.verify_bearers all place.now.depots.items name.now list.now (spec.bearers_in name.now (map said_stanza stanzas.now))) result) }
    ensures late { IfErr result IsLate }
    ensures unprinted { IfErr result IsUnprinted }
    ensures fault { IfErr result (ReadFaultRose (S.read_faults store.old) (S.read_faults store.new)) }
    ensures files { S.files store.new ≡ S.files store.old }
    ensures later { S.read_faults store.old ≤ S.read_faults store.new }
    ensures other { S.write_faults store.new ≡ S.write_faults store.old }
{
    match bearers_in(name, stanzas) {
        Bearers::Nobody => Err(not_in_manifest(alloc, name)),
        Bearers::One(uuid, tree) => verify_one(alloc, name, list, place, &uuid, &tree, store),
        Bearers::Several(least, next) => Err(Status::AmbiguousName(least, next)),
    }
}

fn not_in_manifest(alloc: Global, name: &Name) -> Status
    ensures refusal { Refuses {T = List ℕ} (Err (Status.NotInManifest name.now)) result }
    ensures late { IsLate result }
    ensures unprinted { IsUnprinted result }
    ensures fault { NoFault result }
{
    match name.copy(alloc) {
        Ok(name) => Status::NotInManifest(name),
        Err(_) => Status::Memory,
    }
}

/// The answer about the one stanza, whose folder is looked for in the depots.
fn verify_one<S: Store>(
    alloc: Global,
    name: &Name,
    list: &Option<Text>,
    place: &Place,
    uuid: &Uuid,
    tree: &TreeId,
    store: &mut S,
) -> Result<String, Status>
    ensures answer { IfSome (S.files store.old) (λ all. Answers (spec.verify_bearers all place.now.depots.items name.now list.now (Bearers.One uuid.now tree.now)) result) }
    ensures late { IfErr result IsLate }
    ensures unprinted { IfErr result IsUnprinted }
    ensures fault { IfErr result (ReadFaultRose (S.read_faults store.old) (S.read_faults store.new)) }
    ensures files { S.files store.new ≡ S.files store.old }
    ensures later { S.read_faults store.old ≤ S.read_faults store.new }
    ensures other { S.write_faults store.new ≡ S.write_faults store.old }
{
    match installed(alloc, store, &place.depots, name, uuid, tree) {
        Ok(Some(folder)) => in_folder(alloc, name, list, uuid, tree, &folder, store),
        Ok(None) => Err(Status::NoSource(Some(*uuid))),
        Err(FolderFault::ReadFault(path)) => Err(Status::ReadFault(path)),
        Err(FolderFault::MissingFile(_)) => unreachable!(),
        Err(FolderFault::Limit(_, _)) => unreachable!(),
        Err(FolderFault::Memory) => Err(Status::Memory),
    }
}

/// The answer about the stanza and its installed folder.
fn in_folder<S: Store>(
    alloc: Global,
    name: &Name,
    list: &Option<Text>,
    uuid: &Uuid,
    tree: &TreeId,
    folder: &NormPath,
    store: &mut S,
) -> Result<String, Status>
    ensures answer { IfSome (S.files store.old) (λ all. Answers (spec.in_folder all name.now list.now uuid.now tree.now (Some folder.now)) result) }
    ensures late { IfErr result IsLate }
    ensures unprinted { IfErr result IsUnprinted }
    ensures fault { IfErr result (ReadFaultRose (S.read_faults store.old) (S.read_faults store.new)) }
    ensures files { S.files store.new ≡ S.files store.old }
    ensures later { S.read_faults store.old ≤ S.read_faults store.new }
    ensures other { S.write_faults store.new ≡ S.write_faults store.old }
{
    match exec_paths(alloc, folder, list) {
        Ok(execs) => compare(alloc, name, uuid, tree, folder, &execs, store),
        Err(_) => Err(Status::Memory),
    }
}

/// Compares the stanza's tree with that of the folder. A folder that is gone since it was found, which only a store can
/// tell that doesn't tell its files, is no source: no depot has it any more.
fn compare<S: Store>(
    alloc: Global,
    name: &Name,
    uuid: &Uuid,
    tree: &TreeId,
    folder: &NormPath,
    execs: &NormPaths,
    store: &mut S,
) -> Result<String, Status>
    ensures answer { IfSome (S.files store.old) (λ all. Answers (spec.compared name.now uuid.now tree.now (id_meant all folder.now execs.now.items)) result) }
    ensures late { IfErr result IsLate }
    ensures unprinted { IfErr result IsUnprinted }
    ensures fault { IfErr result (ReadFaultRose (S.read_faults store.old) (S.read_faults store.new)) }
    ensures files { S.files store.new ≡ S.files store.old }
    ensures later { S.read_faults store.old ≤ S.read_faults store.new }
    ensures other { S.write_faults store.new ≡ S.write_faults store.old }
{
    match folder_id(alloc, store, folder, execs) {
        Ok(found) => told(alloc, name, uuid, tree, &found),
        Err(FolderFault::ReadFault(path)) => Err(Status::ReadFault(path)),
        Err(FolderFault::MissingFile(_)) => Err(Status::NoSource(Some(*uuid))),
        Err(FolderFault::Limit(kind, count)) => Err(Status::Limit(kind, count)),
        Err(FolderFault::Memory) => Err(Status::Memory),
    }
}

/// The line where the trees are the same, and the difference where they aren't.
fn told(
    alloc: Global,
    name: &Name,
    uuid: &Uuid,
    tree: &TreeId,
    found: &TreeId,
) -> Result<String, Status>
    ensures answer { Answers (spec.compared name.now uuid.now tree.now (Ok found.now)) result }
    ensures late { IfErr result IsLate }
    ensures unprinted { IfErr result IsUnprinted }
    ensures fault { IfErr result NoFault }
{
    if tree != found {
        return Err(Status::Differs(Difference::Trees(*tree, *found)));
    }
    match verified_line(alloc, name, uuid, tree) {
        Ok(line) => Ok(line),
        Err(_) => Err(Status::Memory),
    }
}

fn verified_line(
    alloc: Global,
    name: &Name,
    uuid: &Uuid,
    tree: &TreeId,
) -> Result<String, AllocError>
    ensures { IfOk result (λ line. string_bytes line ≡ spec.verified_line name.now uuid.now tree.now) }
{
    let uuid = plain_uuid(alloc, uuid)?;
    let tree = tree.text(alloc)?;
    verified_words(alloc, name.as_str(), uuid.as_str(), tree.as_str())
}

fn verified_words(alloc: Global, name: &str, uuid: &str, tree: &str) -> Result<String, AllocError>
    ensures { IfOk result (λ line. string_bytes line ≡ codes "verified " ++ (name.now ++ (codes " " ++ (uuid.now ++ (codes " " ++ (tree.now ++ 10 ∷ [])))))) }
{
    format!(in alloc; "verified {name} {uuid} {tree}\n")
}

/// The paths of the list, taken from the folder, without those that rise above the root.
fn exec_paths(
    alloc: Global,
    folder: &NormPath,
    list: &Option<Text>,
) -> Result<NormPaths, AllocError>
    ensures { IfOk result (λ paths. paths.items ≡ spec.exec_paths folder.now list.now) }
{
    match list {
        Some(text) => split_paths(alloc, folder, text.as_str()),
        None => Ok(Listed::make(alloc)),
    }
}

fn split_paths(alloc: Global, folder: &NormPath, text: &str) -> Result<NormPaths, AllocError>
    ensures { IfOk result (λ paths. paths.items ≡ filter_map (joined folder.now) (pieces_at 58 text.now)) }
{
    let mut paths = Listed::make(alloc);
    let mut rest = text;
    loop {
        match first_piece(rest, ':') {
            Some((piece, more)) => {
                push_joined(alloc, &mut paths, folder, piece)?;
                rest = more;
            }
            None => {
                push_joined(alloc, &mut paths, folder, rest)?;
                return Ok(paths);
            }
        }
    }
}

/// Appends the path that a piece means from the folder, where it doesn't rise above the root.
fn push_joined(
    alloc: Global,
    paths: &mut NormPaths,
    folder: &NormPath,
    piece: &str,
) -> Result<(), AllocError>
    ensures { OnOk result (paths.new.items ≡ paths.old.items ++ cons_option (joined folder.now piece.now) []) }
{
    match NormPath::join(alloc, folder, piece) {
        Ok(path) => paths.push(path),
        Err(PathFault::Escapes) => Ok(()),
        Err(PathFault::Memory) => Err(AllocError),
    }
}

/// The stanzas of the name that have a tree.
fn bearers_in(name: &Name, stanzas: &[Stanza]) -> Bearers
    ensures { result ≡ spec.bearers_in name.now (map said_stanza stanzas.now) }
{
    let mut bearers = Bearers::Nobody;
    let mut left = stanzas.len();
    while left > 0 {
        left -= 1;
        bearers = with_stanza(name, &stanzas[left], bearers);
    }
    bearers
}

/// With one stanza more, where it has the name and a tree.
fn with_stanza(name: &Name, stanza: &Stanza, bearers: Bearers) -> Bearers
    ensures { result ≡ with_found (spec.bearer_of name.now (said_stanza stanza.now)) bearers }
{
    if stanza.name.as_str() != name.as_str() {
        return bearers;
    }
    match tree_of(&stanza.origin) {
        Some(tree) => with_one(stanza.uuid, tree, bearers),
        None => bearers,
    }
}

fn tree_of(origin: &Origin) -> Option<TreeId>
    ensures { result ≡ spec.tree_of origin.now }
{
    match origin {
        Origin::Tree(tree) => Some(*tree),
        Origin::Path(_) => None,
        Origin::Repo { tree, .. } => Some(*tree),
        Origin::Std => None,
    }
}

fn with_one(uuid: Uuid, tree: TreeId, bearers: Bearers) -> Bearers
    ensures { result ≡ with_one (uuid, tree) bearers }
{
    match bearers {
        Bearers::Nobody => Bearers::One(uuid, tree),
        Bearers::One(other, _) => both_in_order(uuid, other),
        Bearers::Several(least, next) => least_of_three(uuid, least, next),
    }
}

fn both_in_order(uuid: Uuid, other: Uuid) -> Bearers
    ensures { result ≡ both_in_order uuid other }
{
    if is_after(&uuid, &other) {
        Bearers::Several(other, uuid)
    } else {
        Bearers::Several(uuid, other)
    }
}

/// The two least of three identifiers, of which two are in order.
fn least_of_three(uuid: Uuid, least: Uuid, next: Uuid) -> Bearers
    ensures { result ≡ least_of_three uuid least next }
{
    if !is_after(&uuid, &least) {
        Bearers::Several(uuid, least)
    } else if is_after(&uuid, &next) {
        Bearers::Several(least, next)
    } else {
        Bearers::Several(least, uuid)
    }
}

/// Whether an identifier comes after another by their bytes.
fn is_after(left: &Uuid, right: &Uuid) -> bool
    ensures { result ≡ spec.is_after left.now right.now }
{
    left.cmp(right).is_gt()
}
