//! Git's ids of trees.
ghost use Rattle.std.specs.Prelude.{◌≡◌, ◌++◌, ◌∷◌, [], true, IfOk, OnOk, MatchResult};
ghost use Rattle.std.specs.List.{list_all, flat_map};
ghost use Rattle.std.specs.Map.{values_of};
ghost use Rattle.std.specs.Option.{option_copied};
ghost use Rattle.depot_hash.specs.Trees as spec;
ghost use Rattle.depot_hash.specs.Trees.{RefusesTree, IsFirstTwice};
ghost use Rattle.depot_hash.specs.Placed.{seen, lesser};

use crate::entries::{TreeEntry, TreeFault, mode_text};
use crate::git_key::GitKey;
use crate::objects::object_id;
use pkg_world::{Duplicate, Name, TreeId};
use std::alloc::{AllocError, Global};
use std::collections::{BTreeMap, BTreeSet};

/// Git's id of the tree with these entries: the SHA-1 of `tree `, the body's length in decimal, a zero byte and the
/// body, which has for each entry its mode, a space, its name, a zero byte and the 20 bytes of its id. The entries stand
/// by their names' bytes, a folder compared as its name with a slash behind it. (Git's object format.)
///
/// Errors: TwoNames, exactly where two entries have one name, with the first such name by its bytes; want of memory.
pub fn tree_id(alloc: Global, entries: &[TreeEntry]) -> Result<TreeId, TreeFault>
    requires { list_all (λ entry. spec.is_name entry.name) entries.now ≡ true }
    ensures told { MatchResult result (λ id. id ≡ spec.tree_id entries.now) (RefusesTree entries.now) }
    ensures apart { IfOk result (λ _. IsFirstTwice entries.now None) }
{
    match first_twice(alloc, entries)? {
        Some(name) => Err(TreeFault::TwoNames(name)),
        None => Ok(id_of(alloc, entries)?),
    }
}

/// The first name by its bytes that two entries have.
fn first_twice(alloc: Global, entries: &[TreeEntry]) -> Result<Option<Name>, AllocError>
    ensures { IfOk result (IsFirstTwice entries.now) }
{
    let mut met = BTreeSet::new(alloc);
    let mut first = None;
    for entry in entries {
        if !met.insert(GitKey::of_name(&entry.name))? {
            first = Some(lesser(first, &entry.name));
        }
    }
    match first {
        Some(name) => Ok(Some(name.copy(alloc)?)),
        None => Ok(None),
    }
}

fn lesser<'a>(first: Option<&'a Name>, name: &'a Name) -> &'a Name
    ensures { result.now ≡ lesser (option_copied first.entry) name.now }
{
    match first {
        Some(first) => {
            if name
                .as_str()
                .as_bytes()
                .cmp(first.as_str().as_bytes())
                .is_lt()
            {
                name
            } else {
                first
            }
        }
        None => name,
    }
}

/// The id of the tree of entries that have names of their own.
pub(crate) fn id_of(alloc: Global, entries: &[TreeEntry]) -> Result<TreeId, AllocError>
    ensures { IfOk result (λ id. id ≡ spec.tree_id entries.now) }
{
    let placed = by_key(alloc, entries)?;
    let body = body_of(alloc, &placed)?;
    Ok(object_id("tree", body.as_slice()))
}

/// Each entry at its place.
fn by_key<'a>(
    alloc: Global,
    entries: &'a [TreeEntry],
) -> Result<BTreeMap<GitKey<'a>, &'a TreeEntry>, AllocError>
    ensures { IfOk result (λ placed. seen placed.entries ≡ spec.by_key entries.now) }
{
    let mut placed = BTreeMap::new(alloc);
    for entry in entries {
        placed.insert(GitKey::of(entry), entry)?;
    }
    Ok(placed)
}

/// The entries as a tree holds them.
fn body_of(alloc: Global, placed: &BTreeMap<GitKey<'_>, &TreeEntry>) -> Result<Vec<u8>, AllocError>
    ensures { IfOk result (λ body. body.items ≡ flat_map spec.line (values_of (seen placed.now.entries))) }
{
    let mut body = Vec::new(alloc);
    for entry in placed.values() {
        push_line(&mut body, entry)?;
    }
    Ok(body)
}

fn push_line(body: &mut Vec<u8>, entry: &TreeEntry) -> Result<(), AllocError>
    ensures { OnOk result (body.new.items ≡ body.old.items ++ spec.line entry.now) }
{
    body.extend_from_slice(mode_text(entry.mode).as_bytes())?;
    body.push(b' ')?;
    body.extend_from_slice(entry.name.as_str().as_bytes())?;
    body.push(0)?;
    body.extend_from_slice(entry.id.bytes())?;
    Ok(())
}
