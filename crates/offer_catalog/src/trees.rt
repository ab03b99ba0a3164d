//! The extensions that a manifest's stanzas have for trees.
ghost use Rattle.std.specs.Prelude.{◌≡◌, map, IfOk, OnOk};
ghost use Rattle.manifest_file.specs.Said.{said_stanza};
ghost use Rattle.offer_catalog.specs.Trees as spec;

use manifest_file::{Origin, Stanza};
use package_offers::TreeExtensions;
use pkg_world::{Duplicate, TreeId};
use std::alloc::{AllocError, Global};
use std::collections::BTreeMap;
use uuid::Uuid;

/// The trees of stanzas, by the identifiers of their packages.
pub(crate) type Trees = BTreeMap<Uuid, TreeExtensions>;

/// The trees of these stanzas. The one error is want of memory.
pub(crate) fn trees_of(alloc: Global, stanzas: &[Stanza]) -> Result<Trees, AllocError>
    ensures { IfOk result (λ trees. trees.entries ≡ spec.trees_of (map said_stanza stanzas.now)) }
{
    let mut trees = BTreeMap::new(alloc);
    for stanza in stanzas {
        put_stanza(alloc, &mut trees, stanza)?;
    }
    Ok(trees)
}

/// Puts the tree of a stanza that has one.
fn put_stanza(alloc: Global, trees: &mut Trees, stanza: &Stanza) -> Result<(), AllocError>
    ensures { OnOk result (trees.new.entries ≡ spec.put_stanza trees.old.entries (said_stanza stanza.now)) }
{
    match tree_of(&stanza.origin) {
        Some(tree) => put_tree(alloc, trees, stanza, tree),
        None => Ok(()),
    }
}

fn put_tree(
    alloc: Global,
    trees: &mut Trees,
    stanza: &Stanza,
    tree: TreeId,
) -> Result<(), AllocError>
    ensures { OnOk result (trees.new.entries ≡ spec.put_tree trees.old.entries (said_stanza stanza.now) tree) }
{
    let extensions = stanza.extensions.copy(alloc)?;
    trees.insert(stanza.uuid, TreeExtensions::of(tree, extensions))?;
    Ok(())
}

/// The tree of a stanza, which one from a registry or from a repository has.
fn tree_of(origin: &Origin) -> Option<TreeId>
    ensures { result ≡ spec.tree_of origin.now }
{
    match origin {
        Origin::Tree(tree) => Some(*tree),
        Origin::Repo { tree, .. } => Some(*tree),
        Origin::Path(_) => None,
        Origin::Std => None,
    }
}
