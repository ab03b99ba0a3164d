//! What is known of a tree's extensions before it is looked into.
ghost use Rattle.std.specs.Prelude.{◌≡◌, Some, IfOk};
ghost use Rattle.std.specs.Option.{option_copied};
ghost use Rattle.package_offers.specs.RegistryOffers as spec;

use pkg_world::{ExtList, TreeId};
use std::alloc::{AllocError, Global};
use std::marker::Model;

/// The extensions of a tree, as the manifest's stanza of the package says them.
#[derive(Drop)]
pub struct TreeExtensions {
    tree: TreeId,
    extensions: ExtList,
}

impl Model for TreeExtensions {
    ghost use Rattle.package_offers.specs.TreeExts.{TreeExts};

    ghost Value = { TreeExts };

    ghost view = { λ known. record { tree = known.tree; extensions = known.extensions.items } };
}

impl TreeExtensions {
    /// These extensions of that tree.
    pub fn of(tree: TreeId, extensions: ExtList) -> TreeExtensions
        ensures { result ≡ record { tree = tree; extensions = extensions.items } }
    {
        TreeExtensions { tree, extensions }
    }

    /// A copy of the extensions, where this is the tree; else none.
    fn of_tree(&self, alloc: Global, tree: &TreeId) -> Result<ExtList, AllocError>
        ensures { IfOk result (λ list. list.items ≡ spec.extensions_of (Some self.now) tree.now) }
    {
        if self.tree == *tree {
            self.extensions.copy(alloc)
        } else {
            Ok(ExtList::make(alloc))
        }
    }
}

/// The extensions that are known of a tree.
pub(crate) fn extensions_of(
    alloc: Global,
    known: Option<&TreeExtensions>,
    tree: &TreeId,
) -> Result<ExtList, AllocError>
    ensures { IfOk result (λ list. list.items ≡ spec.extensions_of (option_copied known.entry) tree.now) }
{
    match known {
        Some(known) => known.of_tree(alloc, tree),
        None => Ok(ExtList::make(alloc)),
    }
}
