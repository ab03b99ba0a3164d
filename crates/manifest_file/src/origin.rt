//! Where packages come from.
ghost use Rattle.std.specs.Prelude.{◌≡◌, IfOk};

use pkg_world::{Duplicate, Name, TreeId};
use std::alloc::{AllocError, Global};

/// Where the package of a stanza comes from (Pkg, Manifest.toml).
#[derive(Debug, Drop)]
pub enum Origin {
    /// A tree that a registry lists.
    Tree(TreeId),
    /// A file or folder, as the text that leads there from the manifest's folder.
    Path(Name),
    /// A tree of a repository.
    Repo {
        url: Name,
        rev: Option<Name>,
        subdir: Option<Name>,
        tree: TreeId,
    },
    /// Julia's standard library.
    Std,
}

impl Duplicate for Origin {
    fn copy(&self, alloc: Global) -> Result<Self, AllocError> {
        match self {
            Origin::Tree(tree) => Ok(Origin::Tree(*tree)),
            Origin::Path(path) => Ok(Origin::Path(path.copy(alloc)?)),
            Origin::Repo {
                url,
                rev,
                subdir,
                tree,
            } => Ok(Origin::Repo {
                url: url.copy(alloc)?,
                rev: name_copy(alloc, rev)?,
                subdir: name_copy(alloc, subdir)?,
                tree: *tree,
            }),
            Origin::Std => Ok(Origin::Std),
        }
    }
}

fn name_copy(alloc: Global, name: &Option<Name>) -> Result<Option<Name>, AllocError>
    ensures { IfOk result (λ other. other ≡ name.now) }
{
    match name {
        None => Ok(None),
        Some(name) => Ok(Some(name.copy(alloc)?)),
    }
}
