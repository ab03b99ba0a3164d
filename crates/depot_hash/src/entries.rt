//! The entries of Git's trees.
ghost use Rattle.std.specs.Prelude.{◌≡◌};
ghost use Rattle.depot_hash.specs.Trees as spec;

use pkg_world::{Name, TreeId};
use std::alloc::AllocError;
use thiserror::Error;

/// What an entry of a tree is.
#[derive(Clone, Copy, Debug, PartialEq, Eq)]
pub enum Mode {
    File,
    /// A file that can be run.
    Exec,
    Folder,
}

/// An entry of a tree.
#[derive(Debug, Drop)]
pub struct TreeEntry {
    pub name: Name,
    pub mode: Mode,
    /// The id of the file's bytes, or of the folder's tree.
    pub id: TreeId,
}

/// Why entries are no tree.
#[derive(Debug, Drop, Error)]
pub enum TreeFault {
    /// Two entries have this name; of several such names it's the first by its bytes.
    #[error("two entries of a tree have one name")]
    TwoNames(Name),
    #[error("no memory")]
    Memory,
}

impl From<AllocError> for TreeFault {
    ghost use Rattle.depot_hash.specs.declared.entries.TreeFault.TheVariants.{Memory};

    ghost from_gives = { λ _ fault. fault ≡ Memory };

    fn from(_none: AllocError) -> TreeFault {
        TreeFault::Memory
    }
}

impl TreeEntry {
    /// Whether an entry can have that name: it's not empty, and holds no `/` and no zero byte. It takes no memory.
    pub fn is_name(name: &Name) -> bool
        ensures { result ≡ spec.is_name name.now }
    {
        !name.as_str().is_empty() && holds_no_mark(name.as_str().as_bytes())
    }
}

fn holds_no_mark(bytes: &[u8]) -> bool
    ensures { result ≡ spec.has_no_mark bytes.now }
{
    bytes.iter().all(|b| *b != b'/' && *b != 0)
}

/// The mode as a tree spells it.
pub(crate) fn mode_text(mode: Mode) -> &'static str
    ensures { result.now ≡ spec.mode_text mode }
{
    match mode {
        Mode::File => "100644",
        Mode::Exec => "100755",
        Mode::Folder => "40000",
    }
}

/// What stands behind the name where entries are compared.
pub(crate) fn slash_of(mode: Mode) -> &'static str
    ensures { result.now ≡ spec.slash_of mode }
{
    match mode {
        Mode::File | Mode::Exec => "",
        Mode::Folder => "/",
    }
}
