//! Why a folder has no id.
ghost use Rattle.std.specs.Prelude.{◌≡◌, ℕ};
ghost use Rattle.depot_hash.specs.Faults.{MeansUnread};

use pkg_world::{LimitKind, NormPath, Unread};
use std::alloc::AllocError;
use thiserror::Error;

/// Why a folder's tree can't be hashed, or an installed tree can't be looked for.
#[derive(Debug, Drop, Error)]
pub enum FolderFault {
    /// The outside failed at this path, and the store's count of failed reads rose.
    #[error("a file or folder can't be read")]
    ReadFault(NormPath),
    /// No folder is at this path.
    #[error("a folder isn't there")]
    MissingFile(NormPath),
    /// The folder passes this limit, with the first number past it.
    #[error("a folder passes a limit")]
    Limit(LimitKind, u64),
    #[error("no memory")]
    Memory,
}

impl From<AllocError> for FolderFault {
    ghost use Rattle.depot_hash.specs.declared.fault.FolderFault.TheVariants.{Memory};

    ghost from_gives = { λ _ fault. fault ≡ Memory };

    fn from(_none: AllocError) -> FolderFault {
        FolderFault::Memory
    }
}

/// The fault of a store that told nothing.
pub(crate) fn unread(why: Unread) -> FolderFault
    ensures { MeansUnread why result }
{
    match why {
        Unread::Failed(path) => FolderFault::ReadFault(path),
        Unread::Memory => FolderFault::Memory,
    }
}
