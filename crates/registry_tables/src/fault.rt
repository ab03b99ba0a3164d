//! Why a registry can't be used.
ghost use Rattle.std.specs.Prelude.{◌≡◌};

use pkg_world::{Cause, NormPath, Unread};
use std::alloc::AllocError;
use thiserror::Error;

/// Why a registry can't be used.
#[derive(Debug, Drop, Error)]
pub enum RegFault {
    /// The outside failed at this path, and the store's count of failed reads rose.
    #[error("a file or folder can't be read")]
    ReadFault(NormPath),
    /// No file is at this path: a folder in its place counts as missing.
    #[error("a file is missing")]
    MissingFile(NormPath),
    /// The bytes of this file are refused.
    #[error("a file is refused")]
    BadFile(NormPath, Cause),
    #[error("no memory")]
    Memory,
}

impl From<AllocError> for RegFault {
    ghost use Rattle.registry_tables.specs.declared.fault.RegFault.TheVariants.{Memory};

    ghost from_gives = { λ _ fault. fault ≡ Memory };

    fn from(_none: AllocError) -> RegFault {
        RegFault::Memory
    }
}

impl From<Unread> for RegFault {
    ghost use Rattle.registry_tables.specs.Answers.{unread_fault};

    ghost from_gives = { λ unread fault. fault ≡ unread_fault unread };

    fn from(unread: Unread) -> RegFault {
        match unread {
            Unread::Failed(path) => RegFault::ReadFault(path),
            Unread::Memory => RegFault::Memory,
        }
    }
}
