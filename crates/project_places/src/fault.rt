//! Why an environment can't be read.
ghost use Rattle.std.specs.Prelude.{◌≡◌};

use pkg_world::{Cause, NormPath};
use std::alloc::AllocError;
use thiserror::Error;

/// Why an environment can't be read.
#[derive(Debug, Drop, Error)]
pub enum EnvFault {
    /// The outside failed at this path, and the store's count of failed reads rose.
    #[error("a file or folder can't be read")]
    ReadFault(NormPath),
    /// The bytes of this file are refused.
    #[error("a file is refused")]
    BadFile(NormPath, Cause),
    #[error("no memory")]
    Memory,
}

impl From<AllocError> for EnvFault {
    ghost use Rattle.project_places.specs.declared.fault.EnvFault.TheVariants.{Memory};

    ghost from_gives = { λ _ fault. fault ≡ Memory };

    fn from(_none: AllocError) -> EnvFault {
        EnvFault::Memory
    }
}
