//! Why there is no catalog or no book.
ghost use Rattle.std.specs.Prelude.{◌≡◌};

use pkg_world::{Cause, LimitKind, NormPath};
use std::alloc::AllocError;
use thiserror::Error;
use uuid::Uuid;

/// Why there is no catalog or no book.
#[derive(Debug, Drop, Error)]
pub enum BookFault {
    /// The outside failed at this path, and the store's count of failed reads rose.
    #[error("a file or folder can't be read")]
    ReadFault(NormPath),
    /// No file is at this path: a folder in its place counts as missing.
    #[error("a file is missing")]
    MissingFile(NormPath),
    /// The bytes of this file are refused.
    #[error("a file is refused")]
    BadFile(NormPath, Cause),
    /// Nothing offers this package, which must be selected. A catalog never answers this.
    #[error("a package has no source")]
    UnknownPackage(Uuid),
    /// A limit is passed by this count. A catalog never answers this.
    #[error("a limit is passed")]
    Limit(LimitKind, u64),
    #[error("no memory")]
    Memory,
}

impl From<AllocError> for BookFault {
    ghost use Rattle.offer_catalog.specs.declared.fault.BookFault.TheVariants.{Memory};

    ghost from_gives = { λ _ fault. fault ≡ Memory };

    fn from(_none: AllocError) -> BookFault {
        BookFault::Memory
    }
}
