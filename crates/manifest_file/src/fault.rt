//! Why a manifest can't be read.
ghost use Rattle.std.specs.Prelude.{◌≡◌};

use pkg_world::{Name, Text};
use std::alloc::AllocError;
use thiserror::Error;
use uuid::Uuid;

/// Why the bytes of a manifest are refused. Key paths are the keys joined by dots, without the places in lists.
#[derive(Debug, Drop, Error)]
pub enum ManifestFault {
    /// The bytes are no TOML text.
    #[error("no TOML text")]
    BadToml,
    /// The nesting of the tables and lists passes 64.
    #[error("nested deeper than 64")]
    Deep,
    /// The value at this key path has another kind, or a needed key is absent.
    #[error("another shape at {0}")]
    BadShape(Text),
    /// The text at this key path is no version; the place is the length of its longest front that begins one.
    #[error("no version at {0} from byte {1} on")]
    BadVersion(Text, u64),
    /// Two stanzas have this identifier.
    #[error("an identifier stands twice")]
    SameUuid(Uuid),
    /// The stanza of the first name lists the second name, which no stanza has.
    #[error("{0} lists {1}, which isn't there")]
    Dangling(Name, Name),
    /// The stanza of the first name lists the second name, which several stanzas have.
    #[error("{0} lists {1}, which stands several times")]
    Unclear(Name, Name),
    #[error("no memory")]
    Memory,
}

impl From<AllocError> for ManifestFault {
    ghost use Rattle.manifest_file.specs.declared.fault.ManifestFault.TheVariants.{Memory};

    ghost from_gives = { λ _ fault. fault ≡ Memory };

    fn from(_none: AllocError) -> ManifestFault {
        ManifestFault::Memory
    }
}
