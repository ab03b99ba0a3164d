//! Why a name means no package.
ghost use Rattle.std.specs.Prelude.{◌≡◌};

use pkg_world::Name;
use std::alloc::AllocError;
use thiserror::Error;
use uuid::Uuid;

/// Why a name can't be added to a project.
#[derive(Debug, Drop, Error)]
pub enum NameFault {
    /// The project has the name already, with this identifier; its own name may have none.
    #[error("the name is taken")]
    NameTaken(Option<Uuid>),
    /// Neither the project nor the manifest nor the catalog has the name.
    #[error("no package has the name")]
    UnknownName(Name),
    /// Neither the project nor the manifest nor the catalog has this identifier under the name.
    #[error("no package of the name has the identifier")]
    UnknownPackage(Uuid),
    /// Several packages have the name. These are the two least of their identifiers.
    #[error("several packages have the name")]
    AmbiguousName(Uuid, Uuid),
    #[error("no memory")]
    Memory,
}

impl From<AllocError> for NameFault {
    ghost use Rattle.package_names.specs.declared.fault.NameFault.TheVariants.{Memory};

    ghost from_gives = { λ _ fault. fault ≡ Memory };

    fn from(_none: AllocError) -> NameFault {
        NameFault::Memory
    }
}

/// Why a name means no stanza of a manifest.
#[derive(Debug, Drop, Error)]
pub enum StanzaFault {
    /// No stanza has the name.
    #[error("no stanza has the name")]
    NotInManifest(Name),
    /// Several stanzas have the name. These are the two least of their identifiers.
    #[error("several stanzas have the name")]
    AmbiguousName(Uuid, Uuid),
    #[error("no memory")]
    Memory,
}

impl From<AllocError> for StanzaFault {
    ghost use Rattle.package_names.specs.declared.fault.StanzaFault.TheVariants.{Memory};

    ghost from_gives = { λ _ fault. fault ≡ Memory };

    fn from(_none: AllocError) -> StanzaFault {
        StanzaFault::Memory
    }
}
