//! Why a change is refused.
ghost use Rattle.std.specs.Prelude.{◌≡◌, Err, Result, ℕ, List};
ghost use Rattle.package_names.specs.Names.{NameRefusal};
ghost use Rattle.package_names.specs.Stanzas.{StanzaRefusal};
ghost use Rattle.package_names.specs.Refusals.{NameRefused, StanzaRefused};
ghost use Rattle.project_changes.specs.Refusals.{of_name, of_stanza};
ghost use Rattle.project_changes.specs.Faults.{Refuses};

use package_names::{NameFault, StanzaFault};
use pkg_world::Name;
use std::alloc::AllocError;
use thiserror::Error;
use uuid::Uuid;

/// Why a change is refused.
#[derive(Debug, Drop, Error)]
pub enum ChangeFault {
    /// The project has the name already, with this identifier; its own name may have none.
    #[error("the name is taken")]
    NameTaken(Option<Uuid>),
    /// Neither the project nor the manifest nor the catalog has the name.
    #[error("no package has the name")]
    UnknownName(Name),
    /// Neither the project nor the manifest nor the catalog has this identifier under the name.
    #[error("no package of the name has the identifier")]
    UnknownPackage(Uuid),
    /// Several packages have the name. These are the two least of their identifiers.
    #[error("several packages have the name")]
    AmbiguousName(Uuid, Uuid),
    /// The name isn't among the dependencies.
    #[error("no dependency has the name")]
    NotInProject(Name),
    /// No stanza of the manifest has the name.
    #[error("no stanza has the name")]
    NotInManifest(Name),
    /// The stanza of the name has nothing that can be freed.
    #[error("the package is free")]
    NotPinned(Name),
    #[error("no memory")]
    Memory,
}

impl From<AllocError> for ChangeFault {
    ghost use Rattle.project_changes.specs.declared.fault.ChangeFault.TheVariants.{Memory};

    ghost from_gives = { λ _ fault. fault ≡ Memory };

    fn from(_none: AllocError) -> ChangeFault {
        ChangeFault::Memory
    }
}

/// The fault of a name that is to be added.
pub(crate) fn name_fault(fault: NameFault) -> ChangeFault
    ensures { (answer : Result (List ℕ) NameRefusal) → NameRefused answer fault → Refuses (of_name answer) result }
{
    match fault {
        NameFault::NameTaken(had) => ChangeFault::NameTaken(had),
        NameFault::UnknownName(name) => ChangeFault::UnknownName(name),
        NameFault::UnknownPackage(uuid) => ChangeFault::UnknownPackage(uuid),
        NameFault::AmbiguousName(least, next) => ChangeFault::AmbiguousName(least, next),
        NameFault::Memory => ChangeFault::Memory,
    }
}

/// The fault of a name that is to mean a stanza.
pub(crate) fn stanza_fault(fault: StanzaFault) -> ChangeFault
    ensures { (answer : Result ℕ StanzaRefusal) → StanzaRefused answer fault → Refuses (of_stanza answer) result }
{
    match fault {
        StanzaFault::NotInManifest(name) => ChangeFault::NotInManifest(name),
        StanzaFault::AmbiguousName(least, next) => ChangeFault::AmbiguousName(least, next),
        StanzaFault::Memory => ChangeFault::Memory,
    }
}
