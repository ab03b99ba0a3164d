//! Why a command's edit is refused.
ghost use Rattle.std.specs.Prelude.{◌≡◌, Result};
ghost use Rattle.project_changes.specs.Refusals.{ChangeRefusal};
ghost use Rattle.project_changes.specs.Faults.{Refuses as RefusesChange};
ghost use Rattle.pkg_commands.specs.Changes.{Changed};
ghost use Rattle.pkg_commands.specs.Edit.{Edited, EditRefusal, Refuses, or_refused};

use pkg_world::{Name, Text};
use project_changes::ChangeFault;
use std::alloc::AllocError;
use thiserror::Error;
use uuid::Uuid;

/// Why a command's edit is refused.
#[derive(Debug, Drop, Error)]
pub enum EditFault {
    /// No place has the name that is to be added.
    #[error("no package has the name")]
    UnknownName(Name),
    /// No place has this identifier under the name that is to be added.
    #[error("no package of the name has the identifier")]
    UnknownPackage(Uuid),
    /// Several packages have the name. These are the two least of their identifiers.
    #[error("several packages have the name")]
    AmbiguousName(Uuid, Uuid),
    /// The name isn't among the dependencies.
    #[error("no dependency has the name")]
    NotInProject(Name),
    /// No stanza of the manifest has the name.
    #[error("no stanza has the name")]
    NotInManifest(Name),
    /// The stanza of the name has nothing that can be freed.
    #[error("the package is free")]
    NotPinned(Name),
    /// The project has the name already, with this identifier; its own name may have none.
    #[error("the name is taken")]
    NameTaken(Option<Uuid>),
    /// The project's compat on Julia, of this text, does not hold Julia's version.
    #[error("another version of Julia is wanted")]
    WrongJulia(Text),
    /// The source of this dependency is an address, and no stanza of the manifest has fetched it.
    #[error("a package is to be fetched")]
    NeedsFetch(Name),
    #[error("no memory")]
    Memory,
}

impl From<AllocError> for EditFault {
    ghost use Rattle.pkg_commands.specs.declared.fault.EditFault.TheVariants.{Memory};

    ghost from_gives = { λ _ fault. fault ≡ Memory };

    fn from(_none: AllocError) -> EditFault {
        EditFault::Memory
    }
}

/// The fault of a change.
pub(crate) fn edit_fault(fault: ChangeFault) -> EditFault
    ensures { (change : Result Changed ChangeRefusal) (next : Changed → Result Edited EditRefusal) → RefusesChange change fault → Refuses (or_refused change next) result }
{
    match fault {
        ChangeFault::NameTaken(had) => EditFault::NameTaken(had),
        ChangeFault::UnknownName(name) => EditFault::UnknownName(name),
        ChangeFault::UnknownPackage(uuid) => EditFault::UnknownPackage(uuid),
        ChangeFault::AmbiguousName(least, next) => EditFault::AmbiguousName(least, next),
        ChangeFault::NotInProject(name) => EditFault::NotInProject(name),
        ChangeFault::NotInManifest(name) => EditFault::NotInManifest(name),
        ChangeFault::NotPinned(name) => EditFault::NotPinned(name),
        ChangeFault::Memory => EditFault::Memory,
    }
}
