//! Why a project file is refused.
ghost use Rattle.std.specs.Prelude.{◌≡◌};
ghost use Rattle.toml_view.specs.Answers.{HasPath};
ghost use Rattle.project_file.specs.Answers.{IsUnviewed, IsFaultOf};

use pkg_world::Text;
use std::alloc::AllocError;
use thiserror::Error;
use toml_view::{Flaw, Refusal, Stop, ViewFault};

/// Why bytes have no project.
#[derive(Debug, Drop, Error)]
pub enum ProjectFault {
    /// The bytes aren't UTF-8, or no TOML text.
    #[error("no TOML text")]
    BadToml,
    /// The nesting of the tables and lists passes 64.
    #[error("nested deeper than 64")]
    Deep,
    /// The value at this key path, the keys joined by dots, has another kind.
    #[error("another shape at {0}")]
    BadShape(Text),
    /// The text at this key path is no version. The place is the length, in bytes, of its longest front that begins one.
    #[error("no version at {0} from byte {1} on")]
    BadVersion(Text, u64),
    /// The text at this key path is no specifier. The place is the length, in bytes, of its longest front that begins one.
    #[error("no specifier at {0} from byte {1} on")]
    BadSpec(Text, u64),
    /// Memory ran out.
    #[error("no memory")]
    Memory,
}

impl From<AllocError> for ProjectFault {
    ghost use Rattle.project_file.specs.declared.fault.ProjectFault.TheVariants.{Memory};

    ghost from_gives = { λ _ fault. fault ≡ Memory };

    fn from(_none: AllocError) -> ProjectFault {
        ProjectFault::Memory
    }
}

/// The fault of bytes without a table.
pub(crate) fn unviewed(fault: ViewFault) -> ProjectFault
    ensures { IsUnviewed fault result }
{
    match fault {
        ViewFault::BadToml => ProjectFault::BadToml,
        ViewFault::Deep => ProjectFault::Deep,
        ViewFault::Memory => ProjectFault::Memory,
    }
}

/// The fault of a stop at a key.
pub(crate) fn fault_of(stop: Stop) -> ProjectFault
    requires { HasPath stop }
    ensures { IsFaultOf stop result }
{
    match stop {
        Stop::Memory => ProjectFault::Memory,
        Stop::Refused(refusal) => {
            let Refusal { path, flaw } = refusal;
            let Some(path) = path else { unreachable!() };
            match flaw {
                Flaw::Shape => ProjectFault::BadShape(path),
                Flaw::Version(place) => ProjectFault::BadVersion(path, place),
                Flaw::Spec(place) => ProjectFault::BadSpec(path, place),
            }
        }
    }
}
