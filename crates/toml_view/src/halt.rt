//! Why the reading of a file's bytes stops.
ghost use Rattle.std.specs.Prelude.{◌≡◌};
ghost use Rattle.toml_view.specs.Answers.{HasPath};
ghost use Rattle.toml_view.specs.Causes.{HaltsAs, HaltsView, cause_at as cause_meant};

use crate::document::ViewFault;
use crate::refusal::{Flaw, Refusal, Stop};
use pkg_world::{Cause, Text};
use std::alloc::AllocError;

/// Why the reading of a file's bytes stops: they are refused, or memory is wanting.
#[derive(Debug, Drop)]
pub enum Halt {
    /// The bytes are refused, for this cause.
    Refused(Cause),
    Memory,
}

impl From<AllocError> for Halt {
    ghost use Rattle.toml_view.specs.declared.halt.Halt.TheVariants.{Memory};

    ghost from_gives = { λ _ halt. halt ≡ Memory };

    fn from(_none: AllocError) -> Halt {
        Halt::Memory
    }
}

/// The halt of bytes that have no table.
pub fn unviewed(fault: ViewFault) -> Halt
    ensures { HaltsView fault result }
{
    match fault {
        ViewFault::BadToml => Halt::Refused(Cause::BadToml),
        ViewFault::Deep => Halt::Refused(Cause::Deep),
        ViewFault::Memory => Halt::Memory,
    }
}

/// The halt of a table's stopped reading, with its cause.
pub fn halted(stop: Stop) -> Halt
    requires { HasPath stop }
    ensures { HaltsAs stop result }
{
    match stop {
        Stop::Refused(refusal) => {
            let Refusal { path, flaw } = refusal;
            match path {
                Some(path) => Halt::Refused(cause_at(path, flaw)),
                None => unreachable!(),
            }
        }
        Stop::Memory => Halt::Memory,
    }
}

/// What is wrong at a key path, as the cause of a file's refusal.
fn cause_at(path: Text, flaw: Flaw) -> Cause
    ensures { result ≡ cause_meant path flaw }
{
    match flaw {
        Flaw::Shape => Cause::BadShape(path),
        Flaw::Version(place) => Cause::BadVersion(path, place),
        Flaw::Spec(place) => Cause::BadSpec(path, place),
    }
}
