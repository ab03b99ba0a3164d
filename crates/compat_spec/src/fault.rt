//! Why a text is no specifier or no range.

use std::alloc::{AllocError, AllocFailed};
use thiserror::Error;

/// Why reading a specifier or a range gave none.
#[derive(Clone, Copy, Debug, PartialEq, Eq, Error)]
pub enum SpecFault {
    /// The text is none, and this many of its bytes begin some text that is one: its first bad place.
    #[error("no compatibility text from byte {0} on")]
    BadSpec(u64),
    /// Memory ran out.
    #[error("out of memory")]
    Memory,
}

impl From<AllocError> for SpecFault {
    ghost use Rattle.std.specs.Prelude.{◌≡◌};
    ghost use Rattle.compat_spec.specs.declared.fault.SpecFault.TheVariants.{Memory};

    ghost from_gives = { λ _ fault. fault ≡ Memory };

    fn from(_error: AllocError) -> SpecFault {
        SpecFault::Memory
    }
}

impl<T: Drop> From<AllocFailed<T>> for SpecFault {
    ghost use Rattle.std.specs.Prelude.{◌≡◌};
    ghost use Rattle.compat_spec.specs.declared.fault.SpecFault.TheVariants.{Memory};

    ghost from_gives = { λ _ fault. fault ≡ Memory };

    fn from(_error: AllocFailed<T>) -> SpecFault {
        SpecFault::Memory
    }
}
