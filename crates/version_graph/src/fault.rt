//! The refusals of an instance.
use pkg_world::LimitKind;
use std::alloc::AllocError;
use thiserror::Error;

/// Why an instance wasn't made.
#[derive(Debug, Clone, Copy, PartialEq, Eq, Error)]
pub enum GraphFault {
    /// A count passed its limit; the number is the carried count. The limits are 4,096 packages, 65,536
    /// states, 2^30 bits and 2^25 cells.
    #[error("a limit is passed by {1}")]
    Limit(LimitKind, u64),
    /// Want of memory.
    #[error("no memory")]
    Memory,
}

impl From<AllocError> for GraphFault {
    ghost use Rattle.std.specs.Prelude.{◌≡◌};
    ghost use Rattle.version_graph.specs.declared.fault.GraphFault.TheVariants.{Memory};

    ghost from_gives = { λ _ fault. fault ≡ Memory };

    fn from(_: AllocError) -> Self {
        GraphFault::Memory
    }
}
