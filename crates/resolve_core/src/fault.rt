//! The refusals of resolving.
ghost use Rattle.resolve_core.specs.Resolved.{SameLimit};

use pkg_world::LimitKind;
use refutation_log::Log;
use std::alloc::AllocError;
use thiserror::Error;
use version_graph::GraphFault;

/// Why a demand isn't resolved.
#[derive(Debug, Drop, Error)]
pub enum ResolveFault {
    /// No selection is feasible. The log is a certificate of it.
    #[error("no selection meets the demand")]
    Unsatisfiable(Log),
    /// The budget of nodes is spent before a solution is found. The log has as many nodes.
    #[error("the budget is spent")]
    GaveUp(Log),
    /// The instance passes a limit; the number is the carried count.
    #[error("a limit is passed by {1}")]
    Limit(LimitKind, u64),
    /// Want of memory.
    #[error("no memory")]
    Memory,
}

impl From<AllocError> for ResolveFault {
    ghost use Rattle.std.specs.Prelude.{◌≡◌};
    ghost use Rattle.resolve_core.specs.declared.fault.ResolveFault.TheVariants.{Memory};

    ghost from_gives = { λ _ fault. fault ≡ Memory };

    fn from(_: AllocError) -> Self {
        ResolveFault::Memory
    }
}

/// The refusal of an instance as a refusal of resolving.
pub(crate) fn of_limit(fault: GraphFault) -> ResolveFault
    ensures { SameLimit fault result }
{
    match fault {
        GraphFault::Limit(kind, count) => ResolveFault::Limit(kind, count),
        GraphFault::Memory => ResolveFault::Memory,
    }
}
