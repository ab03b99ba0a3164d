//! What raising works on.
ghost use Rattle.std.specs.Prelude.{◌≡◌, ◌≤◌, length, replicate, vec_capacity, false, true, IfOk};
ghost use Rattle.version_graph.specs.Graph.{packages};

use crate::loose::Loose;
use std::alloc::{AllocError, Global};
use version_graph::Instance;

/// What raising works on, made once for an instance, so that raising itself takes no memory.
#[derive(Drop)]
pub struct RaiseScratch {
    /// Which packages are reached from the roots.
    pub(crate) reached: Vec<bool>,
    /// These packages, in the order in which they were found.
    pub(crate) order: Vec<u32>,
    /// The packages that may be raised.
    pub(crate) loose: Loose,
}

impl RaiseScratch {
    ghost use Rattle.raise_pass.specs.Scratch.{IsScratchFor};

    /// Makes the scratch values for an instance. The one error is want of memory.
    pub fn make(alloc: Global, instance: &Instance) -> Result<Self, AllocError>
        ensures { IfOk result (IsScratchFor instance.now) }
    {
        let count = instance.packages() as usize;
        Ok(RaiseScratch {
            reached: marks(alloc, count)?,
            order: Vec::with_capacity(alloc, count)?,
            loose: Loose {
                marks: marks(alloc, count)?,
                first: 0,
            },
        })
    }
}

/// So many marks, all of them set.
fn marks(alloc: Global, count: usize) -> Result<Vec<bool>, AllocError>
    ensures { IfOk result (λ marks. length marks.items ≡ count) }
{
    Ok(vec![in alloc; true; count]?)
}
