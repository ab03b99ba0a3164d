//! The scratch values of the check of a log.
ghost use Rattle.std.specs.Prelude.{◌≡◌, ◌<◌, ◌↔◌, ℕ, false, not, length, slice_index_or, IfOk, IsTrue};
ghost use Rattle.version_graph.specs.Graph.{packages};
ghost use Rattle.graph_pruning.specs.Marked.{marked};
ghost use Rattle.refutation_log.specs.Refutes.{IsRefutation};

use crate::board::Board;
use crate::node::Node;
use graph_pruning::{Classes, Kept, Pruned, one_pruning, prune, undo_to};
use std::alloc::{AllocError, Global};
use version_graph::{Domains, Instance, Trail};

/// What the check of a log works on, made once for an instance, so that the check itself takes no memory.
#[derive(Drop)]
pub struct RefuteScratch {
    board: Board,
    /// Which state stands for a state.
    classes: Classes,
}

impl RefuteScratch {
    ghost use Rattle.refutation_log.specs.Scratch.{IsScratchFor};

    /// Makes the scratch values for an instance, and finds its pruning. The one error is want of memory.
    pub fn make(alloc: Global, instance: &Instance) -> Result<Self, AllocError>
        ensures { IfOk result (IsScratchFor instance.now) }
    {
        let mut domains = Domains::full(alloc, instance)?;
        let mut trail = Trail::make(alloc, instance)?;
        let Pruned { kept, classes, .. } = prune(alloc, instance, &mut domains, &mut trail)?;
        undo_to(&mut domains, &mut trail, 0);
        let missing = Domains::full(alloc, instance)?;
        let missed = Trail::make(alloc, instance)?;
        let shut = shut_packages(alloc, instance, &kept)?;
        let board = Board {
            domains,
            trail,
            missing,
            missed,
            shut,
        };
        Ok(RefuteScratch { board, classes })
    }

    /// Whether the nodes are one whole tree that refutes the instance where nothing is chosen.
    pub(crate) fn accepts(&mut self, instance: &Instance, nodes: &[Node]) -> bool
        requires { IsScratchFor instance.now self.old }
        ensures exact { IsTrue result ↔ IsRefutation instance.now nodes.now }
        ensures made { IsScratchFor instance.now self.new }
    {
        let Some((first, _)) = nodes.split_first() else {
            return false;
        };
        if first.state.is_some() {
            return false;
        }
        one_pruning();
        self.board.accepts(instance, &self.classes, nodes)
    }
}

/// For each package whether no branch may be on it where nothing is chosen.
fn shut_packages(alloc: Global, instance: &Instance, kept: &Kept) -> Result<Vec<bool>, AllocError>
    requires { length kept.now ≡ packages instance.now }
    ensures each { IfOk result (λ shut. length shut.items ≡ packages instance.now) }
    ensures shut { IfOk result (λ shut. (p : ℕ) → p < packages instance.now → slice_index_or shut.items p false ≡ not (marked kept.now p)) }
{
    let mut shut = Vec::new(alloc);
    for p in 0..instance.packages() {
        shut.push(!kept.has(p))?;
    }
    Ok(shut)
}
