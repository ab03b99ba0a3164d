//! From a solution of the pruned instance to a finished one.
ghost use Rattle.std.specs.Prelude.{ℕ, List, IfOk};
ghost use Rattle.version_graph.specs.Graph.{IsPlain, IsSolution};
ghost use Rattle.graph_pruning.specs.Pruned.{Pruning};
ghost use Rattle.graph_pruning.specs.Reduced.{IsReduction};
ghost use Rattle.instance_search.specs.Searched.{IsFinishedFrom};

use graph_pruning::Reduced;
use pkg_world::States;
use raise_pass::{RaiseScratch, raise};
use std::alloc::{AllocError, Global};
use version_graph::Instance;

/// The finished solution that comes of a solution of the pruned instance: its states by their numbers before pruning,
/// every other package absent, and then trimmed and raised on the instance itself. The one error is want of memory.
pub(crate) fn finish(
    alloc: Global,
    instance: &Instance,
    reduced: &Reduced,
    chosen: &[u32],
) -> Result<States, AllocError>
    requires plain { IsPlain instance.now }
    requires reduced { (pr : Pruning) × IsReduction instance.now pr reduced.now.instance reduced.now.back }
    requires solution { IsSolution reduced.now.instance chosen.now }
    ensures { IfOk result (λ states. (pr : Pruning) → IsReduction instance.now pr reduced.now.instance reduced.now.back →
        IsFinishedFrom instance.now pr reduced.now.instance reduced.now.back chosen.now states.items) }
{
    let roots = instance.roots(alloc)?;
    let needs = instance.needs(alloc)?;
    let mut scratch = RaiseScratch::make(alloc, instance)?;
    let mut states = reduced.widened(alloc, instance, chosen)?;
    raise(instance, roots.items(), &needs, &mut states, &mut scratch);
    Ok(states)
}
