//! The search of an instance.
ghost use Rattle.std.specs.Prelude.{IfOk};
ghost use Rattle.version_graph.specs.Graph.{IsPlain};
ghost use Rattle.graph_pruning.specs.Pruned.{Pruning};
ghost use Rattle.graph_pruning.specs.Reduced.{IsReduction};
ghost use Rattle.instance_search.specs.Searched.{EndsAtOnce, IsWalked, Searches};

use crate::answer::Answer;
use crate::finishing::finish;
use crate::rating::rate;
use decimation_repair::{Outcome, Search, found_is_solution};
use graph_pruning::{Reduced, prune};
use refutation_log::{Log, Node, NodeKind, renumber};
use std::alloc::{AllocError, Global};
use version_graph::{Domains, Instance, Trail};

/// Searches the instance, in which no two absent states may be forbidden together. It is pruned, the pruned instance is
/// searched with the weights of the states before pruning, and the answer is told by the numbers before pruning. What is
/// found is finished: packages that no root reaches are set absent, and packages are raised alone until none can be.
/// Where the closure has an empty domain, the log is one leaf, if the budget has a node. The one error is want of memory.
pub fn search_instance(
    alloc: Global,
    instance: &Instance,
    budget: u32,
) -> Result<Answer, AllocError>
    requires { IsPlain instance.now }
    ensures { IfOk result (Searches instance.now budget) }
{
    let mut domains = Domains::full(alloc, instance)?;
    let mut trail = Trail::make(alloc, instance)?;
    let pruned = prune(alloc, instance, &mut domains, &mut trail)?;
    if !pruned.is_open {
        return dead_end(alloc, budget);
    }
    let reduced = pruned.reduced(alloc, instance, &domains)?;
    search_reduced(alloc, instance, &reduced, budget)
}

/// Ends at once, since the closure has an empty domain.
fn dead_end(alloc: Global, budget: u32) -> Result<Answer, AllocError>
    ensures { IfOk result (EndsAtOnce budget) }
{
    let mut log = Log::make(alloc);
    if budget == 0 {
        return Ok(Answer::Spent(log));
    }
    log.push(Node {
        state: None,
        kind: NodeKind::Leaf,
    })?;
    Ok(Answer::Empty(log))
}

/// Searches the pruned instance.
fn search_reduced(
    alloc: Global,
    instance: &Instance,
    reduced: &Reduced,
    budget: u32,
) -> Result<Answer, AllocError>
    requires plain { IsPlain instance.now }
    requires reduced { (pr : Pruning) × IsReduction instance.now pr reduced.now.instance reduced.now.back }
    ensures { IfOk result (IsWalked instance.now budget) }
{
    found_is_solution();
    // what is true of every instance
    let _packages = reduced.instance.packages();
    let fields = rate(alloc, instance, reduced)?;
    let search = Search::make(alloc, &reduced.instance, &fields, budget)?;
    match search.run() {
        Outcome::Found(chosen, log) => {
            let states = finish(alloc, instance, reduced, chosen.items())?;
            Ok(Answer::Found(states, log.items().len() as u32))
        }
        Outcome::Empty(log) => Ok(Answer::Empty(renumber(alloc, &log, &reduced.back)?)),
        Outcome::Spent(log) => Ok(Answer::Spent(renumber(alloc, &log, &reduced.back)?)),
    }
}
