//! Resolving a demand over a book.
ghost use Rattle.std.specs.Prelude.{IfOk, IfErr};
ghost use Rattle.offer_terms.specs.Demanded.{wanted};
ghost use Rattle.book_graph.specs.StandsFor.{StandsFor, IsBook};
ghost use Rattle.book_graph.specs.Limits.{Fits};
ghost use Rattle.resolve_core.specs.Resolved.{IsResolved, IsRefused};

use crate::fault::{ResolveFault, of_limit};
use crate::resolved::Resolved;
use book_graph::{make_instance, selection_of, stands_plain};
use instance_search::{Answer, found_is_finished, search_instance};
use offer_terms::{Book, Demand};
use std::alloc::Global;
use version_graph::Instance;

/// Resolves the demand over the book: a selection that is valid over what the book offers, and in which no package can be
/// raised alone. Refused where a limit of instances is passed; as Unsatisfiable where no selection is feasible and the search
/// fits the budget, with a log that certifies it; as GaveUp where the search has more nodes than the budget and finds no
/// solution before, with a log of as many nodes; and for want of memory.
pub fn resolve(
    alloc: Global,
    book: &Book,
    demand: &Demand,
    budget: u32,
) -> Result<Resolved, ResolveFault>
    ensures ok { IfOk result (IsResolved book.now (wanted demand.now) budget) }
    ensures err { IfErr result (IsRefused book.now (wanted demand.now) budget) }
    ensures sound { IsBook book.now }
{
    match make_instance(alloc, book, demand) {
        Ok(instance) => resolve_in(alloc, book, demand, &instance, budget),
        Err(fault) => Err(of_limit(fault)),
    }
}

/// Resolves the demand in the instance that stands for it.
fn resolve_in(
    alloc: Global,
    book: &Book,
    demand: &Demand,
    instance: &Instance,
    budget: u32,
) -> Result<Resolved, ResolveFault>
    requires stands { StandsFor book.now (wanted demand.now) instance.now }
    requires fits { Fits book.now (wanted demand.now) }
    ensures ok { IfOk result (IsResolved book.now (wanted demand.now) budget) }
    ensures err { IfErr result (IsRefused book.now (wanted demand.now) budget) }
{
    stands_plain();
    found_is_finished();
    // what is true of every instance
    let _packages = instance.packages();
    let answer = search_instance(alloc, instance, budget)?;
    match answer {
        Answer::Found(states, nodes) => {
            let selection = selection_of(alloc, book, states.items())?;
            Ok(Resolved { selection, nodes })
        }
        Answer::Empty(log) => Err(ResolveFault::Unsatisfiable(log)),
        Answer::Spent(log) => Err(ResolveFault::GaveUp(log)),
    }
}
