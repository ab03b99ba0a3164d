//! The check of a log over a book and a demand.
ghost use Rattle.std.specs.Prelude.{IfOk, IfErr, true, ◌≡◌};
ghost use Rattle.offer_terms.specs.Demanded.{wanted};
ghost use Rattle.book_graph.specs.StandsFor.{StandsFor, IsBook};
ghost use Rattle.book_graph.specs.Limits.{IsPast};
ghost use Rattle.resolve_core.specs.Resolved.{IsVerdict};
ghost use Rattle.resolve_core.specs.Laws.{NoneFeasible};

use book_graph::{make_instance, none_is_feasible, stands_plain};
use offer_terms::{Book, Demand};
use refutation_log::{Log, RefuteScratch, refutes};
use std::alloc::{AllocError, Global};
use version_graph::Instance;

/// Why a log isn't checked: the instance passes a limit, or want of memory.
pub use version_graph::GraphFault as VerifyFault;

/// Whether the log refutes the instance that stands for the book and the demand. Where it does, no selection is feasible over
/// what the book offers, whoever made the log. Any list of nodes may be handed in. Refused where a limit of instances is
/// passed, and for want of memory.
pub fn verify_log(
    alloc: Global,
    book: &Book,
    demand: &Demand,
    log: &Log,
) -> Result<bool, VerifyFault>
    ensures verdict { IfOk result (IsVerdict book.now (wanted demand.now) log.now.items) }
    ensures none { IfOk result (λ accepts. accepts ≡ true → NoneFeasible book.now (wanted demand.now)) }
    ensures past { IfErr result (IsPast book.now (wanted demand.now)) }
    ensures sound { IsBook book.now }
{
    match make_instance(alloc, book, demand) {
        Ok(instance) => Ok(verify_in(alloc, book, demand, &instance, log)?),
        Err(fault) => Err(fault),
    }
}

/// Whether the log refutes the instance, which stands for the book and the demand.
fn verify_in(
    alloc: Global,
    book: &Book,
    demand: &Demand,
    instance: &Instance,
    log: &Log,
) -> Result<bool, AllocError>
    requires stands { StandsFor book.now (wanted demand.now) instance.now }
    requires sound { IsBook book.now }
    ensures verdict { IfOk result (IsVerdict book.now (wanted demand.now) log.now.items) }
    ensures none { IfOk result (λ accepts. accepts ≡ true → NoneFeasible book.now (wanted demand.now)) }
{
    stands_plain();
    none_is_feasible();
    let mut scratch = RefuteScratch::make(alloc, instance)?;
    Ok(refutes(instance, log, &mut scratch))
}
