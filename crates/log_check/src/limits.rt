//! The limits of the instance that stands for a book and a demand.
ghost use Rattle.std.specs.Prelude.{◌≡◌, IfErr, OnOk};
ghost use Rattle.offer_terms.specs.Demanded.{wanted};
ghost use Rattle.book_graph.specs.Limits.{IsPast, Fits};
ghost use Rattle.command_answers.specs.Answers.{NoFault, IsLate, IsUnprinted};
ghost use Rattle.log_check.specs.Limited as spec;

use book_graph::make_instance;
use command_answers::Status;
use offer_terms::{Book, Demand};
use std::alloc::Global;
use version_graph::GraphFault;

/// Refused where the instance of the book and the demand passes a limit, and for want of memory. The instance is made for this
/// alone.
pub fn within_limits(alloc: Global, book: &Book, demand: &Demand) -> Result<(), GraphFault>
    ensures fits { OnOk result (Fits book.now (wanted demand.now)) }
    ensures past { IfErr result (IsPast book.now (wanted demand.now)) }
{
    let _instance = make_instance(alloc, book, demand)?;
    Ok(())
}

/// The status that tells why there is no instance.
pub fn limit_status(fault: GraphFault) -> Status
    ensures told { result ≡ spec.limit_status fault }
    ensures late { IsLate result }
    ensures unprinted { IsUnprinted result }
    ensures fault { NoFault result }
{
    match fault {
        GraphFault::Limit(kind, count) => Status::Limit(kind, count),
        GraphFault::Memory => Status::Memory,
    }
}
