//! The book of a command.
ghost use Rattle.std.specs.Prelude.{◌≡◌, ◌≤◌, Ok, IfSome, IfErr, MatchResult};
ghost use Rattle.offer_terms.specs.Demanded.{wanted};
ghost use Rattle.command_answers.specs.Answers.{Refuses, ReadFaultRose, IsLate, IsUnprinted};
ghost use Rattle.project_phases.specs.Phases as spec;

use crate::refusals::book_status;
use command_answers::Status;
use offer_book::{Book, Catalog, Demand, gather};
use pkg_world::{Ids, Store};
use std::alloc::Global;

/// The book of a demand, with these packages beside the roots.
///
/// Refusals, of which the first that is due comes: MissingFile and BadFile of the tables of the packages that are reached;
/// UnknownPackage; Limit of packages. ReadFault comes where the store fails, and want of memory is free.
pub fn gather_book<S: Store>(
    alloc: Global,
    store: &mut S,
    catalog: &Catalog,
    demand: &Demand,
    extra: &Ids,
) -> Result<Book, Status>
    ensures told { IfSome (S.files store.old) (λ all. MatchResult result
        (λ book. spec.booked_in all catalog.now (wanted demand.now) extra.now.items ≡ Ok book)
        (Refuses (spec.booked_in all catalog.now (wanted demand.now) extra.now.items))) }
    ensures late { IfErr result IsLate }
    ensures unprinted { IfErr result IsUnprinted }
    ensures fault { IfErr result (ReadFaultRose (S.read_faults store.old) (S.read_faults store.new)) }
    ensures files { S.files store.new ≡ S.files store.old }
    ensures later { S.read_faults store.old ≤ S.read_faults store.new }
    ensures other { S.write_faults store.new ≡ S.write_faults store.old }
{
    match gather(alloc, store, catalog, demand, extra) {
        Ok(book) => Ok(book),
        Err(fault) => Err(book_status(fault)),
    }
}
