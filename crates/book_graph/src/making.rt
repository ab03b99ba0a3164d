//! The instance of a book and a demand.
ghost use Rattle.std.specs.Prelude.{◌≡◌, ◌≤◌, ◌<◌, ◌^◌, sum, length, IfOk, IfErr, OnOk};
ghost use Rattle.jl_versions.specs.Triple.{triple_of};
ghost use Rattle.offer_terms.specs.Demanded.{wanted};
ghost use Rattle.version_graph.specs.Graph.{IsOpen};
ghost use Rattle.book_graph.specs.StandsFor.{sizes_of, StandsFor, IsBook};
ghost use Rattle.book_graph.specs.Limits.{IsPast, Fits};
ghost use Rattle.book_graph.specs.Building.{IsSized};

use crate::barring::bar_states;
use crate::forbidding::forbid_excluded;
use crate::rules::Julia;
use crate::sizes::{sizes_of, state_total};
use jl_versions::Version;
use offer_terms::{Book, Demand};
use pkg_world::LimitKind;
use std::alloc::{AllocError, Global};
use version_graph::{GraphFault, Instance, InstanceBuilder};

const MOST_PACKAGES: u32 = 4096;

const MOST_STATES: u64 = 65536;

/// The instance that stands for the book and the demand: a package for each of the book's, with a state for each of its
/// offers and a last one that says that it is absent. Refused where there are more than 4,096 packages, which carries 4,097;
/// then where there are more than 65,536 states, where the sum over neighbouring packages of the product of their states
/// passes 2^30, and where that of the sum of their states passes 2^25, each with its whole count; and for want of memory.
///
/// The time is that of the entries of all offers' compat, each with the offers of the package that it is on.
pub fn make_instance(alloc: Global, book: &Book, demand: &Demand) -> Result<Instance, GraphFault>
    ensures stands { IfOk result (StandsFor book.now (wanted demand.now)) }
    ensures fits { OnOk result (Fits book.now (wanted demand.now)) }
    ensures past { IfErr result (IsPast book.now (wanted demand.now)) }
    ensures sound { IsBook book.now }
{
    let total = state_total(book);
    if book.packages() > MOST_PACKAGES {
        return Err(GraphFault::Limit(LimitKind::Packages, 4097));
    }
    if total > MOST_STATES {
        return Err(GraphFault::Limit(LimitKind::States, total));
    }
    let mut builder = open_builder(alloc, book)?;
    let julia = julia_of(alloc, demand);
    bar_states(book, demand, &julia, &mut builder);
    forbid_excluded(book, &mut builder)?;
    builder.finish(alloc)
}

/// An instance with the states of the book's packages, in which nothing is forbidden. No limit is passed, so the one error is
/// want of memory.
fn open_builder(alloc: Global, book: &Book) -> Result<InstanceBuilder, AllocError>
    requires few { length book.now ≤ 4096 }
    requires small { sum (sizes_of book.now) ≤ 65536 }
    ensures sized { IfOk result (λ builder. IsSized book.now builder) }
    ensures open { IfOk result (λ builder. IsOpen builder) }
{
    let sizes = sizes_of(alloc, book)?;
    match InstanceBuilder::make(alloc, sizes.as_slice()) {
        Ok(builder) => Ok(builder),
        Err(_) => Err(AllocError),
    }
}

/// Julia's version.
fn julia_of(alloc: Global, demand: &Demand) -> Julia
    ensures { triple_of result.version ≡ demand.now.julia }
{
    // With the iterator comes that there are three numbers.
    let _numbers = demand.julia.into_iter();
    Julia {
        version: Version::of(alloc, demand.julia),
    }
}
