//! The selection that states choose.
ghost use Rattle.std.specs.Prelude.{◌≡◌, ◌<◌, ℕ, List, length, IfOk, OnOk, option_map};
ghost use Rattle.std.specs.Map.{keys_of};
ghost use Rattle.offer_terms.specs.ById.{AreRising};
ghost use Rattle.offer_terms.specs.Offered.{version_in};
ghost use Rattle.book_graph.specs.StandsFor.{offer_in, id_of};
ghost use Rattle.book_graph.specs.Chosen.{chosen_version, IsSelectionOf, Puts};

use jl_versions::Version;
use offer_terms::{Book, Selection};
use pkg_world::Listed;
use std::alloc::{AllocError, Global};
use std::collections::BTreeMap;
use uuid::Uuid;

/// Versions by the identifiers of their packages.
type Versions = BTreeMap<Uuid, Version>;

/// The selection of the versions that the states choose, one state for each package of the book; a package in its last state
/// isn't selected. The one error is want of memory.
pub fn selection_of(alloc: Global, book: &Book, states: &[u32]) -> Result<Selection, AllocError>
    requires each { length states.now ≡ length book.now }
    ensures { IfOk result (λ selection. IsSelectionOf book.now states.now selection.items) }
{
    let versions = chosen_versions(alloc, book, states)?;
    listed(alloc, versions)
}

/// The version that is chosen of each package that isn't absent.
fn chosen_versions(alloc: Global, book: &Book, states: &[u32]) -> Result<Versions, AllocError>
    requires each { length states.now ≡ length book.now }
    ensures { IfOk result (λ versions. (u : List ℕ) → version_in versions.entries u ≡ chosen_version book.now states.now u) }
{
    let mut versions = BTreeMap::new(alloc);
    for package in 0..book.packages() {
        put_version(
            alloc,
            book,
            package,
            states[package as usize],
            &mut versions,
        )?;
    }
    Ok(versions)
}

/// Puts the version of the offer in the state's place, if there is one.
fn put_version(
    alloc: Global,
    book: &Book,
    package: u32,
    state: u32,
    versions: &mut Versions,
) -> Result<(), AllocError>
    requires { «package» < length book.now }
    ensures { OnOk result (Puts (id_of book.now «package») (option_map (λ x. x.version) (offer_in book.now «package» state)) versions.old.entries versions.new.entries) }
{
    let offers = book.offers(package);
    if (state as usize) < offers.len() {
        let version = offers[state as usize].version.copy(alloc)?;
        versions.insert(book.uuid(package), version)?;
    }
    Ok(())
}

/// These versions as a selection.
fn listed(alloc: Global, versions: Versions) -> Result<Selection, AllocError>
    ensures items { IfOk result (λ selection. selection.items ≡ versions.entries) }
    ensures rising { IfOk result (λ selection. AreRising (keys_of selection.items)) }
{
    let mut list = Listed::make(alloc);
    // The call tells the proof that the identifiers rise.
    let _count = versions.len();
    let mut left = versions;
    'versions: while let Some(entry) = left.pop_first() {
        list.push(entry)?;
    }
    Ok(Selection::of(list))
}
