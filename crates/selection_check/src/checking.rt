//! The verdict on a selection.
ghost use Rattle.std.specs.Prelude.{◌≡◌, ◌<◌, length, MatchBool, MatchOption};
ghost use Rattle.jl_versions.specs.Triple.{triple_of};
ghost use Rattle.offer_terms.specs.Booked.{package_at, book_offers};
ghost use Rattle.offer_terms.specs.Demanded.{wanted};
ghost use Rattle.offer_terms.specs.Feasible.{IsFeasible};
ghost use Rattle.selection_check.specs.Order.{id_cmp, FirstOf};
ghost use Rattle.selection_check.specs.Breaches.{IsSpare};
ghost use Rattle.selection_check.specs.Verdicts.{IsFirstBreach, IsVerdict};
ghost use Rattle.selection_check.specs.Scratch.{IsScratchFor};
ghost use Rattle.selection_check.specs.Needing.{IsUnmarked};

use crate::breaches::{
    broken_pin, missing_dep, missing_offer, missing_root, outside, outside_project,
};
use crate::needing::{is_set, mark_needed};
use crate::scratch::Scratch;
use crate::selected::is_selected;
use crate::verdict::Verdict;
use jl_versions::Version;
use offer_terms::{Book, Demand, Selection};
use std::alloc::Global;
use uuid::Uuid;

/// Whether the selection is valid, or the first clause that it breaks, in the order of the verdicts. It takes no memory.
///
/// The time is that of the entries of the selection, of the selected offers and of the demand, each with a look-up.
pub fn check(book: &Book, demand: &Demand, selection: &Selection, scratch: &mut Scratch) -> Verdict
    requires made { IsScratchFor book.now scratch.old }
    ensures verdict { IsVerdict book.now (wanted demand.now) selection.now.items result }
    ensures made { IsScratchFor book.now scratch.new }
{
    let julia = julia_version(scratch.alloc, demand.julia);
    if let Some(verdict) = breach(book, demand, &julia, selection) {
        return verdict;
    }
    match spare(book, demand, selection, scratch) {
        Some(uuid) => Verdict::Unneeded(uuid),
        None => Verdict::Good,
    }
}

/// The version of these three numbers.
pub(crate) fn julia_version(alloc: Global, triple: [u32; 3]) -> Version
    ensures { triple_of result ≡ triple }
{
    // With the iterator comes that there are three.
    let _numbers = triple.into_iter();
    Version::of(alloc, triple)
}

/// The first clause that keeps the selection from being feasible.
fn breach(book: &Book, demand: &Demand, julia: &Version, selection: &Selection) -> Option<Verdict>
    requires { triple_of julia.now ≡ demand.now.julia }
    ensures { MatchOption result
        (IsFeasible (book_offers book.now) (wanted demand.now) selection.now.items)
        (IsFirstBreach book.now (wanted demand.now) selection.now.items) }
{
    // With the items comes that each package stands once among them.
    let _pairs = selection.items();
    if let Some(uuid) = missing_root(book, demand, selection) {
        return Some(Verdict::MissingRoot(uuid));
    }
    if let Some(uuid) = missing_offer(book, selection) {
        return Some(Verdict::NoOffer(uuid));
    }
    if let Some(pair) = missing_dep(book, selection) {
        return Some(Verdict::MissingDep(pair.0, pair.1));
    }
    if let Some(uuid) = outside_project(book, demand, selection) {
        return Some(Verdict::Outside(None, uuid));
    }
    if let Some(pair) = outside(book, julia, selection) {
        return Some(Verdict::Outside(Some(pair.0), pair.1));
    }
    match broken_pin(book, demand, selection) {
        Some(uuid) => Some(Verdict::PinBroken(uuid)),
        None => None,
    }
}

/// The first selected package that isn't needed.
fn spare(book: &Book, demand: &Demand, selection: &Selection, scratch: &mut Scratch) -> Option<Uuid>
    requires feasible { IsFeasible (book_offers book.now) (wanted demand.now) selection.now.items }
    requires made { IsScratchFor book.now scratch.old }
    ensures first { FirstOf (id_cmp book.now) (IsSpare (book_offers book.now) (wanted demand.now) selection.now.items) result }
    ensures made { IsScratchFor book.now scratch.new }
{
    mark_needed(
        book,
        demand,
        selection,
        &mut scratch.marks,
        &mut scratch.order,
    );
    unmarked(book, selection, &scratch.marks)
}

/// The first selected package that isn't marked.
fn unmarked(book: &Book, selection: &Selection, marks: &[bool]) -> Option<Uuid>
    requires each { length marks.now ≡ length book.now }
    ensures { FirstOf (id_cmp book.now) (IsUnmarked book.now selection.now.items marks.now) result }
{
    for package in 0..book.packages() {
        if is_unmarked(book, selection, marks, package) {
            return Some(book.uuid(package));
        }
    }
    None
}

/// Whether the package is selected and isn't marked.
fn is_unmarked(book: &Book, selection: &Selection, marks: &[bool], package: u32) -> bool
    requires known { «package» < length book.now }
    requires each { length marks.now ≡ length book.now }
    ensures { MatchBool result
        (IsUnmarked book.now selection.now.items marks.now (package_at book.now «package»).uuid)
        (IsUnmarked book.now selection.now.items marks.now (package_at book.now «package»).uuid → ⊥) }
{
    // With the count comes that the book has each identifier once.
    let _count = book.packages();
    !is_set(marks, package) && is_selected(selection, &book.uuid(package))
}
