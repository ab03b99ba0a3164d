//! Which package can be raised alone.
ghost use Rattle.std.specs.Prelude.{◌≡◌, ◌<◌, ℕ, length, Some, MatchOption, MatchBool};
ghost use Rattle.jl_versions.specs.Triple.{triple_of};
ghost use Rattle.offer_terms.specs.Offered.{version_in, offering};
ghost use Rattle.offer_terms.specs.Booked.{package_at, book_offers};
ghost use Rattle.offer_terms.specs.Demanded.{wanted};
ghost use Rattle.offer_terms.specs.Feasible.{IsValid};
ghost use Rattle.selection_check.specs.Raises.{IsLeastAt, IsLeastRaise, RaisesNone, HasFewOffers};
ghost use Rattle.selection_check.specs.Passing.{IsMet, Passes, NonePasses, IsFirstPass};
ghost use Rattle.selection_check.specs.Scratch.{IsScratchFor, IsTableFor};

use crate::breaches::{missing_dep_of, outside_of};
use crate::checking::julia_version;
use crate::opening::open_allowed;
use crate::scratch::Scratch;
use bit_rows::BitTable;
use jl_versions::Version;
use offer_terms::{Book, Demand, Offer, Selection};
use uuid::Uuid;

/// The least package of a valid selection that can be raised alone, with the place of the least such offer of it: one that is
/// greater than the selected one, and with which the selection stays feasible. None where no package can be raised. It
/// takes no memory.
///
/// The time is that of the offers of each package times the entries of compat on it, and of the entries of those offers that
/// no such entry shuts, up to the one that is answered.
pub fn raisable(
    book: &Book,
    demand: &Demand,
    selection: &Selection,
    scratch: &mut Scratch,
) -> Option<(u32, u32)>
    requires valid { IsValid (book_offers book.now) (wanted demand.now) selection.now.items }
    requires few { HasFewOffers book.now }
    requires made { IsScratchFor book.now scratch.old }
    ensures raise { MatchOption result
        (RaisesNone book.now (wanted demand.now) selection.now.items)
        (λ raise. IsLeastRaise book.now (wanted demand.now) selection.now.items raise.0 raise.1) }
    ensures made { IsScratchFor book.now scratch.new }
{
    let julia = julia_version(scratch.alloc, demand.julia);
    open_allowed(book, demand, selection, &mut scratch.table);
    least_raise(book, &julia, selection, &scratch.table)
}

/// The first package, and the place of its first offer, that pass.
fn least_raise(
    book: &Book,
    julia: &Version,
    selection: &Selection,
    table: &BitTable,
) -> Option<(u32, u32)>
    requires few { HasFewOffers book.now }
    requires made { IsTableFor book.now table.now }
    ensures { MatchOption result
        ((p j : ℕ) → Passes book.now (triple_of julia.now) selection.now.items table.now p j → ⊥)
        (λ raise. IsLeastAt (Passes book.now (triple_of julia.now) selection.now.items table.now) raise.0 raise.1) }
{
    for package in 0..book.packages() {
        if let Some(place) = raise_of(book, julia, selection, table, package) {
            return Some((package, place));
        }
    }
    None
}

/// The place of the package's first offer that passes.
fn raise_of(
    book: &Book,
    julia: &Version,
    selection: &Selection,
    table: &BitTable,
    package: u32,
) -> Option<u32>
    requires few { HasFewOffers book.now }
    requires made { IsTableFor book.now table.now }
    requires known { «package» < length book.now }
    ensures { MatchOption result
        (NonePasses book.now (triple_of julia.now) selection.now.items table.now «package»)
        (IsFirstPass book.now (triple_of julia.now) selection.now.items table.now «package») }
{
    match selection.version_of(&book.uuid(package)) {
        Some(version) => raise_above(book, julia, selection, table, package, version),
        None => None,
    }
}

/// The place of the package's first offer that passes, where this version of it is selected.
fn raise_above(
    book: &Book,
    julia: &Version,
    selection: &Selection,
    table: &BitTable,
    package: u32,
    version: &Version,
) -> Option<u32>
    requires few { HasFewOffers book.now }
    requires made { IsTableFor book.now table.now }
    requires known { «package» < length book.now }
    requires selected { version_in selection.now.items (package_at book.now «package»).uuid ≡ Some version.now }
    ensures { MatchOption result
        (NonePasses book.now (triple_of julia.now) selection.now.items table.now «package»)
        (IsFirstPass book.now (triple_of julia.now) selection.now.items table.now «package») }
{
    let count = book.offers(package).len() as u32;
    for place in 0..count {
        if passes(book, julia, selection, table, package, place, version) {
            return Some(place);
        }
    }
    None
}

/// Whether an offer of the package is greater than its selected version, is open, and needs and allows what is selected.
fn passes(
    book: &Book,
    julia: &Version,
    selection: &Selection,
    table: &BitTable,
    package: u32,
    place: u32,
    version: &Version,
) -> bool
    requires few { HasFewOffers book.now }
    requires made { IsTableFor book.now table.now }
    requires known { «package» < length book.now }
    requires inside { place < length (package_at book.now «package»).offers }
    requires selected { version_in selection.now.items (package_at book.now «package»).uuid ≡ Some version.now }
    ensures { MatchBool result
        (Passes book.now (triple_of julia.now) selection.now.items table.now «package» place)
        (Passes book.now (triple_of julia.now) selection.now.items table.now «package» place → ⊥) }
{
    // With the count comes that the book has each identifier once.
    let _count = book.packages();
    let offer = &book.offers(package)[place as usize];
    if !table.get(package, place) || !version.cmp(&offer.version).is_lt() {
        return false;
    }
    is_met(book, julia, selection, &book.uuid(package), offer)
}

/// Whether all that the offer depends on is selected, and is as it allows.
fn is_met(book: &Book, julia: &Version, selection: &Selection, uuid: &Uuid, offer: &Offer) -> bool
    ensures { MatchBool result
        (IsMet (triple_of julia.now) selection.now.items uuid.now (offering offer.now))
        (IsMet (triple_of julia.now) selection.now.items uuid.now (offering offer.now) → ⊥) }
{
    match missing_dep_of(book, selection, uuid, offer.deps.items()) {
        Some(_) => false,
        None => match outside_of(book, julia, selection, uuid, offer.compat.items()) {
            Some(_) => false,
            None => true,
        },
    }
}
