//! Which offers of the book's packages all others allow.
ghost use Rattle.std.specs.Prelude.{◌≡◌, ◌<◌, ◌≤◌, ◌^◌, ◌&&◌, ℕ, Bool, List, length, map};
ghost use Rattle.bit_rows.specs.Rows.{row_at};
ghost use Rattle.jl_versions.specs.Triple.{triple_of};
ghost use Rattle.offer_terms.specs.Offered.{allowing};
ghost use Rattle.offer_terms.specs.Demanded.{wanted, spec_entry, version_entry};
ghost use Rattle.selection_check.specs.Raises.{HasFewOffers};
ghost use Rattle.selection_check.specs.Scratch.{IsTableFor};
ghost use Rattle.selection_check.specs.Opening.{is_open, HasSamePlaces, Narrows, NarrowsRow, AllowsOf, AllowsOther, IsFree, IsWithin, IsWithinOffer, IsWithinFirst, AreOpen};

use crate::selected::compat_of;
use bit_rows::BitTable;
use compat_spec::{Allowed, Spec};
use jl_versions::Version;
use offer_terms::{Book, Demand, Offer, Selection, SpecId, VersionPair};
use uuid::Uuid;

/// A test of versions.
trait Rule {
    ghost allows: { Self → List ℕ → Bool };

    /// Whether the version passes. Takes no memory.
    fn holds(&self, version: &Version) -> bool
        ensures { result ≡ allows self.now (triple_of version.now) };
}

impl Rule for Spec {
    ghost use Rattle.compat_spec.specs.Meaning.{specifier_holds};

    ghost allows = { specifier_holds };

    fn holds(&self, version: &Version) -> bool {
        self.holds(version)
    }
}

impl Rule for Allowed {
    ghost use Rattle.compat_spec.specs.Admitted.{allowed_holds};

    ghost allows = { allowed_holds };

    fn holds(&self, version: &Version) -> bool {
        self.holds(version)
    }
}

/// The test that no version passes.
#[derive(Clone, Copy)]
struct Never;

impl Rule for Never {
    ghost use Rattle.std.specs.Prelude.{false};

    ghost allows = { λ _ _. false };

    fn holds(&self, _version: &Version) -> bool {
        false
    }
}

/// Leaves open in the table what the demand and the selected offers of other packages allow.
pub(crate) fn open_allowed(
    book: &Book,
    demand: &Demand,
    selection: &Selection,
    table: &mut BitTable,
)
    requires few { HasFewOffers book.now }
    requires made { IsTableFor book.now table.old }
    ensures opens { AreOpen book.now (wanted demand.now) selection.now.items table.new }
    ensures made { IsTableFor book.now table.new }
{
    table.fill();
    shut_pinned(book, demand.pins.items(), table);
    shut_pinned(book, demand.held.items(), table);
    shut_project(book, demand.compat.items(), table);
    shut_selected(book, selection, table);
}

/// Shuts the packages of these pins.
fn shut_pinned(book: &Book, pins: &[VersionPair], table: &mut BitTable)
    requires few { HasFewOffers book.now }
    requires made { IsTableFor book.now table.old }
    ensures narrows { Narrows book.now table.old table.new (IsFree (map version_entry pins.now)) }
    ensures made { IsTableFor book.now table.new }
{
    for pin in pins {
        shut(book, table, &pin.uuid, &Never);
    }
}

/// Shuts what the project's compat doesn't allow.
fn shut_project(book: &Book, entries: &[SpecId], table: &mut BitTable)
    requires few { HasFewOffers book.now }
    requires made { IsTableFor book.now table.old }
    ensures narrows { Narrows book.now table.old table.new (IsWithin (map spec_entry entries.now)) }
    ensures made { IsTableFor book.now table.new }
{
    for entry in entries {
        shut(book, table, &entry.uuid, &entry.spec);
    }
}

/// Shuts what the selected offers of other packages don't allow.
fn shut_selected(book: &Book, selection: &Selection, table: &mut BitTable)
    requires few { HasFewOffers book.now }
    requires made { IsTableFor book.now table.old }
    ensures narrows { Narrows book.now table.old table.new (IsWithinFirst book.now selection.now.items (length book.now)) }
    ensures made { IsTableFor book.now table.new }
{
    for package in 0..book.packages() {
        let entries = compat_of(book, selection, package);
        shut_others(book, &book.uuid(package), entries, table);
    }
}

/// Shuts what the compat of an offer of that package doesn't allow of other packages.
fn shut_others(book: &Book, uuid: &Uuid, entries: &[(Uuid, Allowed)], table: &mut BitTable)
    requires few { HasFewOffers book.now }
    requires made { IsTableFor book.now table.old }
    ensures narrows { Narrows book.now table.old table.new (IsWithinOffer uuid.now (map allowing entries.now)) }
    ensures made { IsTableFor book.now table.new }
{
    for entry in entries {
        shut_other(book, uuid, entry, table);
    }
}

/// Shuts what an entry of that package's compat doesn't allow of another package.
fn shut_other(book: &Book, uuid: &Uuid, entry: &(Uuid, Allowed), table: &mut BitTable)
    requires few { HasFewOffers book.now }
    requires made { IsTableFor book.now table.old }
    ensures narrows { Narrows book.now table.old table.new (AllowsOther uuid.now (allowing entry.now)) }
    ensures made { IsTableFor book.now table.new }
{
    if entry.0 != *uuid {
        shut(book, table, &entry.0, &entry.1);
    }
}

/// Shuts the offers of a package that don't pass the test.
fn shut<R: Rule>(book: &Book, table: &mut BitTable, uuid: &Uuid, rule: &R)
    requires few { HasFewOffers book.now }
    requires made { IsTableFor book.now table.old }
    ensures narrows { Narrows book.now table.old table.new (AllowsOf uuid.now (R.allows rule.now)) }
    ensures made { IsTableFor book.now table.new }
{
    // With the count comes that the book has each identifier once.
    let _count = book.packages();
    match book.number(uuid) {
        Some(package) => shut_row(book.offers(package), table, package, rule),
        None => {}
    }
}

/// Shuts these offers of a package where they don't pass the test.
fn shut_row<R: Rule>(offers: &[Offer], table: &mut BitTable, package: u32, rule: &R)
    requires few { length offers.now < 2 ^ 32 }
    requires known { «package» < length table.old }
    requires wide { length offers.now ≤ length (row_at table.old «package») }
    ensures { NarrowsRow offers.now table.old table.new «package» (length offers.now) (R.allows rule.now) }
{
    for place in 0..offers.len() as u32 {
        let holds = rule.holds(&offers[place as usize].version);
        keep_if(table, package, place, holds);
    }
}

/// Shuts the place unless it is to be kept.
fn keep_if(table: &mut BitTable, package: u32, place: u32, keeps: bool)
    requires known { «package» < length table.old }
    requires inside { place < length (row_at table.old «package») }
    ensures places { HasSamePlaces table.old table.new }
    ensures here { is_open table.new «package» place ≡ (is_open table.old «package» place && keeps) }
    ensures others { (q j : ℕ) → (q ≡ «package» → j ≡ place → ⊥) → is_open table.new q j ≡ is_open table.old q j }
{
    if !keeps {
        table.clear(package, place);
    }
}
