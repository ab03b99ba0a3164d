//! The first breach of each clause: of an offer, of a package, and of the selection.
ghost use Rattle.std.specs.Prelude.{◌≡◌, ◌<◌, length, map, MatchBool};
ghost use Rattle.jl_versions.specs.Triple.{triple_of};
ghost use Rattle.offer_terms.specs.Offered.{allowing};
ghost use Rattle.offer_terms.specs.Booked.{package_at, book_offers};
ghost use Rattle.offer_terms.specs.Demanded.{spec_entry, version_entry};
ghost use Rattle.selection_check.specs.Order.{id_cmp, both_cmp, FirstOf, first_id};
ghost use Rattle.selection_check.specs.Breaches.{LacksOffer, LacksDep, Excludes};
ghost use Rattle.selection_check.specs.Found.{lacking, lacking_other, unheld, outside_spec, refuses_julia, refuses_other, outside_entry, off_pin, first_lacking, first_unheld, first_lacking_other, first_outside_spec, first_outside, first_off_pin};

use crate::ranking::first_id;
use crate::selected::{compat_of, deps_of, is_selected, selected_offer};
use compat_spec::Allowed;
use jl_versions::Version;
use offer_terms::{Book, Demand, Selection, SpecId, VersionPair, julia_uuid};
use pkg_world::Name;
use uuid::Uuid;

/// The first root that isn't selected.
pub(crate) fn missing_root(book: &Book, demand: &Demand, selection: &Selection) -> Option<Uuid>
    ensures { result ≡ first_lacking book.now selection.now.items demand.now.roots.items }
{
    let roots = demand.roots.items();
    let mut first = None;
    for root in roots {
        first = first_id(book, first, unless_selected(selection, &root.1));
    }
    first
}

/// The identifier, where it isn't selected.
fn unless_selected(selection: &Selection, uuid: &Uuid) -> Option<Uuid>
    ensures { result ≡ lacking selection.now.items uuid.now }
{
    match selection.version_of(uuid) {
        Some(_) => None,
        None => Some(*uuid),
    }
}

/// The first package that isn't offered at its selected version.
pub(crate) fn missing_offer(book: &Book, selection: &Selection) -> Option<Uuid>
    ensures { FirstOf (id_cmp book.now) (LacksOffer (book_offers book.now) selection.now.items) result }
{
    for package in 0..book.packages() {
        if lacks_offer(book, selection, package) {
            return Some(book.uuid(package));
        }
    }
    unknown(book, selection)
}

/// Whether a package is selected and isn't offered at its version.
fn lacks_offer(book: &Book, selection: &Selection, package: u32) -> bool
    requires { «package» < length book.now }
    ensures { MatchBool result
        (LacksOffer (book_offers book.now) selection.now.items (package_at book.now «package»).uuid)
        (LacksOffer (book_offers book.now) selection.now.items (package_at book.now «package»).uuid → ⊥) }
{
    match selected_offer(book, selection, package) {
        Some(_) => false,
        None => is_selected(selection, &book.uuid(package)),
    }
}

/// The first selected package that the book doesn't hold.
fn unknown(book: &Book, selection: &Selection) -> Option<Uuid>
    ensures { result ≡ first_unheld book.now selection.now.items }
{
    let pairs = selection.items();
    let mut first = None;
    for pair in pairs {
        first = first_id(book, first, unless_held(book, &pair.0));
    }
    first
}

/// The identifier, where the book doesn't hold it.
fn unless_held(book: &Book, uuid: &Uuid) -> Option<Uuid>
    ensures { result ≡ unheld book.now uuid.now }
{
    match book.number(uuid) {
        Some(_) => None,
        None => Some(*uuid),
    }
}

/// The first package whose selected offer depends on one that isn't selected, and the first such dependency.
pub(crate) fn missing_dep(book: &Book, selection: &Selection) -> Option<(Uuid, Uuid)>
    ensures { FirstOf (both_cmp book.now) (λ x. LacksDep (book_offers book.now) selection.now.items x.0 x.1) result }
{
    for package in 0..book.packages() {
        if let Some(dep) = missing_dep_at(book, selection, package) {
            return Some((book.uuid(package), dep));
        }
    }
    None
}

/// The first dependency of the package's selected offer that isn't selected.
fn missing_dep_at(book: &Book, selection: &Selection, package: u32) -> Option<Uuid>
    requires { «package» < length book.now }
    ensures { FirstOf (id_cmp book.now) (LacksDep (book_offers book.now) selection.now.items (package_at book.now «package»).uuid) result }
{
    let deps = deps_of(book, selection, package);
    missing_dep_of(book, selection, &book.uuid(package), deps)
}

/// The first of these dependencies of an offer, on another package than its own, that isn't selected.
pub(crate) fn missing_dep_of(
    book: &Book,
    selection: &Selection,
    uuid: &Uuid,
    deps: &[(Name, Uuid)],
) -> Option<Uuid>
    ensures { result ≡ first_lacking_other book.now selection.now.items uuid.now deps.now }
{
    let mut first = None;
    for dep in deps {
        first = first_id(book, first, unless_met(selection, uuid, &dep.1));
    }
    first
}

/// The dependency, where it is another package and isn't selected.
fn unless_met(selection: &Selection, uuid: &Uuid, dep: &Uuid) -> Option<Uuid>
    ensures { result ≡ lacking_other selection.now.items uuid.now dep.now }
{
    if *dep == *uuid {
        return None;
    }
    unless_selected(selection, dep)
}

/// The first package that the project's compat doesn't allow at its selected version.
pub(crate) fn outside_project(book: &Book, demand: &Demand, selection: &Selection) -> Option<Uuid>
    ensures { result ≡ first_outside_spec book.now selection.now.items (map spec_entry demand.now.compat.items) }
{
    let entries = demand.compat.items();
    let mut first = None;
    for entry in entries {
        first = first_id(book, first, unless_within(selection, entry));
    }
    first
}

/// The package of the entry, where its selected version isn't allowed.
fn unless_within(selection: &Selection, entry: &SpecId) -> Option<Uuid>
    ensures { result ≡ outside_spec selection.now.items (spec_entry entry.now) }
{
    match selection.version_of(&entry.uuid) {
        Some(version) => {
            if entry.spec.holds(version) {
                None
            } else {
                Some(entry.uuid)
            }
        }
        None => None,
    }
}

/// The first package whose selected offer doesn't allow what is selected of another package, or Julia's version; and the
/// first package that it doesn't allow so.
pub(crate) fn outside(book: &Book, julia: &Version, selection: &Selection) -> Option<(Uuid, Uuid)>
    ensures { FirstOf (both_cmp book.now) (λ x. Excludes (book_offers book.now) (triple_of julia.now) selection.now.items x.0 x.1) result }
{
    for package in 0..book.packages() {
        if let Some(other) = outside_at(book, julia, selection, package) {
            return Some((book.uuid(package), other));
        }
    }
    None
}

/// The first package that isn't as the package's selected offer allows it.
fn outside_at(book: &Book, julia: &Version, selection: &Selection, package: u32) -> Option<Uuid>
    requires { «package» < length book.now }
    ensures { FirstOf (id_cmp book.now) (Excludes (book_offers book.now) (triple_of julia.now) selection.now.items (package_at book.now «package»).uuid) result }
{
    let entries = compat_of(book, selection, package);
    outside_of(book, julia, selection, &book.uuid(package), entries)
}

/// The first package that isn't as these entries of an offer's compat allow it.
pub(crate) fn outside_of(
    book: &Book,
    julia: &Version,
    selection: &Selection,
    uuid: &Uuid,
    entries: &[(Uuid, Allowed)],
) -> Option<Uuid>
    ensures { result ≡ first_outside book.now (triple_of julia.now) selection.now.items uuid.now (map allowing entries.now) }
{
    let mut first = None;
    for entry in entries {
        first = first_id(book, first, unless_allowed(julia, selection, uuid, entry));
    }
    first
}

/// The package of the entry, where it isn't as allowed.
fn unless_allowed(
    julia: &Version,
    selection: &Selection,
    uuid: &Uuid,
    entry: &(Uuid, Allowed),
) -> Option<Uuid>
    ensures { result ≡ outside_entry (triple_of julia.now) selection.now.items uuid.now (allowing entry.now) }
{
    if is_julia_outside(julia, entry) || is_other_outside(selection, uuid, entry) {
        Some(entry.0)
    } else {
        None
    }
}

/// Whether the entry is one on Julia that doesn't allow its version.
fn is_julia_outside(julia: &Version, entry: &(Uuid, Allowed)) -> bool
    ensures { result ≡ refuses_julia (triple_of julia.now) (allowing entry.now) }
{
    entry.0 == julia_uuid() && !entry.1.holds(julia)
}

/// Whether the entry is one on another selected package that doesn't allow its version.
fn is_other_outside(selection: &Selection, uuid: &Uuid, entry: &(Uuid, Allowed)) -> bool
    ensures { result ≡ refuses_other selection.now.items uuid.now (allowing entry.now) }
{
    if entry.0 == *uuid {
        return false;
    }
    match selection.version_of(&entry.0) {
        Some(version) => !entry.1.holds(version),
        None => false,
    }
}

/// The first selected package that is pinned or held at another version.
pub(crate) fn broken_pin(book: &Book, demand: &Demand, selection: &Selection) -> Option<Uuid>
    ensures { result ≡ first_id book.now (first_off_pin book.now selection.now.items (map version_entry demand.now.pins.items)) (first_off_pin book.now selection.now.items (map version_entry demand.now.held.items)) }
{
    first_id(
        book,
        off_pins(book, selection, demand.pins.items()),
        off_pins(book, selection, demand.held.items()),
    )
}

/// The first selected package that isn't at its version among these.
fn off_pins(book: &Book, selection: &Selection, pins: &[VersionPair]) -> Option<Uuid>
    ensures { result ≡ first_off_pin book.now selection.now.items (map version_entry pins.now) }
{
    let mut first = None;
    for pin in pins {
        first = first_id(book, first, unless_pinned(selection, pin));
    }
    first
}

/// The package, where it is selected at another version than this one.
fn unless_pinned(selection: &Selection, pin: &VersionPair) -> Option<Uuid>
    ensures { result ≡ off_pin selection.now.items (version_entry pin.now) }
{
    match selection.version_of(&pin.uuid) {
        Some(version) => {
            if *version == pin.version {
                None
            } else {
                Some(pin.uuid)
            }
        }
        None => None,
    }
}
