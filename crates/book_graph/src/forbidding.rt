//! The pairs of states that are forbidden together.
ghost use Rattle.std.specs.Prelude.{◌≡◌, ◌≢◌, ◌<◌, length, map, Some, slice_get, OnOk};
ghost use Rattle.offer_terms.specs.Offered.{Text, Id, Allows, offering, allowing};
ghost use Rattle.offer_terms.specs.Booked.{package_at};
ghost use Rattle.version_graph.specs.Graph.{packages, states};
ghost use Rattle.book_graph.specs.StandsFor.{offer_in};
ghost use Rattle.book_graph.specs.Building.{IsSized, Forbids, OfOne, AreThese, IsWith, IsFrom, IsAmong, IsOffered, IsAbsent, IsExcludedBy, AreExcludedOf, AreExcluded, is_refused};

use crate::numbers::number_of_other;
use crate::rules::Rule;
use compat_spec::Allowed;
use offer_terms::{Book, Offer};
use pkg_world::Name;
use std::alloc::AllocError;
use uuid::Uuid;
use version_graph::InstanceBuilder;

/// Forbids what offers exclude: that a dependency is absent, and versions outside their compat. The one error is want of
/// memory.
pub(crate) fn forbid_excluded(book: &Book, builder: &mut InstanceBuilder) -> Result<(), AllocError>
    requires made { IsSized book.now builder.old }
    ensures { OnOk result (Forbids builder.old builder.new (AreExcluded book.now)) }
{
    for package in 0..book.packages() {
        forbid_of_package(book, package, builder)?;
    }
    Ok(())
}

/// Forbids what the offers of a package exclude.
fn forbid_of_package(
    book: &Book,
    package: u32,
    builder: &mut InstanceBuilder,
) -> Result<(), AllocError>
    requires made { IsSized book.now builder.old }
    requires known { «package» < length book.now }
    ensures { OnOk result (Forbids builder.old builder.new (AreExcludedOf book.now «package»)) }
{
    let offers = book.offers(package);
    for place in 0..offers.len() as u32 {
        let offer = &offers[place as usize];
        forbid_of_offer(book, package, place, offer, builder)?;
    }
    Ok(())
}

/// Forbids what one offer of a package excludes, that in the state's place.
fn forbid_of_offer(
    book: &Book,
    package: u32,
    state: u32,
    offer: &Offer,
    builder: &mut InstanceBuilder,
) -> Result<(), AllocError>
    requires made { IsSized book.now builder.old }
    requires known { «package» < length book.now }
    requires there { offer_in book.now «package» state ≡ Some (offering offer.now) }
    ensures { OnOk result (Forbids builder.old builder.new (IsFrom «package» state (IsExcludedBy book.now (Some (offering offer.now))))) }
{
    forbid_absent(book, package, state, offer.deps.items(), builder)?;
    forbid_refused(book, package, state, offer.compat.items(), builder)?;
    Ok(())
}

/// Forbids the state where one of these dependencies is absent.
fn forbid_absent(
    book: &Book,
    package: u32,
    state: u32,
    deps: &[(Name, Uuid)],
    builder: &mut InstanceBuilder,
) -> Result<(), AllocError>
    requires made { IsSized book.now builder.old }
    requires known { «package» < length book.now }
    requires state { state < length (package_at book.now «package»).offers }
    ensures { OnOk result (Forbids builder.old builder.new (OfOne (λ (d : Text × Id). IsFrom «package» state (IsAbsent book.now d.1)) deps.now)) }
{
    for dep in deps {
        forbid_dep(book, package, state, &dep.1, builder)?;
    }
    Ok(())
}

/// Forbids the state where another package is absent.
fn forbid_dep(
    book: &Book,
    package: u32,
    state: u32,
    uuid: &Uuid,
    builder: &mut InstanceBuilder,
) -> Result<(), AllocError>
    requires made { IsSized book.now builder.old }
    requires known { «package» < length book.now }
    requires state { state < length (package_at book.now «package»).offers }
    ensures { OnOk result (Forbids builder.old builder.new (IsFrom «package» state (IsAbsent book.now uuid.now))) }
{
    match number_of_other(book, package, uuid) {
        Some(other) => {
            let last = book.offers(other).len() as u32;
            forbid_if(builder, package, state, other, last, true)
        }
        None => Ok(()),
    }
}

/// Forbids the state with the versions that these entries of its compat don't allow.
fn forbid_refused(
    book: &Book,
    package: u32,
    state: u32,
    entries: &[(Uuid, Allowed)],
    builder: &mut InstanceBuilder,
) -> Result<(), AllocError>
    requires made { IsSized book.now builder.old }
    requires known { «package» < length book.now }
    requires state { state < length (package_at book.now «package»).offers }
    ensures { OnOk result (Forbids builder.old builder.new (OfOne (λ (e : Id × Allows). IsFrom «package» state (IsOffered book.now e.0 (is_refused e.1))) (map allowing entries.now))) }
{
    for entry in entries {
        forbid_entry(book, package, state, entry, builder)?;
    }
    Ok(())
}

/// Forbids the state with the versions of another package that the entry doesn't allow.
fn forbid_entry(
    book: &Book,
    package: u32,
    state: u32,
    entry: &(Uuid, Allowed),
    builder: &mut InstanceBuilder,
) -> Result<(), AllocError>
    requires made { IsSized book.now builder.old }
    requires known { «package» < length book.now }
    requires state { state < length (package_at book.now «package»).offers }
    ensures { OnOk result (Forbids builder.old builder.new (IsFrom «package» state (IsOffered book.now entry.now.0 (is_refused (allowing entry.now).1)))) }
{
    match number_of_other(book, package, &entry.0) {
        Some(other) => {
            let offers = book.offers(other);
            forbid_offers(builder, package, state, other, offers, &entry.1)
        }
        None => Ok(()),
    }
}

/// Forbids the state with those of another package's offers that the rule keeps out.
fn forbid_offers<R: Rule>(
    builder: &mut InstanceBuilder,
    package: u32,
    state: u32,
    other: u32,
    offers: &[Offer],
    rule: &R,
) -> Result<(), AllocError>
    requires first { «package» < packages builder.old }
    requires first_state { state < states builder.old «package» }
    requires second { other < packages builder.old }
    requires wide { length offers.now < states builder.old other }
    requires few { length offers.now < 65536 }
    requires apart { «package» ≢ other }
    ensures { OnOk result (Forbids builder.old builder.new (IsWith «package» state (IsAmong other (map offering offers.now) (R.shuts rule.now)))) }
{
    for place in 0..offers.len() as u32 {
        let is_shut = rule.shuts(&offers[place as usize]);
        forbid_if(builder, package, state, other, place, is_shut)?;
    }
    Ok(())
}

/// Forbids the two states together where this is wanted.
fn forbid_if(
    builder: &mut InstanceBuilder,
    package: u32,
    state: u32,
    other: u32,
    other_state: u32,
    wanted: bool,
) -> Result<(), AllocError>
    requires first { «package» < packages builder.old }
    requires first_state { state < states builder.old «package» }
    requires second { other < packages builder.old }
    requires second_state { other_state < states builder.old other }
    requires apart { «package» ≢ other }
    ensures { OnOk result (Forbids builder.old builder.new (AreThese «package» state other other_state wanted)) }
{
    if !wanted {
        return Ok(());
    }
    match builder.forbid_pair(package, state, other, other_state) {
        Ok(()) => Ok(()),
        Err(_) => Err(AllocError),
    }
}
