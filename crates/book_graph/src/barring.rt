//! The states that are forbidden alone.
ghost use Rattle.std.specs.Prelude.{◌≡◌, ◌<◌, List, length, map};
ghost use Rattle.jl_versions.specs.Triple.{triple_of};
ghost use Rattle.jl_versions.specs.declared.version.Version.{Version};
ghost use Rattle.compat_spec.specs.declared.part.Part.{Part};
ghost use Rattle.offer_terms.specs.Offered.{Text, Id, offering};
ghost use Rattle.offer_terms.specs.Demanded.{wanted, spec_entry, version_entry};
ghost use Rattle.version_graph.specs.Graph.{packages, states};
ghost use Rattle.book_graph.specs.Building.{IsSized, Bars, OfOne, IsThis, IsAmong, IsOffered, IsAbsent, IsAnywhere, IsShut, is_outside, is_other, refuses_julia};

use crate::numbers::number_in;
use crate::rules::{Julia, Rule};
use offer_terms::{Book, Demand, Offer, SpecId, VersionPair};
use pkg_world::Name;
use uuid::Uuid;
use version_graph::InstanceBuilder;

/// Forbids the states that the demand or Julia's version shuts.
pub(crate) fn bar_states(book: &Book, demand: &Demand, julia: &Julia, builder: &mut InstanceBuilder)
    requires made { IsSized book.now builder.old }
    requires julia { triple_of julia.now.version ≡ demand.now.julia }
    ensures { Bars builder.old builder.new (IsShut book.now (wanted demand.now)) }
{
    bar_roots(book, demand.roots.items(), builder);
    bar_project(book, demand.compat.items(), builder);
    bar_pins(book, demand.pins.items(), builder);
    bar_pins(book, demand.held.items(), builder);
    bar_by_julia(book, julia, builder);
}

/// Forbids that a root is absent.
fn bar_roots(book: &Book, roots: &[(Name, Uuid)], builder: &mut InstanceBuilder)
    requires made { IsSized book.now builder.old }
    ensures { Bars builder.old builder.new (OfOne (λ (r : Text × Id). IsAbsent book.now r.1) roots.now) }
{
    for root in roots {
        bar_absent(book, &root.1, builder);
    }
}

/// Forbids that a package is absent.
fn bar_absent(book: &Book, uuid: &Uuid, builder: &mut InstanceBuilder)
    requires made { IsSized book.now builder.old }
    ensures { Bars builder.old builder.new (IsAbsent book.now uuid.now) }
{
    match number_in(book, uuid) {
        Some(package) => {
            let last = book.offers(package).len() as u32;
            builder.forbid_state(package, last);
        }
        None => {}
    }
}

/// Forbids the versions that the project's compat doesn't hold.
fn bar_project(book: &Book, entries: &[SpecId], builder: &mut InstanceBuilder)
    requires made { IsSized book.now builder.old }
    ensures { Bars builder.old builder.new (OfOne (λ (e : Id × List Part). IsOffered book.now e.0 (is_outside e.1)) (map spec_entry entries.now)) }
{
    for entry in entries {
        bar(book, &entry.uuid, &entry.spec, builder);
    }
}

/// Forbids the other versions of these packages.
fn bar_pins(book: &Book, pins: &[VersionPair], builder: &mut InstanceBuilder)
    requires made { IsSized book.now builder.old }
    ensures { Bars builder.old builder.new (OfOne (λ (p : Id × Version). IsOffered book.now p.0 (is_other p.1)) (map version_entry pins.now)) }
{
    for pin in pins {
        bar(book, &pin.uuid, &pin.version, builder);
    }
}

/// Forbids the offers that don't allow Julia's version.
fn bar_by_julia(book: &Book, julia: &Julia, builder: &mut InstanceBuilder)
    requires made { IsSized book.now builder.old }
    ensures { Bars builder.old builder.new (IsAnywhere book.now (refuses_julia (triple_of julia.now.version))) }
{
    for package in 0..book.packages() {
        bar_offers(package, book.offers(package), julia, builder);
    }
}

/// Forbids the offers of a package that the rule keeps out.
fn bar<R: Rule>(book: &Book, uuid: &Uuid, rule: &R, builder: &mut InstanceBuilder)
    requires made { IsSized book.now builder.old }
    ensures { Bars builder.old builder.new (IsOffered book.now uuid.now (R.shuts rule.now)) }
{
    match number_in(book, uuid) {
        Some(package) => bar_offers(package, book.offers(package), rule, builder),
        None => {}
    }
}

/// Forbids those of a package's offers that the rule keeps out.
fn bar_offers<R: Rule>(package: u32, offers: &[Offer], rule: &R, builder: &mut InstanceBuilder)
    requires known { «package» < packages builder.old }
    requires wide { length offers.now < states builder.old «package» }
    requires few { length offers.now < 65536 }
    ensures { Bars builder.old builder.new (IsAmong «package» (map offering offers.now) (R.shuts rule.now)) }
{
    for place in 0..offers.len() as u32 {
        let is_shut = rule.shuts(&offers[place as usize]);
        bar_if(builder, package, place, is_shut);
    }
}

/// Forbids the state where it is wanted.
fn bar_if(builder: &mut InstanceBuilder, package: u32, state: u32, wanted: bool)
    requires known { «package» < packages builder.old }
    requires state { state < states builder.old «package» }
    ensures { Bars builder.old builder.new (IsThis «package» state wanted) }
{
    if wanted {
        builder.forbid_state(package, state);
    }
}
