//! What the source of a package says of it.
ghost use Rattle.std.specs.Prelude.{◌≡◌, ◌≤◌, ◌∷◌, [], Some, Ok, map, is_some, option_map, option_copied, IfSome, IfOk, IfErr, MatchResult};
ghost use Rattle.std.specs.List.{list_any};
ghost use Rattle.registry_tables.specs.Answers.{Refuses as ReadRefuses, ReadFaultRose as ReadRose};
ghost use Rattle.registered_offers.specs.ListedTables.{tables_in as tables_meant};
ghost use Rattle.offer_terms.specs.Demanded.{fixed_said};
ghost use Rattle.offer_terms.specs.Kept.{AreNumbered, DoRise};
ghost use Rattle.offer_terms.specs.Offered.{offering};
ghost use Rattle.offer_catalog.specs.Answers.{Refuses, ReadFaultRose};
ghost use Rattle.offer_catalog.specs.Selected.{counts as may_count, is_other as other_than};
ghost use Rattle.offer_book.specs.AllOffers as spec;
ghost use Rattle.offer_book.specs.Made.{scope_of, found_said, IsOfNumber};

use offer_catalog::{BookFault, Catalog};
use offer_terms::{Demand, Fixed, Offer, julia_uuid};
use package_offers::{fixed_offer, library_offer, registry_offers};
use pkg_world::{Duplicate, Listed, Name, Store};
use registered_offers::{LoadedRegistry, PackageTables, tables_in};
use registry_tables::RegFault;
use standard_libraries::Library;
use std::alloc::{AllocError, Global};
use uuid::Uuid;

/// The name that its source gives a package, and what it offers.
#[derive(Drop)]
pub(crate) struct Found {
    pub(crate) name: Name,
    pub(crate) offers: Listed<Offer>,
}

/// What the source of a package says: a fixed package, else a standard library, else the registries that list it (Pkg; own
/// rules). None where it has no source, as Julia and the project's own package.
pub(crate) fn found_in<S: Store>(
    alloc: Global,
    store: &mut S,
    catalog: &Catalog,
    demand: &Demand,
    number: u32,
    uuid: &Uuid,
) -> Result<Option<Found>, BookFault>
    ensures told { IfSome (S.files store.old) (λ all. MatchResult result
        (λ it. spec.found_in all catalog.now (scope_of demand.now) uuid.now ≡ Ok (option_map found_said it))
        (Refuses (spec.found_in all catalog.now (scope_of demand.now) uuid.now))) }
    ensures numbered { IfOk result (IsOfNumber number) }
    ensures fault { IfErr result (ReadFaultRose (S.read_faults store.old) (S.read_faults store.new)) }
    ensures files { S.files store.new ≡ S.files store.old }
    ensures later { S.read_faults store.old ≤ S.read_faults store.new }
    ensures other { S.write_faults store.new ≡ S.write_faults store.old }
{
    if counts(own_of(demand), uuid) {
        source_of(alloc, store, catalog, demand, number, uuid)
    } else {
        Ok(None)
    }
}

fn source_of<S: Store>(
    alloc: Global,
    store: &mut S,
    catalog: &Catalog,
    demand: &Demand,
    number: u32,
    uuid: &Uuid,
) -> Result<Option<Found>, BookFault>
    ensures told { IfSome (S.files store.old) (λ all. MatchResult result
        (λ it. spec.or_registries all catalog.now (scope_of demand.now) uuid.now (spec.given catalog.now (scope_of demand.now) uuid.now) ≡ Ok (option_map found_said it))
        (Refuses (spec.or_registries all catalog.now (scope_of demand.now) uuid.now (spec.given catalog.now (scope_of demand.now) uuid.now)))) }
    ensures numbered { IfOk result (IsOfNumber number) }
    ensures fault { IfErr result (ReadFaultRose (S.read_faults store.old) (S.read_faults store.new)) }
    ensures files { S.files store.new ≡ S.files store.old }
    ensures later { S.read_faults store.old ≤ S.read_faults store.new }
    ensures other { S.write_faults store.new ≡ S.write_faults store.old }
{
    match given(alloc, catalog, demand, number, uuid) {
        Ok(found) => or_registries(alloc, store, catalog, demand, number, uuid, found),
        Err(_) => Err(BookFault::Memory),
    }
}

/// What was found, else what the tables of a package say.
fn or_registries<S: Store>(
    alloc: Global,
    store: &mut S,
    catalog: &Catalog,
    demand: &Demand,
    number: u32,
    uuid: &Uuid,
    found: Option<Found>,
) -> Result<Option<Found>, BookFault>
    requires { IsOfNumber number found }
    ensures told { IfSome (S.files store.old) (λ all. MatchResult result
        (λ it. spec.or_registries all catalog.now (scope_of demand.now) uuid.now (option_map found_said found) ≡ Ok (option_map found_said it))
        (Refuses (spec.or_registries all catalog.now (scope_of demand.now) uuid.now (option_map found_said found)))) }
    ensures numbered { IfOk result (IsOfNumber number) }
    ensures fault { IfErr result (ReadFaultRose (S.read_faults store.old) (S.read_faults store.new)) }
    ensures files { S.files store.new ≡ S.files store.old }
    ensures later { S.read_faults store.old ≤ S.read_faults store.new }
    ensures other { S.write_faults store.new ≡ S.write_faults store.old }
{
    match found {
        Some(it) => Ok(Some(it)),
        None => in_registries(alloc, store, catalog, demand, number, uuid),
    }
}

/// What is given without any table.
fn given(
    alloc: Global,
    catalog: &Catalog,
    demand: &Demand,
    number: u32,
    uuid: &Uuid,
) -> Result<Option<Found>, AllocError>
    ensures given { IfOk result (λ it. option_map found_said it ≡ spec.given catalog.now (scope_of demand.now) uuid.now) }
    ensures numbered { IfOk result (IsOfNumber number) }
{
    match fixed_at(demand, uuid) {
        Some(fixed) => Ok(Some(found_fixed(alloc, number, own_of(demand), fixed)?)),
        None => match catalog.library(uuid) {
            Some(library) => Ok(Some(found_library(alloc, number, own_of(demand), library)?)),
            None => Ok(None),
        },
    }
}

/// The fixed package of that identifier.
fn fixed_at<'a>(demand: &'a Demand, uuid: &Uuid) -> Option<&'a Fixed>
    ensures { option_map fixed_said (option_copied result) ≡ spec.fixed_at (scope_of demand.now).fixed uuid.now }
{
    demand.fixed.get(uuid)
}

fn found_fixed(
    alloc: Global,
    number: u32,
    own: Option<&Uuid>,
    fixed: &Fixed,
) -> Result<Found, AllocError>
    ensures found { IfOk result (λ it. found_said it ≡ spec.found_fixed (option_copied own.entry) (fixed_said fixed.now)) }
    ensures numbered { IfOk result (λ it. IsOfNumber number (Some it)) }
{
    let offer = fixed_offer(alloc, number, own, fixed)?;
    let name = fixed.name.copy(alloc)?;
    let offers = alone(alloc, offer)?;
    Ok(Found { name, offers })
}

fn found_library(
    alloc: Global,
    number: u32,
    own: Option<&Uuid>,
    library: &Library,
) -> Result<Found, AllocError>
    ensures found { IfOk result (λ it. found_said it ≡ spec.found_library (option_copied own.entry) library.now) }
    ensures numbered { IfOk result (λ it. IsOfNumber number (Some it)) }
{
    let offer = library_offer(alloc, number, own, library)?;
    let name = library.name().copy(alloc)?;
    let offers = alone(alloc, offer)?;
    Ok(Found { name, offers })
}

/// The list of that offer.
fn alone(alloc: Global, offer: Offer) -> Result<Listed<Offer>, AllocError>
    ensures offers { IfOk result (λ list. list.items ≡ offer ∷ []) }
    ensures numbered { IfOk result (λ list. AreNumbered offer.package list.items) }
    ensures rising { IfOk result (λ list. DoRise list.items) }
{
    let mut list = Listed::make(alloc);
    list.push(offer)?;
    Ok(list)
}

/// What the tables of a package say in the registries that list it.
fn in_registries<S: Store>(
    alloc: Global,
    store: &mut S,
    catalog: &Catalog,
    demand: &Demand,
    number: u32,
    uuid: &Uuid,
) -> Result<Option<Found>, BookFault>
    ensures told { IfSome (S.files store.old) (λ all. MatchResult result
        (λ it. spec.in_registries all catalog.now (scope_of demand.now) uuid.now ≡ Ok (option_map found_said it))
        (Refuses (spec.in_registries all catalog.now (scope_of demand.now) uuid.now))) }
    ensures numbered { IfOk result (IsOfNumber number) }
    ensures fault { IfErr result (ReadFaultRose (S.read_faults store.old) (S.read_faults store.new)) }
    ensures files { S.files store.new ≡ S.files store.old }
    ensures later { S.read_faults store.old ≤ S.read_faults store.new }
    ensures other { S.write_faults store.new ≡ S.write_faults store.old }
{
    match tables_in(alloc, store, catalog.registries(), uuid) {
        Ok(tables) => Ok(registered(alloc, catalog, demand, number, uuid, tables.items())?),
        Err(RegFault::ReadFault(path)) => Err(BookFault::ReadFault(path)),
        Err(RegFault::MissingFile(path)) => Err(BookFault::MissingFile(path)),
        Err(RegFault::BadFile(path, cause)) => Err(BookFault::BadFile(path, cause)),
        Err(RegFault::Memory) => Err(BookFault::Memory),
    }
}

/// What these tables of a package say; without any the package has no source.
fn registered(
    alloc: Global,
    catalog: &Catalog,
    demand: &Demand,
    number: u32,
    uuid: &Uuid,
    tables: &[PackageTables],
) -> Result<Option<Found>, AllocError>
    ensures registered { IfOk result (λ it. option_map found_said it ≡ spec.registered catalog.now (scope_of demand.now) uuid.now tables.now) }
    ensures numbered { IfOk result (IsOfNumber number) }
{
    match tables.first() {
        Some(first) => {
            let offers = registry_offers(
                alloc,
                number,
                uuid,
                tables,
                own_of(demand),
                demand.pins.items(),
                catalog.tree_extensions(uuid),
            )?;
            let name = first.name().copy(alloc)?;
            Ok(Some(Found { name, offers }))
        }
        None => Ok(None),
    }
}

/// Whether a package has a source of offers.
pub(crate) fn has_source(catalog: &Catalog, demand: &Demand, uuid: &Uuid) -> bool
    ensures { result ≡ spec.has_source catalog.now (scope_of demand.now) uuid.now }
{
    counts(own_of(demand), uuid)
        && (fixed_at(demand, uuid).is_some()
            || catalog.library(uuid).is_some()
            || is_registered(catalog.registries(), uuid))
}

fn is_registered(registries: &[LoadedRegistry], uuid: &Uuid) -> bool
    ensures { result ≡ list_any (spec.is_listed uuid.now) registries.now }
{
    registries.iter().any(|registry| is_listed(registry, uuid))
}

fn is_listed(registry: &LoadedRegistry, uuid: &Uuid) -> bool
    ensures { result ≡ spec.is_listed uuid.now registry.now }
{
    let packages = registry.packages();
    packages.iter().any(|listed| *uuid == listed.uuid)
}

/// The identifier of the project's own package.
fn own_of(demand: &Demand) -> Option<&Uuid>
    ensures { option_copied result ≡ (scope_of demand.now).own }
{
    match &demand.own {
        Some(own) => Some(own),
        None => None,
    }
}

/// Whether a package may have a source: it is neither Julia nor the project's own.
fn counts(own: Option<&Uuid>, uuid: &Uuid) -> bool
    ensures { result ≡ may_count (option_copied own.entry) uuid.now }
{
    *uuid != julia_uuid() && is_other(own, uuid)
}

fn is_other(own: Option<&Uuid>, uuid: &Uuid) -> bool
    ensures { result ≡ other_than (option_copied own.entry) uuid.now }
{
    match own {
        Some(own) => *uuid != *own,
        None => true,
    }
}
