//! Gathering the book of a demand.
ghost use Rattle.std.specs.Prelude.{◌≡◌, ◌<◌, ◌≤◌, ◌∷◌, ◌++◌, [], Ok, Some, None, length, option_map, IfSome, IfOk, IfErr, OnOk, MatchResult};
ghost use Rattle.offer_terms.specs.Booked.{number_of};
ghost use Rattle.offer_catalog.specs.Answers.{Refuses as ReadRefuses, ReadFaultRose};
ghost use Rattle.offer_book.specs.AllOffers.{found_in as found_meant, has_source as has_source_meant};
ghost use Rattle.offer_book.specs.Gathered as spec;
ghost use Rattle.offer_book.specs.Made as made;
ghost use Rattle.offer_book.specs.Made.{scope_of, found_said, IsOfNumber, AreFirst};
ghost use Rattle.offer_book.specs.Numbers as numbers;

use crate::mentions::{Mentions, begun, mention_offers};
use crate::source::{Found, found_in, has_source};
use offer_catalog::{BookFault, Catalog};
use offer_terms::{Book, Demand};
use pkg_world::{Ids, LimitKind, Name, Store};
use std::alloc::{AllocError, Global};
use uuid::Uuid;

/// The most packages that a book may hold.
const MOST_PACKAGES: u32 = 4096;

/// The book of a demand: its roots, the extra packages and all that offers of these depend on, with what is offered of each
/// (Pkg: registries, standard libraries, developed packages; the order and the limit are own rules).
///
/// Numbers go to the roots by their names, then to the extra packages, then, package by package in the order of the numbers
/// and offer by offer, to each new dependency by its name. Weak dependencies lead nowhere. The tables of each package are
/// read once, in the order of the numbers and for each package in the order of the registries.
///
/// Errors: MissingFile and BadFile of the first of these files that is missing or refused; then UnknownPackage of the first
/// root by name that has no source; then Limit(Packages, 4097), where one more package is reached than there are numbers,
/// and by then all numbered ones were read; ReadFault, where the store can't read; want of memory.
pub fn gather<S: Store>(
    alloc: Global,
    store: &mut S,
    catalog: &Catalog,
    demand: &Demand,
    extra: &Ids,
) -> Result<Book, BookFault>
    ensures told { IfSome (S.files store.old) (λ all. MatchResult result
        (λ book. spec.gathered all catalog.now (scope_of demand.now) extra.now.items ≡ Ok book)
        (spec.Refuses (spec.gathered all catalog.now (scope_of demand.now) extra.now.items))) }
    ensures fault { IfErr result (ReadFaultRose (S.read_faults store.old) (S.read_faults store.new)) }
    ensures files { S.files store.new ≡ S.files store.old }
    ensures later { S.read_faults store.old ≤ S.read_faults store.new }
    ensures other { S.write_faults store.new ≡ S.write_faults store.old }
{
    match reached_in(alloc, store, catalog, demand, extra) {
        Ok(reached) => bounded(catalog, demand, reached),
        Err(fault) => Err(fault),
    }
}

/// The packages that were mentioned, and the book of those that were read.
#[derive(Drop)]
struct Reached {
    mentions: Mentions,
    book: Book,
}

/// The book, where each root has a source and no more packages were mentioned than there are numbers.
fn bounded(catalog: &Catalog, demand: &Demand, reached: Reached) -> Result<Book, BookFault>
    ensures book { MatchResult result
        (λ book. spec.with_sources (made.reached reached) (spec.unknown_root catalog.now (scope_of demand.now)) ≡ Ok book)
        (spec.Refuses (spec.with_sources (made.reached reached) (spec.unknown_root catalog.now (scope_of demand.now)))) }
    ensures whole { IfErr result made.IsOfWhole }
{
    match unknown_root(catalog, demand) {
        Some(uuid) => Err(BookFault::UnknownPackage(uuid)),
        None => within_limit(reached),
    }
}

/// The book, where no more packages were mentioned than there are numbers.
fn within_limit(reached: Reached) -> Result<Book, BookFault>
    ensures book { MatchResult result
        (λ book. spec.within_limit (made.reached reached) (spec.passes (made.reached reached)) ≡ Ok book)
        (spec.Refuses (spec.within_limit (made.reached reached) (spec.passes (made.reached reached)))) }
    ensures whole { IfErr result made.IsOfWhole }
{
    let count = reached.mentions.len();
    if count > MOST_PACKAGES as usize {
        return Err(BookFault::Limit(LimitKind::Packages, 4097));
    }
    let Reached { book, .. } = reached;
    Ok(book)
}

/// The first root by name that has no source.
fn unknown_root(catalog: &Catalog, demand: &Demand) -> Option<Uuid>
    ensures { result ≡ option_map (λ root. root.1) (spec.unknown_root catalog.now (scope_of demand.now)) }
{
    let roots = demand.roots.items();
    for root in roots {
        if !has_source(catalog, demand, &root.1) {
            return Some(root.1);
        }
    }
    None
}

/// The packages that the demand leads to, each with what its source says.
fn reached_in<S: Store>(
    alloc: Global,
    store: &mut S,
    catalog: &Catalog,
    demand: &Demand,
    extra: &Ids,
) -> Result<Reached, BookFault>
    ensures told { IfSome (S.files store.old) (λ all. MatchResult result
        (λ reached. spec.reached_in all catalog.now (scope_of demand.now) extra.now.items ≡ Ok (made.reached reached))
        (ReadRefuses (spec.reached_in all catalog.now (scope_of demand.now) extra.now.items))) }
    ensures fault { IfErr result (ReadFaultRose (S.read_faults store.old) (S.read_faults store.new)) }
    ensures files { S.files store.new ≡ S.files store.old }
    ensures later { S.read_faults store.old ≤ S.read_faults store.new }
    ensures other { S.write_faults store.new ≡ S.write_faults store.old }
{
    let mut mentions = begun(alloc, demand, extra)?;
    let mut book = Book::make(alloc);
    match read_all(alloc, store, catalog, demand, &mut mentions, &mut book) {
        Ok(()) => Ok(Reached { mentions, book }),
        Err(fault) => Err(fault),
    }
}

/// Reads the packages in the order of their numbers, as long as there is one and a number for it.
fn read_all<S: Store>(
    alloc: Global,
    store: &mut S,
    catalog: &Catalog,
    demand: &Demand,
    mentions: &mut Mentions,
    book: &mut Book,
) -> Result<(), BookFault>
    requires { book.old ≡ [] }
    ensures told { IfSome (S.files store.old) (λ all. MatchResult result
        (λ _. numbers.walk (found_meant all catalog.now (scope_of demand.now)) spec.most_packages (made.reaching mentions.old.entries book.old) ≡ Ok (made.reaching mentions.new.entries book.new))
        (ReadRefuses (numbers.walk (found_meant all catalog.now (scope_of demand.now)) spec.most_packages (made.reaching mentions.old.entries book.old)))) }
    ensures fault { IfErr result (ReadFaultRose (S.read_faults store.old) (S.read_faults store.new)) }
    ensures files { S.files store.new ≡ S.files store.old }
    ensures later { S.read_faults store.old ≤ S.read_faults store.new }
    ensures other { S.write_faults store.new ≡ S.write_faults store.old }
{
    'packages: for number in 0..MOST_PACKAGES {
        match read_next(alloc, store, catalog, demand, number, mentions, book) {
            Ok(more) => {
                if !more {
                    return Ok(());
                }
            }
            Err(fault) => return Err(fault),
        }
    }
    Ok(())
}

/// Reads the package of the next number; false where there is none.
fn read_next<S: Store>(
    alloc: Global,
    store: &mut S,
    catalog: &Catalog,
    demand: &Demand,
    number: u32,
    mentions: &mut Mentions,
    book: &mut Book,
) -> Result<bool, BookFault>
    requires number { length book.old ≡ number }
    requires few { number < 4096 }
    requires first { AreFirst book.old mentions.old.entries }
    ensures told { IfSome (S.files store.old) (λ all. MatchResult result
        (λ _. numbers.step (found_meant all catalog.now (scope_of demand.now)) (made.reaching mentions.old.entries book.old) ≡ Ok (made.reaching mentions.new.entries book.new))
        (ReadRefuses (numbers.step (found_meant all catalog.now (scope_of demand.now)) (made.reaching mentions.old.entries book.old)))) }
    ensures next { IfOk result (made.GoesOn number mentions.new.entries book.new) }
    ensures fault { IfErr result (ReadFaultRose (S.read_faults store.old) (S.read_faults store.new)) }
    ensures files { S.files store.new ≡ S.files store.old }
    ensures later { S.read_faults store.old ≤ S.read_faults store.new }
    ensures other { S.write_faults store.new ≡ S.write_faults store.old }
{
    match mentions.as_slice().get_index(number as usize) {
        None => Ok(false),
        Some((uuid, name)) => {
            match enter_next(alloc, store, catalog, demand, number, *uuid, name, book) {
                Ok(()) => {}
                Err(fault) => return Err(fault),
            }
            mention_offers(alloc, mentions, book.offers(number))?;
            Ok(true)
        }
    }
}

/// Gives a package the next number, with what its source says.
fn enter_next<S: Store>(
    alloc: Global,
    store: &mut S,
    catalog: &Catalog,
    demand: &Demand,
    number: u32,
    uuid: Uuid,
    name: &Name,
    book: &mut Book,
) -> Result<(), BookFault>
    requires number { length book.old ≡ number }
    requires few { number < 4096 }
    requires absent { number_of book.old uuid ≡ None }
    ensures told { IfSome (S.files store.old) (λ all. MatchResult result
        (λ _. made.packed_in all catalog.now (scope_of demand.now) (uuid, name.now) book.old ≡ Ok book.new)
        (ReadRefuses (made.packed_in all catalog.now (scope_of demand.now) (uuid, name.now) book.old))) }
    ensures one { OnOk result (made.HasOneMore uuid book.old book.new) }
    ensures fault { IfErr result (ReadFaultRose (S.read_faults store.old) (S.read_faults store.new)) }
    ensures files { S.files store.new ≡ S.files store.old }
    ensures later { S.read_faults store.old ≤ S.read_faults store.new }
    ensures other { S.write_faults store.new ≡ S.write_faults store.old }
{
    match found_in(alloc, store, catalog, demand, number, &uuid) {
        Ok(found) => Ok(enter(alloc, book, number, uuid, name, found)?),
        Err(fault) => Err(fault),
    }
}

/// Gives a package the next number, with what was found.
fn enter(
    alloc: Global,
    book: &mut Book,
    number: u32,
    uuid: Uuid,
    name: &Name,
    found: Option<Found>,
) -> Result<(), AllocError>
    requires number { length book.old ≡ number }
    requires few { number < 4096 }
    requires absent { number_of book.old uuid ≡ None }
    requires numbered { IsOfNumber number found }
    ensures { OnOk result (book.new ≡ book.old ++ numbers.packed_as (uuid, name.now) (option_map found_said found) ∷ []) }
{
    match found {
        None => book.enter(alloc, uuid, name),
        Some(it) => enter_found(alloc, book, number, uuid, it),
    }
}

fn enter_found(
    alloc: Global,
    book: &mut Book,
    number: u32,
    uuid: Uuid,
    found: Found,
) -> Result<(), AllocError>
    requires number { length book.old ≡ number }
    requires few { number < 4096 }
    requires absent { number_of book.old uuid ≡ None }
    requires numbered { IsOfNumber number (Some found) }
    ensures { OnOk result (book.new ≡ book.old ++ numbers.packed_as (uuid, found.name) (Some (found_said found)) ∷ []) }
{
    let Found { name, offers } = found;
    book.enter(alloc, uuid, &name)?;
    book.fill(number, offers);
    Ok(())
}
