//! Books: the packages that are reached, in the order of their numbers, with what is offered of each.
ghost use Rattle.std.specs.Prelude.{◌≡◌, ◌-◌, ◌^◌, ◌<◌, [], length, map, OnOk, OnErr};
ghost use Rattle.std.specs.List.{IsDistinct};
ghost use Rattle.std.specs.Str.{bytes_eq};
ghost use Rattle.offer_terms.specs.Offered.{offering};
ghost use Rattle.offer_terms.specs.Booked.{Packed, package_at, ids_of, number_of, entered, filled};
ghost use Rattle.offer_terms.specs.Kept.{AreNumbered, DoRise};

use crate::offer::Offer;
use indexmap::IndexMap;
use pkg_world::{Duplicate, Listed, Name};
use std::alloc::{AllocError, Global};
use std::marker::Model;
use uuid::Uuid;

/// What a book keeps of one package.
#[derive(Drop)]
struct Package {
    name: Name,
    has_source: bool,
    offers: Listed<Offer>,
}

/// The packages among whose offers the resolver chooses, in the order of their numbers, each with what is offered of it in
/// rising order of versions.
#[derive(Drop)]
pub struct Book {
    packages: IndexMap<Uuid, Package>,
}

impl Model for Book {
    ghost use Rattle.std.specs.Prelude.{List, map};
    ghost use Rattle.offer_terms.specs.Booked.{Packed};
    ghost use Rattle.offer_terms.specs.Kept.{packed, IsKept};

    ghost Value = { List Packed };

    ghost view = { λ book. map packed book.packages.entries };

    ghost invariant = { λ book. IsKept book.packages.entries };
}

impl Book {
    /// The book without packages.
    pub fn make(alloc: Global) -> Book
        ensures { result ≡ [] }
    {
        Book {
            packages: IndexMap::new(alloc),
        }
    }

    /// How many packages there are. Takes no memory.
    pub fn packages(&self) -> u32
        ensures count { result ≡ length self.now }
        ensures once { IsDistinct bytes_eq (ids_of self.now) }
    {
        self.packages.len() as u32
    }

    /// What is offered of a package, in rising order of versions. Takes no memory.
    pub fn offers(&self, package: u32) -> &[Offer]
        requires { «package» < length self.now }
        ensures offers { map offering result.now ≡ (package_at self.now «package»).offers }
        ensures numbered { AreNumbered «package» result.now }
        ensures rising { DoRise result.now }
    {
        match self.packages.get_index(package as usize) {
            Some((_, found)) => found.offers.items(),
            None => unreachable!(),
        }
    }

    /// The number of an identifier's package, None where the book doesn't hold it. Takes no memory.
    pub fn number(&self, uuid: &Uuid) -> Option<u32>
        ensures { result ≡ number_of self.now uuid.now }
    {
        match self.packages.get_index_of(uuid) {
            Some(package) => Some(package as u32),
            None => None,
        }
    }

    /// The identifier of a package. Takes no memory.
    pub fn uuid(&self, package: u32) -> Uuid
        requires { «package» < length self.now }
        ensures { result ≡ (package_at self.now «package»).uuid }
    {
        match self.packages.get_index(package as usize) {
            Some((uuid, _)) => *uuid,
            None => unreachable!(),
        }
    }

    /// The name of a package. Takes no memory.
    pub fn name(&self, package: u32) -> &Name
        requires { «package» < length self.now }
        ensures { result.now ≡ (package_at self.now «package»).name }
    {
        match self.packages.get_index(package as usize) {
            Some((_, found)) => &found.name,
            None => unreachable!(),
        }
    }

    /// Whether a package has a source of offers, which may be without any. Takes no memory.
    pub fn has_source(&self, package: u32) -> bool
        requires { «package» < length self.now }
        ensures { result ≡ (package_at self.now «package»).has_source }
    {
        match self.packages.get_index(package as usize) {
            Some((_, found)) => found.has_source,
            None => unreachable!(),
        }
    }

    /// Gives a package the next number, without a source, unless its identifier has a number. The one error is want of
    /// memory, and then the book is as before.
    pub fn enter(&mut self, alloc: Global, uuid: Uuid, name: &Name) -> Result<(), AllocError>
        requires { length self.old < 2 ^ 32 - 1 }
        ensures ok { OnOk result (self.new ≡ entered self.old uuid name.now) }
        ensures err { OnErr result (self.new ≡ self.old) }
    {
        if self.packages.get_index_of(&uuid).is_some() {
            return Ok(());
        }
        let package = Package {
            name: name.copy(alloc)?,
            has_source: false,
            offers: Listed::make(alloc),
        };
        self.packages.insert(uuid, package)?;
        Ok(())
    }

    /// Says what the source of a package offers of it, in rising order of versions. Takes no memory.
    pub fn fill(&mut self, package: u32, offers: Listed<Offer>)
        requires known { «package» < length self.old }
        requires numbered { AreNumbered «package» offers.items }
        requires rising { DoRise offers.items }
        ensures { self.new ≡ filled self.old «package» (map offering offers.items) }
    {
        let (_, found) = self.packages.pair_mut(package as usize);
        found.has_source = true;
        found.offers = offers;
    }
}
