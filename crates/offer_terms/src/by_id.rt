//! Lists in the order of identifiers, each identifier once.
ghost use Rattle.std.specs.Prelude.{◌≡◌, ℕ, ◌+◌, ◌<◌, ◌≤◌, ◌∷◌, ◌++◌, List, [], length, map, find, position, slice_set, option_copied, OnOk, OnErr};
ghost use Rattle.std.specs.List.{remove};
ghost use Rattle.std.specs.Str.{bytes_eq};
ghost use Rattle.offer_terms.specs.ById.{AreRising};

use pkg_world::Listed;
use std::alloc::{AllocError, Global};
use std::marker::Model;
use uuid::Uuid;

/// What has the identifier of a package.
pub trait Identified {
    ghost id_of: { Self → List ℕ };

    /// The identifier. Takes no memory.
    fn uuid(&self) -> &Uuid
        ensures { result.now ≡ id_of self.now };
}

/// Items in the order of their identifiers' bytes, each identifier once, with room that was set aside for more items.
#[derive(Drop)]
pub struct ById<T: Identified> {
    inside: Listed<T>,
}

impl<T: Identified> Model for ById<T> {
    ghost use Rattle.std.specs.Prelude.{map};
    ghost use Rattle.pkg_world.specs.Listing.{Listing};
    ghost use Rattle.offer_terms.specs.ById.{AreRising};

    ghost Value = { Listing T };

    ghost view = { λ a. a.inside };

    ghost invariant = { λ a. AreRising (map T.id_of a.inside.items) };
}

impl<T: Identified + Drop> ById<T> {
    /// The empty list.
    pub fn make(alloc: Global) -> Self
        ensures items { result.items ≡ [] }
        ensures spare { result.spare ≡ 0 }
    {
        Self {
            inside: Listed::make(alloc),
        }
    }

    /// The list of these items, which are in the order of their identifiers.
    pub fn of(items: Listed<T>) -> Self
        requires { AreRising (map T.id_of items.items) }
        ensures { result ≡ items }
    {
        Self { inside: items }
    }

    /// The items, in order. Takes no memory.
    pub fn items(&self) -> &[T]
        ensures items { result.now ≡ self.now.items }
        ensures rising { AreRising (map T.id_of self.now.items) }
    {
        self.inside.items()
    }

    /// The place of the item of that identifier, None where there is none. Takes no memory; by binary search.
    pub fn place_of(&self, uuid: &Uuid) -> Option<usize>
        ensures { result ≡ position (λ it. bytes_eq uuid.now (T.id_of it)) self.now.items }
    {
        match self.items().binary_search_by_key(
            uuid,
            |item: &T| -> Uuid
                ensures { result ≡ T.id_of item.now }
            { *item.uuid() },
        ) {
            Ok(place) => Some(place),
            Err(_) => None,
        }
    }

    /// The item of that identifier, None where there is none. Takes no memory; by binary search.
    pub fn get(&self, uuid: &Uuid) -> Option<&T>
        ensures { option_copied result ≡ find (λ it. bytes_eq uuid.now (T.id_of it)) self.now.items }
    {
        match self.place_of(uuid) {
            Some(place) => Some(&self.items()[place]),
            None => None,
        }
    }

    /// Appends the item, whose identifier comes last. The one error is want of memory, and then the items are as before.
    pub fn push(&mut self, item: T) -> Result<(), AllocError>
        requires { AreRising (map T.id_of (self.old.items ++ item ∷ [])) }
        ensures ok { OnOk result (self.new.items ≡ self.old.items ++ item ∷ []) }
        ensures err { OnErr result (self.new.items ≡ self.old.items) }
    {
        self.inside.push(item)
    }

    /// Puts the item in that place, where its identifier keeps the order, and leaves all else. Takes no memory.
    pub fn set(&mut self, place: usize, item: T)
        requires within { place < length self.old.items }
        requires rising { AreRising (map T.id_of (slice_set self.old.items place item)) }
        ensures items { self.new.items ≡ slice_set self.old.items place item }
        ensures spare { self.new.spare ≡ self.old.spare }
    {
        self.inside.set(place, item);
    }

    /// Takes out that place, closes up and leaves all else. Takes no memory.
    pub fn remove(&mut self, place: usize)
        requires { place < length self.old.items }
        ensures items { self.new.items ≡ remove self.old.items place }
        ensures spare { self.new.spare ≡ self.old.spare }
    {
        self.inside.remove(place);
    }

    /// Makes the spare room at least `count` and leaves the items. The one error is want of memory.
    pub fn reserve(&mut self, count: usize) -> Result<(), AllocError>
        ensures items { self.new.items ≡ self.old.items }
        ensures ok { OnOk result (count ≤ self.new.spare) }
    {
        self.inside.reserve(count)
    }

    /// Appends the item, whose identifier comes last, into the spare room, which falls by one. Takes no memory.
    pub fn push_spare(&mut self, item: T)
        requires room { 0 < self.old.spare }
        requires rising { AreRising (map T.id_of (self.old.items ++ item ∷ [])) }
        ensures items { self.new.items ≡ self.old.items ++ item ∷ [] }
        ensures spare { self.new.spare + 1 ≡ self.old.spare }
    {
        self.inside.push_spare(item);
    }
}
