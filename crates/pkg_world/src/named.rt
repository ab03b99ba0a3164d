//! Lists of names with something for each, in the order of the names' bytes, no name twice.
ghost use Rattle.std.specs.Prelude.{◌≡◌, ◌+◌, ◌-◌, ◌<◌, ◌≤◌, ◌∷◌, ◌++◌, [], length, slice_set, IsTrue, OnOk, OnErr, IfOk};
ghost use Rattle.std.specs.List.{remove};
ghost use Rattle.pkg_world.specs.ByName.{is_by_name};

use crate::list::Listed;
use crate::text::{Duplicate, Name};
use std::alloc::{AllocError, Global};
use std::marker::Model;
use uuid::Uuid;

/// A list of pairs of a name and something else, ordered by the names' bytes, the names distinct,
/// with room that was set aside for more pairs.
#[derive(Debug, Drop)]
pub struct Named<T> {
    inside: Listed<(Name, T)>,
}

impl<T> Model for Named<T> {
    ghost use Rattle.std.specs.Prelude.{List, ℕ, IsTrue};
    ghost use Rattle.pkg_world.specs.ByName.{is_by_name};
    ghost use Rattle.pkg_world.specs.Listing.{Listing};

    ghost Value = { Listing (List ℕ × T) };

    ghost view = { λ a. a.inside };

    ghost invariant = { λ a. IsTrue (is_by_name a.inside.items) };
}

impl<T: Drop> Named<T> {
    /// The empty list.
    pub fn make(alloc: Global) -> Self
        ensures items { result.items ≡ [] }
        ensures spare { result.spare ≡ 0 }
    {
        Self {
            inside: Listed::make(alloc),
        }
    }

    /// The list of these pairs, which are in the order of their names.
    pub fn of(pairs: Listed<(Name, T)>) -> Self
        requires { IsTrue (is_by_name pairs.items) }
        ensures { result ≡ pairs }
    {
        Self { inside: pairs }
    }

    /// The pairs, in order.
    pub fn items(&self) -> &[(Name, T)]
        ensures items { result.now ≡ self.now.items }
        ensures by_name { IsTrue (is_by_name self.now.items) }
    {
        self.inside.items()
    }

    /// Appends the pair, whose name comes last. The one error is want of memory, and then the pairs are as before.
    pub fn push(&mut self, item: (Name, T)) -> Result<(), AllocError>
        requires { IsTrue (is_by_name (self.old.items ++ item ∷ [])) }
        ensures ok { OnOk result (self.new.items ≡ self.old.items ++ item ∷ []) }
        ensures err { OnErr result (self.new.items ≡ self.old.items) }
    {
        self.inside.push(item)
    }

    /// Puts the pair in that place, where its name keeps the order, and leaves all else.
    pub fn set(&mut self, place: usize, item: (Name, T))
        requires within { place < length self.old.items }
        requires by_name { IsTrue (is_by_name (slice_set self.old.items place item)) }
        ensures items { self.new.items ≡ slice_set self.old.items place item }
        ensures spare { self.new.spare ≡ self.old.spare }
    {
        self.inside.set(place, item);
    }

    /// Takes out that place, closes up and leaves all else.
    pub fn remove(&mut self, place: usize)
        requires { place < length self.old.items }
        ensures items { self.new.items ≡ remove self.old.items place }
        ensures spare { self.new.spare ≡ self.old.spare }
    {
        self.inside.remove(place);
    }

    /// Makes the spare room at least `count` and leaves the pairs. The one error is want of memory.
    pub fn reserve(&mut self, count: usize) -> Result<(), AllocError>
        ensures items { self.new.items ≡ self.old.items }
        ensures ok { OnOk result (count ≤ self.new.spare) }
    {
        self.inside.reserve(count)
    }

    /// Appends the pair, whose name comes last, into the spare room, which falls by one. It takes no memory.
    pub fn push_spare(&mut self, item: (Name, T))
        requires room { 0 < self.old.spare }
        requires by_name { IsTrue (is_by_name (self.old.items ++ item ∷ [])) }
        ensures items { self.new.items ≡ self.old.items ++ item ∷ [] }
        ensures spare { self.new.spare + 1 ≡ self.old.spare }
    {
        self.inside.push_spare(item);
    }
}

impl<T: Duplicate + Drop> Named<T> {
    /// A list of equal pairs. The one error is want of memory.
    pub fn copy(&self, alloc: Global) -> Result<Self, AllocError>
        ensures { IfOk result (λ other. other.items ≡ self.now.items) }
    {
        let mut inside = Listed::make(alloc);
        for (name, value) in self.inside.items().iter() {
            inside.push((name.copy(alloc)?, value.copy(alloc)?))?;
        }
        Ok(Self { inside })
    }
}

/// Names with their identifiers.
pub type NameIds = Named<Uuid>;
