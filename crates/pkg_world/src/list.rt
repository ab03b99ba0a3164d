//! The one list type of the project. Contracts see a list as its items and its spare room.
ghost use Rattle.std.specs.Prelude.{◌≡◌, ◌+◌, ◌-◌, ◌<◌, ◌≤◌, ◌∷◌, ◌++◌, [], length, vec_len, vec_capacity, slice_set, OnOk, OnErr, IfOk};
ghost use Rattle.std.specs.List.{remove};

use crate::path::NormPath;
use crate::text::{Duplicate, Name, Text};
use std::alloc::{AllocError, Global};
use std::marker::Model;
use uuid::Uuid;

/// A list of items, with room that was set aside for more of them.
#[derive(Debug, Drop)]
pub struct Listed<T> {
    inside: Vec<T>,
    room: usize,
}

impl<T> Model for Listed<T> {
    ghost use Rattle.std.specs.Prelude.{◌+◌, ◌≤◌, vec_len, vec_capacity};
    ghost use Rattle.pkg_world.specs.Listing.{Listing};

    ghost Value = { Listing T };

    ghost view = { λ a. record { items = a.inside.items; spare = a.room } };

    ghost invariant = { λ a. vec_len a.inside + a.room ≤ vec_capacity a.inside };
}

impl<T: Drop> Listed<T> {
    /// The empty list.
    pub fn make(alloc: Global) -> Self
        ensures items { result.items ≡ [] }
        ensures spare { result.spare ≡ 0 }
    {
        Self {
            inside: Vec::new(alloc),
            room: 0,
        }
    }

    /// The list of those items, without spare room.
    pub fn of_vec(items: Vec<T>) -> Self
        ensures items { result.items ≡ items.items }
        ensures spare { result.spare ≡ 0 }
    {
        Self {
            inside: items,
            room: 0,
        }
    }

    /// The items, in order.
    pub fn items(&self) -> &[T]
        ensures { result.now ≡ self.now.items }
    {
        self.inside.as_slice()
    }

    /// Appends the item. The one error is want of memory, and then the items are as before.
    pub fn push(&mut self, item: T) -> Result<(), AllocError>
        ensures ok { OnOk result (self.new.items ≡ self.old.items ++ item ∷ []) }
        ensures err { OnErr result (self.new.items ≡ self.old.items) }
    {
        self.room = self.room.saturating_sub(1);
        self.inside.push(item)?;
        Ok(())
    }

    /// Puts the item in that place and leaves all else.
    pub fn set(&mut self, place: usize, item: T)
        requires { place < length self.old.items }
        ensures items { self.new.items ≡ slice_set self.old.items place item }
        ensures spare { self.new.spare ≡ self.old.spare }
    {
        self.inside[place] = item;
    }

    /// Takes out that place, closes up and leaves all else.
    pub fn remove(&mut self, place: usize)
        requires { place < length self.old.items }
        ensures items { self.new.items ≡ remove self.old.items place }
        ensures spare { self.new.spare ≡ self.old.spare }
    {
        let _ = self.inside.remove(place);
    }

    /// Makes the spare room at least `count` and leaves the items. The one error is want of memory.
    pub fn reserve(&mut self, count: usize) -> Result<(), AllocError>
        ensures items { self.new.items ≡ self.old.items }
        ensures ok { OnOk result (count ≤ self.new.spare) }
    {
        if self.room < count {
            self.inside.reserve(count)?;
            self.room = count;
        }
        Ok(())
    }

    /// Appends the item into the spare room, which falls by one. It takes no memory.
    pub fn push_spare(&mut self, item: T)
        requires { 0 < self.old.spare }
        ensures items { self.new.items ≡ self.old.items ++ item ∷ [] }
        ensures spare { self.new.spare + 1 ≡ self.old.spare }
    {
        self.room -= 1;
        match self.inside.push(item) {
            Ok(()) => {}
            Err(_) => unreachable!(),
        }
    }
}

impl<T: Duplicate + Drop> Listed<T> {
    /// A list of equal items. The one error is want of memory.
    pub fn copy(&self, alloc: Global) -> Result<Self, AllocError>
        ensures { IfOk result (λ other. other.items ≡ self.now.items) }
    {
        let mut other = Self::make(alloc);
        for item in self.inside.iter() {
            other.push(item.copy(alloc)?)?;
        }
        Ok(other)
    }
}

/// Bytes.
pub type Bytes = Listed<u8>;

/// Identifiers.
pub type Ids = Listed<Uuid>;

/// Names.
pub type Names = Listed<Name>;

/// Paths.
pub type NormPaths = Listed<NormPath>;

/// Numbers, as the states of packages.
pub type States = Listed<u32>;

/// Texts.
pub type TextList = Listed<Text>;
