//! Lists of ranges.

ghost use Rattle.std.specs.Prelude.{◌≡◌, ◌+◌, ◌<◌, ◌≤◌, ◌∷◌, ◌++◌, [], length, slice_set, OnOk, OnErr, IfOk};
ghost use Rattle.std.specs.List.{remove};
ghost use Rattle.jl_versions.specs.Triple.{triple_of};
ghost use Rattle.compat_spec.specs.RangeMeaning.{ranges_hold};

use crate::range::Range;
use jl_versions::Version;
use std::alloc::{AllocError, Global};
use std::marker::Model;

/// A list of ranges, with room that was set aside for more of them. It holds what one of them holds.
#[derive(Drop)]
pub struct RangeSet {
    inside: Vec<Range>,
    room: usize,
}

impl Model for RangeSet {
    ghost use Rattle.std.specs.Prelude.{◌+◌, ◌≤◌, vec_len, vec_capacity};
    ghost use Rattle.compat_spec.specs.Listing.{Listing};
    ghost use Rattle.compat_spec.specs.Ranges.{Ranged};

    ghost Value = { Listing Ranged };

    ghost view = { λ set. record { items = set.inside.items; spare = set.room } };

    ghost invariant = { λ set. vec_len set.inside + set.room ≤ vec_capacity set.inside };
}

/// A list of ranges that are equal to these.
fn copied(alloc: Global, ranges: &[Range]) -> Result<RangeSet, AllocError>
    ensures { IfOk result (λ other. other.items ≡ ranges.now) }
{
    let mut other = RangeSet::make(alloc);
    for range in ranges {
        let range = range.copy(alloc)?;
        other.push(range)?;
    }
    Ok(other)
}

impl RangeSet {
    /// The empty list.
    pub fn make(alloc: Global) -> RangeSet
        ensures items { result.items ≡ [] }
        ensures spare { result.spare ≡ 0 }
    {
        RangeSet {
            inside: Vec::new(alloc),
            room: 0,
        }
    }

    /// The ranges, in order. Takes no memory.
    pub fn items(&self) -> &[Range]
        ensures { result.now ≡ self.now.items }
    {
        self.inside.as_slice()
    }

    /// Appends the range. The one error is want of memory, and then the ranges are as before.
    pub fn push(&mut self, item: Range) -> Result<(), AllocError>
        ensures ok { OnOk result (self.new.items ≡ self.old.items ++ item ∷ []) }
        ensures err { OnErr result (self.new.items ≡ self.old.items) }
    {
        self.room = self.room.saturating_sub(1);
        self.inside.push(item)?;
        Ok(())
    }

    /// Puts the range in that place and leaves all else. Takes no memory.
    pub fn set(&mut self, place: usize, item: Range)
        requires { place < length self.old.items }
        ensures items { self.new.items ≡ slice_set self.old.items place item }
        ensures spare { self.new.spare ≡ self.old.spare }
    {
        self.inside[place] = item;
    }

    /// Takes out that place, closes up and leaves all else. Takes no memory.
    pub fn remove(&mut self, place: usize)
        requires { place < length self.old.items }
        ensures items { self.new.items ≡ remove self.old.items place }
        ensures spare { self.new.spare ≡ self.old.spare }
    {
        let _ = self.inside.remove(place);
    }

    /// Makes the spare room at least `count` and leaves the ranges. The one error is want of memory.
    pub fn reserve(&mut self, count: usize) -> Result<(), AllocError>
        ensures items { self.new.items ≡ self.old.items }
        ensures ok { OnOk result (count ≤ self.new.spare) }
    {
        if self.room < count {
            self.inside.reserve(count)?;
            self.room = count;
        }
        Ok(())
    }

    /// Appends the range into the spare room, which falls by one. Takes no memory.
    pub fn push_spare(&mut self, item: Range)
        requires { 0 < self.old.spare }
        ensures items { self.new.items ≡ self.old.items ++ item ∷ [] }
        ensures spare { self.new.spare + 1 ≡ self.old.spare }
    {
        self.room -= 1;
        match self.inside.push(item) {
            Ok(()) => {}
            Err(_) => unreachable!(),
        }
    }

    /// Whether one of the ranges holds the version, by its three numbers. Takes no memory.
    pub fn holds(&self, v: &Version) -> bool
        ensures { result ≡ ranges_hold self.now.items (triple_of v.now) }
    {
        self.inside.iter().any(|range| range.holds(v))
    }

    /// A list of equal ranges. The one error is want of memory.
    pub fn copy(&self, alloc: Global) -> Result<RangeSet, AllocError>
        ensures { IfOk result (λ other. other.items ≡ self.now.items) }
    {
        copied(alloc, self.items())
    }
}
