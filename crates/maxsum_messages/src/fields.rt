//! The fields: the weight that each state has by itself.
ghost use Rattle.std.specs.Prelude.{◌≡◌, ◌<◌, ◌^◌, ℕ, [], length, slice_index_or, IfOk, if◌then◌else◌};
ghost use Rattle.version_graph.specs.Graph.{packages, states, is_state};
ghost use Rattle.maxsum_messages.specs.Field.{field, AreFieldsFor};

use crate::grid::Grid;
use lex_weights::Weight;
use std::alloc::{AllocError, Global};
use std::marker::Model;
use version_graph::Instance;

/// For each package and state, the weight that the state has by itself.
#[derive(Drop)]
pub struct Fields<W: Weight> {
    grid: Grid<W>,
}

impl<W: Weight> Model for Fields<W> {
    ghost use Rattle.std.specs.Prelude.{List, ◌^◌};
    ghost use Rattle.maxsum_messages.specs.Field.{AreWithin};

    ghost Value = { List (List W) };

    ghost view = { λ a. a.grid };

    ghost invariant = { λ a. AreWithin (W.is_within (2 ^ 24)) W.none a.grid };
}

impl<W: Weight> Fields<W> {
    /// The fields of the instance, zero in every place. The one error is want of memory.
    pub fn make(alloc: Global, instance: &Instance) -> Result<Self, AllocError>
        ensures shape { IfOk result (λ fields. AreFieldsFor instance.now fields) }
        ensures zero { IfOk result (λ fields. (p i : ℕ) → field W.none fields p i ≡ W.none) }
    {
        let mut grid = Grid::make(alloc);
        for p in 0..instance.packages() {
            grid.push_zeros(alloc, instance.states(p))?;
        }
        Ok(Fields { grid })
    }

    /// Sets the field of the state i of p, each of whose levels lies within plus or minus 2^24. It takes no
    /// memory.
    pub fn set(&mut self, p: u32, i: u32, w: W)
        requires known { p < length self.old }
        requires state { i < length (slice_index_or self.old p []) }
        requires small { W.is_within (2 ^ 24) w }
        ensures each { length self.new ≡ length self.old }
        ensures wide { (q : ℕ) → length (slice_index_or self.new q []) ≡ length (slice_index_or self.old q []) }
        ensures set { (q j : ℕ) → field W.none self.new q j ≡ (if is_state q j p i then w else field W.none self.old q j) }
    {
        self.grid.set(p as usize, i as usize, w);
    }

    /// The field of the state i of p. It takes no memory.
    pub fn get(&self, p: u32, i: u32) -> W
        requires known { p < length self.now }
        requires state { i < length (slice_index_or self.now p []) }
        ensures field { result ≡ field W.none self.now p i }
        ensures small { W.is_within (2 ^ 24) result }
    {
        self.grid.get(p as usize, i as usize)
    }
}
