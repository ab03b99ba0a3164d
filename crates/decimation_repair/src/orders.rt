//! The orders in which the states of packages are tried.
ghost use Rattle.std.specs.Prelude.{◌≡◌, ◌<◌, ◌≤◌, [], length, slice_get, slice_index, slice_index_or, slice_set, IfOk};
ghost use Rattle.decimation_repair.specs.Ordered.{HasRoomFor, KeepsRoom};

use crate::lists::write_over;
use std::alloc::{AllocError, Global};
use std::marker::Model;
use version_graph::Instance;

/// For each package, its states in the order in which they are tried, where it is chosen.
#[derive(Drop)]
pub(crate) struct Orders {
    rows: Vec<Vec<u32>>,
}

impl Model for Orders {
    ghost use Rattle.version_graph.specs.Stored.{rows_of};
    ghost use Rattle.decimation_repair.specs.Ordered.{Ordered, rooms_of};

    ghost Value = { Ordered };

    ghost view = { λ a. record { rows = rows_of a.rows.items; room = rooms_of a.rows.items } };
}

impl Orders {
    /// No orders, with room for the states of each package.
    pub(crate) fn make(alloc: Global, instance: &Instance) -> Result<Self, AllocError>
        ensures { IfOk result (HasRoomFor instance.now) }
    {
        let mut rows = Vec::new(alloc);
        for p in 0..instance.packages() {
            rows.push(Vec::with_capacity(alloc, instance.states(p) as usize)?)?;
        }
        Ok(Orders { rows })
    }

    /// The state of p in that place of its order.
    pub(crate) fn state(&self, p: u32, place: u32) -> Option<u32>
        requires { p < length self.now.rows }
        ensures { result ≡ slice_get (slice_index_or self.now.rows p []) place }
    {
        self.rows[p as usize].get(place as usize).copied()
    }

    /// Writes the order of the states of p.
    pub(crate) fn write(&mut self, p: u32, states: &[u32])
        requires known { p < length self.old.rows }
        requires room { length states.now ≤ slice_index self.old.room p }
        ensures rows { self.new.rows ≡ slice_set self.old.rows p states.now }
        ensures room { KeepsRoom self.old self.new }
    {
        write_over(&mut self.rows[p as usize], states);
    }
}
