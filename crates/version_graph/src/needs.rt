//! What each state needs.
ghost use Rattle.std.specs.Prelude.{◌≡◌, ◌≢◌, ◌<◌, ℕ, [], length, slice_index_or, IfOk, OnOk};
ghost use Rattle.version_graph.specs.Graph.{packages, states, does_need};
ghost use Rattle.version_graph.specs.Needed.{need_row, AreNeeds, AddsNeed, AddsNeeds};

use crate::flat_rows::FlatRows;
use crate::graph::Instance;
use std::alloc::{AllocError, Global};
use std::marker::Model;

/// For each state of an instance the packages that it needs.
#[derive(Drop)]
pub struct Needs {
    /// The place of each package's first row, and last how many rows there are.
    firsts: Vec<u32>,
    rows: FlatRows,
}

impl Model for Needs {
    ghost use Rattle.std.specs.Prelude.{List, ℕ, length};
    ghost use Rattle.version_graph.specs.Flat.{AreStarts, cut};

    ghost Value = { List (List (List ℕ)) };

    ghost view = { λ a. cut a.firsts.items a.rows.rows };

    ghost invariant = { λ a. AreStarts a.firsts.items (length a.rows.rows) };
}

impl Needs {
    /// The packages that the state i of p needs, rising. It takes no memory.
    pub fn of(&self, p: u32, i: u32) -> &[u32]
        requires known { p < length self.now }
        requires state { i < length (slice_index_or self.now p []) }
        ensures { result.now ≡ need_row self.now p i }
    {
        let first = self.firsts[p as usize] as usize;
        self.rows.row(first + i as usize)
    }

    /// What each state of the instance needs.
    pub(crate) fn of_instance(alloc: Global, instance: &Instance) -> Result<Self, AllocError>
        ensures { IfOk result (λ needs. AreNeeds instance.now needs) }
    {
        let mut rows = FlatRows::make(alloc)?;
        let mut firsts = Vec::new(alloc);
        firsts.push(0)?;
        for p in 0..instance.packages() {
            add_needs(instance, p, &mut rows)?;
            firsts.push(rows.count() as u32)?;
        }
        Ok(Needs { firsts, rows })
    }
}

/// Adds for each state of p a row of what it needs.
fn add_needs(instance: &Instance, p: u32, rows: &mut FlatRows) -> Result<(), AllocError>
    requires known { p < packages instance.now }
    requires ended { rows.old.rest ≡ [] }
    ensures { OnOk result (AddsNeeds instance.now p (states instance.now p) rows.old rows.new) }
{
    for i in 0..instance.states(p) {
        add_need(instance, p, i, rows)?;
    }
    Ok(())
}

/// Adds a row of what the state i of p needs.
fn add_need(instance: &Instance, p: u32, i: u32, rows: &mut FlatRows) -> Result<(), AllocError>
    requires known { p < packages instance.now }
    requires state { i < states instance.now p }
    requires ended { rows.old.rest ≡ [] }
    ensures { OnOk result (AddsNeed instance.now p i rows.old rows.new) }
{
    let neighbours = instance.neighbours(p);
    for q in neighbours {
        if does_need(instance, p, i, *q) {
            rows.push(*q)?;
        }
    }
    rows.end_row()?;
    Ok(())
}

/// Whether the state i of p needs q.
fn does_need(instance: &Instance, p: u32, i: u32, q: u32) -> bool
    requires first { p < packages instance.now }
    requires first_state { i < states instance.now p }
    requires second { q < packages instance.now }
    requires apart { q ≢ p }
    ensures { result ≡ does_need instance.now p i q }
{
    !instance.allowed(p, i, q, instance.states(q) - 1)
}
