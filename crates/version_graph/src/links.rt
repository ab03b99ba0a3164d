//! What a package has to do with its neighbours.
ghost use Rattle.std.specs.Prelude.{◌≡◌, ◌<◌, ◌&&◌, ℕ, true, false, length, replicate, slice_index, IfOk, MatchOption};
ghost use Rattle.std.specs.List.Sorted.{IsStrictlyIncreasing};
ghost use Rattle.bit_rows.specs.Rows.{row_at, any_both, agree_under};
ghost use Rattle.version_graph.specs.Stored.{includes};
ghost use Rattle.version_graph.specs.Links.{Linked, IsLinked, number_at, table_at, allows_at, IsInTable, Forbids, IsFree};

use bit_rows::{BitRow, BitTable};
use std::alloc::{AllocError, Global};
use std::marker::Model;

/// The neighbours of a package, rising, and for each of them which states are allowed together.
#[derive(Drop)]
pub(crate) struct Links {
    numbers: Vec<u32>,
    tables: Vec<BitTable>,
}

impl Model for Links {
    ghost use Rattle.version_graph.specs.Links.{Linked, IsLinked};

    ghost Value = { Linked };

    ghost view = { λ a. record { numbers = a.numbers.items; tables = a.tables.items } };

    ghost invariant = { λ a. IsLinked (record { numbers = a.numbers.items; tables = a.tables.items }) };
}

impl Links {
    /// A package of so many states with those neighbours, where all is allowed.
    pub(crate) fn make(
        alloc: Global,
        numbers: Vec<u32>,
        count: u32,
        sizes: &[u32],
    ) -> Result<Self, AllocError>
        requires rising { IsStrictlyIncreasing numbers.items }
        requires known { (k : ℕ) → k < length numbers.items → slice_index numbers.items k < length sizes.now }
        ensures numbers { IfOk result (λ links. links.numbers ≡ numbers.items) }
        ensures free { IfOk result (λ links. IsFree links count sizes.now) }
    {
        let mut tables = Vec::new(alloc);
        for k in 0..numbers.len() {
            tables.push(free_table(alloc, count, sizes[numbers[k] as usize])?)?;
        }
        Ok(Links { numbers, tables })
    }

    /// The neighbours.
    pub(crate) fn numbers(&self) -> &[u32]
        ensures { result.now ≡ self.now.numbers }
    {
        self.numbers.as_slice()
    }

    /// The place of that neighbour.
    fn place_of(&self, q: u32) -> Option<usize>
        ensures { MatchOption result (includes self.now.numbers q ≡ false) (λ k. (k < length self.now.numbers) × (number_at self.now k ≡ q)) }
    {
        match self.numbers.binary_search(&q) {
            Ok(place) => Some(place),
            Err(_) => None,
        }
    }

    /// Forbids the state i with the state j of q, if q is a neighbour.
    pub(crate) fn forbid(&mut self, i: u32, q: u32, j: u32)
        requires { (k : ℕ) → k < length self.old.numbers → number_at self.old k ≡ q → IsInTable (table_at self.old k) i j }
        ensures { Forbids self.old self.new i q j }
    {
        if let Some(place) = self.place_of(q) {
            self.tables[place].clear(i, j);
        }
    }

    /// Whether the state i is allowed with the state j of q.
    pub(crate) fn allows(&self, i: u32, q: u32, j: u32) -> bool
        requires { (k : ℕ) → k < length self.now.numbers → number_at self.now k ≡ q → IsInTable (table_at self.now k) i j }
        ensures none { includes self.now.numbers q ≡ false → result ≡ true }
        ensures some { (k : ℕ) → k < length self.now.numbers → number_at self.now k ≡ q → result ≡ allows_at self.now k i j }
    {
        match self.place_of(q) {
            Some(place) => self.tables[place].get(i, j),
            None => true,
        }
    }

    /// Whether the state i is allowed with a state of the row, if q is a neighbour.
    pub(crate) fn allows_any(&self, i: u32, q: u32, row: &BitRow) -> Option<bool>
        requires known { (k : ℕ) → k < length self.now.numbers → number_at self.now k ≡ q → i < length (table_at self.now k) }
        requires wide { (k : ℕ) → k < length self.now.numbers → number_at self.now k ≡ q → length (row_at (table_at self.now k) i) ≡ length row.now }
        ensures { MatchOption result (includes self.now.numbers q ≡ false)
            (λ yes. (k : ℕ) × (k < length self.now.numbers) × (number_at self.now k ≡ q) × (yes ≡ any_both (row_at (table_at self.now k) i) row.now)) }
    {
        let place = self.place_of(q)?;
        Some(self.tables[place].and_any(i, row))
    }

    /// Whether the states i and j are allowed with the same states of the row.
    pub(crate) fn are_alike(&self, i: u32, j: u32, q: u32, row: &BitRow) -> bool
        requires first { (k : ℕ) → k < length self.now.numbers → number_at self.now k ≡ q → i < length (table_at self.now k) }
        requires second { (k : ℕ) → k < length self.now.numbers → number_at self.now k ≡ q → j < length (table_at self.now k) }
        requires wide { (k : ℕ) → k < length self.now.numbers → number_at self.now k ≡ q → length (row_at (table_at self.now k) i) ≡ length row.now }
        ensures none { includes self.now.numbers q ≡ false → result ≡ true }
        ensures some { (k : ℕ) → k < length self.now.numbers → number_at self.now k ≡ q → result ≡ agree_under (row_at (table_at self.now k) i) (row_at (table_at self.now k) j) row.now }
    {
        match self.place_of(q) {
            Some(place) => self.tables[place].equal(i, j, row),
            None => true,
        }
    }
}

/// A table in which all is allowed.
fn free_table(alloc: Global, count: u32, width: u32) -> Result<BitTable, AllocError>
    ensures { IfOk result (λ table. table ≡ replicate count (replicate width true)) }
{
    let mut table = BitTable::make(alloc, count, width)?;
    table.fill();
    Ok(table)
}
