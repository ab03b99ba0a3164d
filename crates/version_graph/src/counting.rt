//! What is counted and linked while an instance is made.
ghost use Rattle.std.specs.Prelude.{◌≡◌, ◌≢◌, ◌<◌, ◌≤◌, ◌*◌, ◌+◌, ◌^◌, ◌||◌, ◌==◌, ℕ, true, false, [], length, sum, slice_index, slice_index_or, nat_lt, if◌then◌else◌, ◌-◌, MatchBool, IfOk, OnOk, replicate};
ghost use Rattle.std.specs.List.Sorted.{IsStrictlyIncreasing};
ghost use Rattle.version_graph.specs.Graph.{packages, states, are_neighbours, share, sum_below, bits, cells, IsListOf};
ghost use Rattle.version_graph.specs.Keys.{is_in, AreBelow, AreInOrder};
ghost use Rattle.version_graph.specs.Stored.{rows_of, includes, AreLinked, AreRising, AddsLink, AreNeighbourRows};

use crate::building::InstanceBuilder;
use std::alloc::{AllocError, Global};

/// How many states there are together.
pub(crate) fn state_sum(states: &[u32]) -> u64
    requires { length states.now ≤ 4096 }
    ensures { result ≡ sum states.now }
{
    let mut total: u64 = 0;
    for count in states {
        total += u64::from(*count);
    }
    total
}

/// As many values as are asked for, all false.
fn open_row(alloc: Global, count: u32) -> Result<Vec<bool>, AllocError>
    ensures { IfOk result (λ row. row.items ≡ replicate count false) }
{
    vec![in alloc; false; count as usize]
}

/// For each package a row of values that are all false.
pub(crate) fn open_rows(alloc: Global, states: &[u32]) -> Result<Vec<Vec<bool>>, AllocError>
    ensures each { IfOk result (λ rows. length rows.items ≡ length states.now) }
    ensures rows { IfOk result (λ rows. (p : ℕ) → p < length states.now → slice_index_or (rows_of rows.items) p [] ≡ replicate (slice_index states.now p) false) }
{
    let mut rows = Vec::new(alloc);
    for count in states {
        rows.push(open_row(alloc, *count)?)?;
    }
    Ok(rows)
}

/// Whether the number is the last one of the row.
fn ends_with(row: &[u32], q: u32) -> bool
    ensures { MatchBool result ((0 < length row.now) × (slice_index row.now (length row.now - 1) ≡ q)) (0 < length row.now → slice_index row.now (length row.now - 1) ≢ q) }
{
    match row.last() {
        Some(last) => *last == q,
        None => false,
    }
}

/// Adds a number that is no lower than the others to a rising row, if it isn't there.
fn link(row: &mut Vec<u32>, q: u32) -> Result<(), AllocError>
    requires rising { IsStrictlyIncreasing row.old.items }
    requires last { (x : ℕ) → includes row.old.items x ≡ true → x ≤ q }
    ensures rising { OnOk result (IsStrictlyIncreasing row.new.items) }
    ensures added { OnOk result ((x : ℕ) → includes row.new.items x ≡ (includes row.old.items x || x == q)) }
{
    if ends_with(row.as_slice(), q) {
        return Ok(());
    }
    row.push(q)?;
    Ok(())
}

/// As many empty rows as are asked for.
fn empty_rows(alloc: Global, count: usize) -> Result<Vec<Vec<u32>>, AllocError>
    ensures each { IfOk result (λ rows. length rows.items ≡ count) }
    ensures empty { IfOk result (λ rows. (p : ℕ) → p < count → slice_index_or (rows_of rows.items) p [] ≡ []) }
{
    let mut rows = Vec::new(alloc);
    for _p in 0..count {
        rows.push(Vec::new(alloc))?;
    }
    Ok(rows)
}

/// Adds q, which is no lower than what the row of p has, to it, if it isn't there.
fn link_row(rows: &mut Vec<Vec<u32>>, p: u32, q: u32) -> Result<(), AllocError>
    requires known { p < length rows.old.items }
    requires rising { AreRising (rows_of rows.old.items) }
    requires last { (x : ℕ) → includes (slice_index_or (rows_of rows.old.items) p []) x ≡ true → x ≤ q }
    ensures each { length rows.new.items ≡ length rows.old.items }
    ensures rising { OnOk result (AreRising (rows_of rows.new.items)) }
    ensures added { OnOk result (AddsLink (rows_of rows.old.items) (rows_of rows.new.items) p q) }
{
    let row = &mut rows[p as usize];
    link(row, q)?;
    Ok(())
}

/// Puts the pairs in their order, each once.
pub(crate) fn order_pairs(pairs: &mut Vec<(u32, u32, u32, u32)>)
    ensures same { (p i q j : ℕ) → is_in pairs.new.items p i q j ≡ is_in pairs.old.items p i q j }
    ensures ordered { AreInOrder pairs.new.items }
{
    pairs.sort_unstable();
    pairs.dedup();
}

/// For each package the packages with which a pair is listed. A package's lower neighbours come before it among the first
/// packages of the pairs, and its higher ones after it, so each number goes to the end of its row.
pub(crate) fn neighbour_rows(
    alloc: Global,
    count: usize,
    pairs: &[(u32, u32, u32, u32)],
) -> Result<Vec<Vec<u32>>, AllocError>
    requires below { AreBelow count pairs.now }
    requires ordered { AreInOrder pairs.now }
    ensures { IfOk result (λ rows. AreLinked count pairs.now (rows_of rows.items)) }
{
    let mut rows = empty_rows(alloc, count)?;
    for pair in pairs {
        let (p, q, _, _) = *pair;
        link_row(&mut rows, p, q)?;
        link_row(&mut rows, q, p)?;
    }
    Ok(rows)
}

/// The product of two numbers of states.
fn product(first: u32, second: u32) -> u64
    requires first { first ≤ 65536 }
    requires second { second ≤ 65536 }
    ensures value { result ≡ first * second }
    ensures few { result ≤ 2 ^ 32 }
{
    u64::from(first) * u64::from(second)
}

/// The two sums over neighbouring pairs.
#[derive(Clone, Copy)]
pub(crate) struct Sums {
    pub(crate) bits: u64,
    pub(crate) cells: u64,
}

impl InstanceBuilder {
    /// What the pair of p and q adds where q is the lower package.
    fn pair_sums(&self, p: u32, q: u32) -> Sums
        requires first { p < packages self.now }
        requires second { q < packages self.now }
        ensures bits { result.bits ≡ (if nat_lt q p then states self.now p * states self.now q else 0) }
        ensures cells { result.cells ≡ (if nat_lt q p then states self.now p + states self.now q else 0) }
        ensures few_bits { result.bits ≤ 2 ^ 32 }
        ensures few_cells { result.cells ≤ 2 ^ 32 }
    {
        if q < p {
            let first = self.states(p);
            let second = self.states(q);
            return Sums {
                bits: product(first, second),
                cells: u64::from(first) + u64::from(second),
            };
        }
        Sums { bits: 0, cells: 0 }
    }

    /// What the pairs of p and a lower package add.
    fn sums_of(&self, p: u32, row: &[u32]) -> Sums
        requires known { p < packages self.now }
        requires list { IsListOf (are_neighbours self.now p) row.now }
        requires inside { (k : ℕ) → k < length row.now → slice_index row.now k < packages self.now }
        ensures bits { result.bits ≡ sum_below (share self.now (λ a b. a * b) p) p }
        ensures cells { result.cells ≡ sum_below (share self.now (λ a b. a + b) p) p }
        ensures few_bits { result.bits ≤ p * 2 ^ 32 }
        ensures few_cells { result.cells ≤ p * 2 ^ 32 }
    {
        let mut bits: u64 = 0;
        let mut cells: u64 = 0;
        for q in row {
            let more = self.pair_sums(p, *q);
            bits += more.bits;
            cells += more.cells;
        }
        Sums { bits, cells }
    }

    /// The sums over all neighbouring pairs.
    #[tactic(auto, unfolding(crate::specs::Graph::neighbour_sum))]
    pub(crate) fn sums(&self, rows: &[Vec<u32>]) -> Sums
        requires { AreNeighbourRows self.now (rows_of rows.now) }
        ensures bits { result.bits ≡ bits self.now }
        ensures cells { result.cells ≡ cells self.now }
    {
        let mut bits: u64 = 0;
        let mut cells: u64 = 0;
        for p in 0..self.packages() {
            let more = self.sums_of(p, rows[p as usize].as_slice());
            bits += more.bits;
            cells += more.cells;
        }
        Sums { bits, cells }
    }
}
