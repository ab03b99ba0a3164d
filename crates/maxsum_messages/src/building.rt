//! The parts of messages, as they are first made.
ghost use Rattle.std.specs.Prelude.{◌≡◌, ◌<◌, ◌≤◌, [], ℕ, length, slice_index, slice_index_or, IfOk};
ghost use Rattle.version_graph.specs.Graph.{packages, are_neighbours, IsListOf};
ghost use Rattle.version_graph.specs.Stored.{rows_of};
ghost use Rattle.maxsum_messages.specs.Field.{field};
ghost use Rattle.maxsum_messages.specs.Kept.{AreSenders, AreShaped};

use crate::grid::Grid;
use lex_weights::Weight;
use std::alloc::{AllocError, Global};
use version_graph::Instance;

/// How many states each package has.
pub(crate) fn sizes_of(alloc: Global, instance: &Instance) -> Result<Vec<u32>, AllocError>
    ensures { IfOk result (λ sizes. sizes.items ≡ instance.now.sizes) }
{
    let mut sizes = Vec::new(alloc);
    for p in 0..instance.packages() {
        sizes.push(instance.states(p))?;
    }
    Ok(sizes)
}

/// The greatest of the numbers, or 0.
pub(crate) fn greatest_size(sizes: &[u32]) -> u32
    ensures { (p : ℕ) → p < length sizes.now → slice_index sizes.now p ≤ result }
{
    let mut most = 0;
    for size in sizes {
        most = most.max(*size);
    }
    most
}

/// The neighbours of p, rising.
fn neighbours_of(alloc: Global, instance: &Instance, p: u32) -> Result<Vec<u32>, AllocError>
    requires known { p < packages instance.now }
    requires few { packages instance.now ≤ 4096 }
    ensures senders { IfOk result (λ row. AreSenders (packages instance.now) p row.items) }
    ensures listed { IfOk result (λ row. IsListOf (are_neighbours instance.now p) row.items) }
{
    let neighbours = instance.neighbours(p);
    let row = Vec::from_slice(alloc, neighbours)?;
    Ok(row)
}

/// For each package its neighbours, rising.
pub(crate) fn senders_of(alloc: Global, instance: &Instance) -> Result<Vec<Vec<u32>>, AllocError>
    ensures few { packages instance.now ≤ 4096 }
    ensures each { IfOk result (λ rows. length rows.items ≡ packages instance.now) }
    ensures senders { IfOk result (λ rows. (p : ℕ) → p < packages instance.now → AreSenders (packages instance.now) p (slice_index_or (rows_of rows.items) p [])) }
    ensures listed { IfOk result (λ rows. (p : ℕ) → p < packages instance.now → IsListOf (are_neighbours instance.now p) (slice_index_or (rows_of rows.items) p [])) }
{
    let mut rows = Vec::new(alloc);
    for p in 0..instance.packages() {
        rows.push(neighbours_of(alloc, instance, p)?)?;
    }
    Ok(rows)
}

/// So many rows of so many zero weights.
fn silent_grid<W: Weight>(alloc: Global, rows: usize, count: u32) -> Result<Grid<W>, AllocError>
    ensures each { IfOk result (λ grid. length grid ≡ rows) }
    ensures wide { IfOk result (λ grid. (k : ℕ) → k < rows → length (slice_index_or grid k []) ≡ count) }
    ensures zero { IfOk result (λ grid. (k j : ℕ) → field W.none grid k j ≡ W.none) }
{
    let mut grid = Grid::make(alloc);
    for _k in 0..rows {
        grid.push_zeros(alloc, count)?;
    }
    Ok(grid)
}

/// A zero weight for each state of each package.
pub(crate) fn zero_sums<W: Weight>(alloc: Global, sizes: &[u32]) -> Result<Grid<W>, AllocError>
    ensures each { IfOk result (λ grid. length grid ≡ length sizes.now) }
    ensures wide { IfOk result (λ grid. (p : ℕ) → p < length sizes.now → length (slice_index_or grid p []) ≡ slice_index sizes.now p) }
    ensures zero { IfOk result (λ grid. (p i : ℕ) → field W.none grid p i ≡ W.none) }
{
    let mut grid = Grid::make(alloc);
    for size in sizes {
        grid.push_zeros(alloc, *size)?;
    }
    Ok(grid)
}

/// A zero message from each sender, at each state of the receiver.
pub(crate) fn silence<W: Weight>(
    alloc: Global,
    sizes: &[u32],
    senders: &[Vec<u32>],
) -> Result<Vec<Grid<W>>, AllocError>
    requires { length senders.now ≡ length sizes.now }
    ensures shaped { IfOk result (λ said. AreShaped sizes.now (rows_of senders.now) said.items) }
    ensures zero { IfOk result (λ said. (q k j : ℕ) → field W.none (slice_index_or said.items q []) k j ≡ W.none) }
{
    let mut said = Vec::new(alloc);
    for q in 0..sizes.len() {
        said.push(silent_grid(alloc, senders[q].len(), sizes[q])?)?;
    }
    Ok(said)
}
