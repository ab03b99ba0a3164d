//! Rows of weights.
ghost use Rattle.std.specs.Prelude.{◌≡◌, ◌≢◌, ◌<◌, ◌∷◌, ◌++◌, [], ℕ, length, slice_index_or, slice_set, OnOk, IfOk, replicate};
ghost use Rattle.maxsum_messages.specs.Field.{field};

use lex_weights::Weight;
use std::alloc::{AllocError, Global};
use std::marker::Model;

/// Rows of weights, each of its own length.
#[derive(Drop)]
pub(crate) struct Grid<W> {
    rows: Vec<Vec<W>>,
}

impl<W> Model for Grid<W> {
    ghost use Rattle.std.specs.Prelude.{List};
    ghost use Rattle.version_graph.specs.Stored.{rows_of};

    ghost Value = { List (List W) };

    ghost view = { λ a. rows_of a.rows.items };
}

impl<W: Weight> Grid<W> {
    /// No rows.
    pub(crate) fn make(alloc: Global) -> Self
        ensures { result ≡ [] }
    {
        Grid {
            rows: Vec::new(alloc),
        }
    }

    /// Appends a row of so many zero weights.
    pub(crate) fn push_zeros(&mut self, alloc: Global, count: u32) -> Result<(), AllocError>
        ensures { OnOk result (self.new ≡ self.old ++ replicate count W.none ∷ []) }
    {
        self.rows.push(zeros(alloc, count)?)?;
        Ok(())
    }

    /// How many rows there are.
    pub(crate) fn len(&self) -> usize
        ensures { result ≡ length self.now }
    {
        self.rows.len()
    }

    /// The weight in the place c of the row r.
    pub(crate) fn get(&self, r: usize, c: usize) -> W
        requires row { r < length self.now }
        requires place { c < length (slice_index_or self.now r []) }
        ensures { result ≡ slice_index_or (slice_index_or self.now r []) c W.none }
    {
        self.rows[r][c]
    }

    /// Writes the weight in the place c of the row r.
    pub(crate) fn set(&mut self, r: usize, c: usize, w: W)
        requires row { r < length self.old }
        requires place { c < length (slice_index_or self.old r []) }
        ensures { self.new ≡ slice_set self.old r (slice_set (slice_index_or self.old r []) c w) }
    {
        let row = &mut self.rows[r];
        row[c] = w;
    }

    /// Makes every weight zero.
    pub(crate) fn clear(&mut self)
        ensures each { length self.new ≡ length self.old }
        ensures places { (r : ℕ) → length (slice_index_or self.new r []) ≡ length (slice_index_or self.old r []) }
        ensures zero { (r c : ℕ) → field W.none self.new r c ≡ W.none }
    {
        for r in 0..self.len() {
            self.clear_row(r);
        }
    }

    /// Makes every weight of the row r zero.
    pub(crate) fn clear_row(&mut self, r: usize)
        requires { r < length self.old }
        ensures each { length self.new ≡ length self.old }
        ensures places { (q : ℕ) → length (slice_index_or self.new q []) ≡ length (slice_index_or self.old q []) }
        ensures others { (q c : ℕ) → q ≢ r → field W.none self.new q c ≡ field W.none self.old q c }
        ensures zero { (c : ℕ) → field W.none self.new r c ≡ W.none }
    {
        for c in 0..self.width(r) {
            self.set(r, c, W::zero());
        }
    }

    /// How many weights the row r has.
    fn width(&self, r: usize) -> usize
        requires { r < length self.now }
        ensures { result ≡ length (slice_index_or self.now r []) }
    {
        self.rows[r].len()
    }
}

/// As many zero weights as are asked for.
pub(crate) fn zeros<W: Weight>(alloc: Global, count: u32) -> Result<Vec<W>, AllocError>
    ensures { IfOk result (λ row. row.items ≡ replicate count W.none) }
{
    let mut row = Vec::new(alloc);
    for _i in 0..count {
        row.push(W::zero())?;
    }
    Ok(row)
}
