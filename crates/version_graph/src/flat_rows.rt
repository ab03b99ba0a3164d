//! Rows of numbers in one vector.
ghost use Rattle.std.specs.Prelude.{◌≡◌, ◌<◌, ◌≤◌, ◌∷◌, ◌++◌, [], length, slice_index_or, slice_range, IfOk, OnOk};
ghost use Rattle.version_graph.specs.Flat.{no_rows};

use std::alloc::{AllocError, Global};
use std::marker::Model;

/// Rows of numbers, one behind the other, and behind them the row that isn't ended yet.
#[derive(Drop)]
pub(crate) struct FlatRows {
    numbers: Vec<u32>,
    /// Where each row starts, and last where the one that isn't ended does.
    starts: Vec<usize>,
}

impl Model for FlatRows {
    ghost use Rattle.std.specs.Prelude.{length};
    ghost use Rattle.version_graph.specs.Flat.{Flat, AreStarts, flat_of};

    ghost Value = { Flat };

    ghost view = { λ a. flat_of a.starts.items a.numbers.items };

    ghost invariant = { λ a. AreStarts a.starts.items (length a.numbers.items) };
}

impl FlatRows {
    /// No row.
    pub(crate) fn make(alloc: Global) -> Result<Self, AllocError>
        ensures { IfOk result (λ flat. flat ≡ no_rows) }
    {
        let mut starts = Vec::new(alloc);
        starts.push(0)?;
        Ok(FlatRows {
            numbers: Vec::new(alloc),
            starts,
        })
    }

    /// How many rows are ended.
    pub(crate) fn count(&self) -> usize
        ensures { result ≡ length self.now.rows }
    {
        self.starts.len() - 1
    }

    /// The row in that place.
    pub(crate) fn row(&self, place: usize) -> &[u32]
        requires { place < length self.now.rows }
        ensures { result.now ≡ slice_index_or self.now.rows place [] }
    {
        piece(
            self.numbers.as_slice(),
            self.starts[place],
            self.starts[place + 1],
        )
    }

    /// Puts a number at the end of the row that isn't ended.
    pub(crate) fn push(&mut self, number: u32) -> Result<(), AllocError>
        ensures rows { OnOk result (self.new.rows ≡ self.old.rows) }
        ensures rest { OnOk result (self.new.rest ≡ self.old.rest ++ number ∷ []) }
    {
        self.numbers.push(number)?;
        Ok(())
    }

    /// Ends the row that isn't ended.
    pub(crate) fn end_row(&mut self) -> Result<(), AllocError>
        ensures rows { OnOk result (self.new.rows ≡ self.old.rows ++ self.old.rest ∷ []) }
        ensures rest { OnOk result (self.new.rest ≡ []) }
    {
        self.starts.push(self.numbers.len())?;
        Ok(())
    }
}

/// The numbers from a place to before another one.
fn piece(numbers: &[u32], from: usize, to: usize) -> &[u32]
    requires rising { from ≤ to }
    requires within { to ≤ length numbers.now }
    ensures { result.now ≡ slice_range numbers.now from to }
{
    &numbers[from..to]
}
