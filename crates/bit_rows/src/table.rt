//! A table of rows of truth values, all of one width.
ghost use Rattle.std.specs.Prelude.{◌≡◌, ◌+◌, ◌*◌, ◌<◌, ℕ, false, true, length, replicate, map, slice_set, IfOk};
ghost use Rattle.bit_rows.specs.Rows.{row_at, truth_at, both, any_both, agree_under};
ghost use Rattle.bit_rows.specs.Stored.{bits_from, words_of};

use crate::row::BitRow;
use crate::words::{
    any_difference, any_in_common, clear_bit, empty_words, has_bit, part, set_all, set_bit,
    word_count,
};
use std::alloc::{AllocError, Global};
use std::marker::Model;

/// A table of truth values.
#[derive(Drop)]
pub struct BitTable {
    rows: u32,
    width: u32,
    stride: usize,
    words: Vec<u64>,
}

impl Model for BitTable {
    ghost use Rattle.std.specs.Prelude.{List, Bool};
    ghost use Rattle.bit_rows.specs.Stored.{rows_from, IsTable};

    ghost Value = { List (List Bool) };

    ghost view = { λ a. rows_from a.words.items a.stride a.width a.rows };

    ghost invariant = { λ a. IsTable a.words.items a.stride a.width a.rows };
}

impl BitTable {
    /// A table of so many rows of so many places, which are all false. The one error is want of memory.
    pub fn make(alloc: Global, rows: u32, width: u32) -> Result<Self, AllocError>
        ensures { IfOk result (λ table. table ≡ replicate rows (replicate width false)) }
    {
        let stride = word_count(width);
        let words = empty_words(alloc, rows as usize * stride)?;
        Ok(BitTable {
            rows,
            width,
            stride,
            words,
        })
    }

    /// Makes every place true. It takes no memory.
    pub fn fill(&mut self)
        ensures { self.new ≡ map (λ xs. map (λ b. true) xs) self.old }
    {
        set_all(&mut self.words);
    }

    /// Makes that place of that row true and leaves all else. It takes no memory.
    pub fn set(&mut self, row: u32, place: u32)
        requires known { row < length self.old }
        requires inside { place < length (row_at self.old row) }
        ensures { self.new ≡ slice_set self.old row (slice_set (row_at self.old row) place true) }
    {
        let start = self.start_of(row);
        set_bit(&mut self.words, start + (place / 64) as usize, place % 64);
    }

    /// Makes that place of that row false and leaves all else. It takes no memory.
    pub fn clear(&mut self, row: u32, place: u32)
        requires known { row < length self.old }
        requires inside { place < length (row_at self.old row) }
        ensures { self.new ≡ slice_set self.old row (slice_set (row_at self.old row) place false) }
    {
        let start = self.start_of(row);
        clear_bit(&mut self.words, start + (place / 64) as usize, place % 64);
    }

    /// Whether that place of that row is true. It takes no memory.
    pub fn get(&self, row: u32, place: u32) -> bool
        requires known { row < length self.now }
        requires inside { place < length (row_at self.now row) }
        ensures { result ≡ truth_at (row_at self.now row) place }
    {
        let start = self.start_of(row);
        has_bit(&self.words, start + (place / 64) as usize, place % 64)
    }

    /// Whether some place is true in both rows. It takes no memory.
    pub fn and_any(&self, row: u32, other: &BitRow) -> bool
        requires known { row < length self.now }
        requires widths { length (row_at self.now row) ≡ length other.now }
        ensures { result ≡ any_both (row_at self.now row) other.now }
    {
        any_in_common(self.words_at(row), other.words())
    }

    /// Leaves true in the target the places that are true in both rows. It takes no memory.
    pub fn and_into(&self, row: u32, target: &mut BitRow)
        requires known { row < length self.now }
        requires widths { length (row_at self.now row) ≡ length target.old }
        ensures { target.new ≡ both (row_at self.now row) target.old }
    {
        target.keep(self.words_at(row));
    }

    /// Whether the two rows agree in every place that is true in the mask. It takes no memory.
    pub fn equal(&self, a: u32, b: u32, mask: &BitRow) -> bool
        requires first { a < length self.now }
        requires second { b < length self.now }
        requires widths { length (row_at self.now a) ≡ length mask.now }
        ensures { result ≡ agree_under (row_at self.now a) (row_at self.now b) mask.now }
    {
        !any_difference(self.words_at(a), self.words_at(b), mask.words())
    }

    /// The place of the first word of the row.
    fn start_of(&self, row: u32) -> usize
        requires { row < length self.now }
        ensures { result ≡ row * words_of (length (row_at self.now row)) }
    {
        row as usize * self.stride
    }

    /// The words that hold the row.
    fn words_at(&self, row: u32) -> &[u64]
        requires { row < length self.now }
        ensures long { length result.now ≡ words_of (length (row_at self.now row)) }
        ensures bits { bits_from result.now 0 (length (row_at self.now row)) ≡ row_at self.now row }
        ensures alike { (r : ℕ) → r < length self.now → length (row_at self.now r) ≡ length (row_at self.now row) }
    {
        let start = self.start_of(row);
        part(self.words.as_slice(), start, self.stride)
    }
}
