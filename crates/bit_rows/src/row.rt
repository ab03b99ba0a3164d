//! One row of truth values.
ghost use Rattle.std.specs.Prelude.{◌≡◌, ◌<◌, ◌^◌, false, true, length, replicate, slice_set, count_by, IfOk};
ghost use Rattle.bit_rows.specs.Rows.{truth_at, both};
ghost use Rattle.bit_rows.specs.Stored.{bits_from, words_of, IsRow};

use crate::words::{bit_count, clear_bit, empty_words, has_bit, keep_common, set_bit, word_count};
use std::alloc::{AllocError, Global};
use std::marker::Model;

/// A row of truth values.
#[derive(Drop)]
pub struct BitRow {
    width: u32,
    words: Vec<u64>,
}

impl Model for BitRow {
    ghost use Rattle.std.specs.Prelude.{List, Bool};
    ghost use Rattle.bit_rows.specs.Stored.{bits_from, IsRow};

    ghost Value = { List Bool };

    ghost view = { λ a. bits_from a.words.items 0 a.width };

    ghost invariant = { λ a. IsRow a.words.items a.width };
}

impl BitRow {
    /// A row of so many places that are all false. The one error is want of memory.
    pub fn make(alloc: Global, width: u32) -> Result<Self, AllocError>
        ensures { IfOk result (λ row. row ≡ replicate width false) }
    {
        let words = empty_words(alloc, word_count(width))?;
        Ok(BitRow { width, words })
    }

    /// How many places the row has. It takes no memory.
    pub fn width(&self) -> u32
        ensures { result ≡ length self.now }
    {
        self.width
    }

    /// Makes the place true and leaves all else. It takes no memory.
    pub fn set(&mut self, place: u32)
        requires { place < length self.old }
        ensures { self.new ≡ slice_set self.old place true }
    {
        set_bit(&mut self.words, (place / 64) as usize, place % 64);
    }

    /// Makes the place false and leaves all else. It takes no memory.
    pub fn clear(&mut self, place: u32)
        requires { place < length self.old }
        ensures { self.new ≡ slice_set self.old place false }
    {
        clear_bit(&mut self.words, (place / 64) as usize, place % 64);
    }

    /// Whether the place is true. It takes no memory.
    pub fn get(&self, place: u32) -> bool
        requires { place < length self.now }
        ensures { result ≡ truth_at self.now place }
    {
        has_bit(&self.words, (place / 64) as usize, place % 64)
    }

    /// The words that hold the row.
    pub(crate) fn words(&self) -> &[u64]
        ensures row { IsRow result.now (length self.now) }
        ensures bits { bits_from result.now 0 (length self.now) ≡ self.now }
        ensures narrow { length self.now < 2 ^ 32 }
    {
        self.words.as_slice()
    }

    /// Leaves true the places that are true in those words too.
    pub(crate) fn keep(&mut self, words: &[u64])
        requires { length words.now ≡ words_of (length self.old) }
        ensures { self.new ≡ both (bits_from words.now 0 (length self.old)) self.old }
    {
        keep_common(&mut self.words, words);
    }
}

/// How many places are true. It takes no memory.
pub fn count(row: &BitRow) -> u32
    ensures { result ≡ count_by (λ b. b) row.now }
{
    bit_count(row.words()) as u32
}
