//! What checking works on.
ghost use Rattle.std.specs.Prelude.{◌≡◌, ℕ, ◌<◌, ◌≤◌, ◌^◌, length, IfOk};
ghost use Rattle.offer_terms.specs.Booked.{package_at};

use bit_rows::BitTable;
use offer_terms::Book;
use std::alloc::{AllocError, Global};

/// What `check` and `raisable` work on, made once for a book, so that they take no memory themselves.
#[derive(Drop)]
pub struct Scratch {
    /// What makes Julia's version, which has no memory.
    pub(crate) alloc: Global,
    /// For each package whether it is marked.
    pub(crate) marks: Vec<bool>,
    /// The marked packages, in the order in which they were found.
    pub(crate) order: Vec<u32>,
    /// For each package and the place of each of its offers whether all others allow it.
    pub(crate) table: BitTable,
}

impl Scratch {
    ghost use Rattle.selection_check.specs.Scratch.{IsScratchFor};

    /// Makes the scratch values for a book. The one error is want of memory.
    pub fn make(alloc: Global, book: &Book) -> Result<Self, AllocError>
        ensures { IfOk result (IsScratchFor book.now) }
    {
        let count = book.packages();
        Ok(Scratch {
            alloc,
            marks: marks(alloc, count as usize)?,
            order: Vec::with_capacity(alloc, count as usize)?,
            table: BitTable::make(alloc, count, widest(book))?,
        })
    }
}

/// So many marks.
fn marks(alloc: Global, count: usize) -> Result<Vec<bool>, AllocError>
    ensures { IfOk result (λ marks. length marks.items ≡ count) }
{
    Ok(vec![in alloc; false; count]?)
}

/// How many offers a package has at most, where they are few.
fn widest(book: &Book) -> u32
    ensures { (p : ℕ) → p < length book.now → length (package_at book.now p).offers < 2 ^ 32 → length (package_at book.now p).offers ≤ result }
{
    let mut widest = 0;
    for package in 0..book.packages() {
        widest = offer_count(book, package).max(widest);
    }
    widest
}

/// How many offers the package has, where they are few.
fn offer_count(book: &Book, package: u32) -> u32
    requires { «package» < length book.now }
    ensures { length (package_at book.now «package»).offers < 2 ^ 32 → length (package_at book.now «package»).offers ≤ result }
{
    book.offers(package).len().min(u32::MAX as usize) as u32
}
