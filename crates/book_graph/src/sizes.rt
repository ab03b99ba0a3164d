//! How many states a book's packages have.
ghost use Rattle.std.specs.Prelude.{◌≡◌, ◌-◌, ◌≤◌, ◌^◌, sum, min, IfOk};
ghost use Rattle.book_graph.specs.StandsFor.{sizes_of, IsBook};

use offer_terms::Book;
use std::alloc::{AllocError, Global};

/// How many states all packages have together, as far as 64 bits count.
pub(crate) fn state_total(book: &Book) -> u64
    ensures total { result ≡ min (sum (sizes_of book.now)) (2 ^ 64 - 1) }
    ensures sound { IsBook book.now }
{
    let mut total: u64 = 0;
    for package in 0..book.packages() {
        let offers = book.offers(package);
        total = total.saturating_add(offers.len() as u64 + 1);
    }
    total
}

/// How many states each package has.
pub(crate) fn sizes_of(alloc: Global, book: &Book) -> Result<Vec<u32>, AllocError>
    requires { sum (sizes_of book.now) ≤ 65536 }
    ensures { IfOk result (λ sizes. sizes.items ≡ sizes_of book.now) }
{
    let mut sizes = Vec::new(alloc);
    for package in 0..book.packages() {
        sizes.push(book.offers(package).len() as u32 + 1)?;
    }
    Ok(sizes)
}
