//! Numbers of a book's packages.
ghost use Rattle.std.specs.Prelude.{◌≢◌, MatchOption};
ghost use Rattle.book_graph.specs.Building.{IsNumberOf, IsNowhere, IsNowhereElse};

use offer_terms::Book;
use uuid::Uuid;

/// The number of the package of that identifier.
pub(crate) fn number_in(book: &Book, uuid: &Uuid) -> Option<u32>
    ensures { MatchOption result (IsNowhere book.now uuid.now) (IsNumberOf book.now uuid.now) }
{
    // With the count comes that the book has each identifier once.
    let _count = book.packages();
    match book.number(uuid) {
        Some(package) => Some(package),
        None => None,
    }
}

/// The number of the package of that identifier, where it is another one.
pub(crate) fn number_of_other(book: &Book, package: u32, uuid: &Uuid) -> Option<u32>
    ensures { MatchOption result (IsNowhereElse book.now uuid.now «package») (λ q. IsNumberOf book.now uuid.now q × (q ≢ «package»)) }
{
    match number_in(book, uuid) {
        Some(other) => { if other == package { None } else { Some(other) } }
        None => None,
    }
}
