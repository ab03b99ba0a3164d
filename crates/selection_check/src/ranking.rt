//! Which of two packages stands first.
ghost use Rattle.std.specs.Prelude.{◌≡◌};
ghost use Rattle.std.specs.Ordering.{is_lt};
ghost use Rattle.selection_check.specs.Order as spec;

use offer_terms::Book;
use uuid::Uuid;

/// The package's number, or that of the book's packages where it has none.
fn rank(book: &Book, uuid: &Uuid) -> u32
    ensures { result ≡ spec.rank book.now uuid.now }
{
    match book.number(uuid) {
        Some(package) => package,
        None => book.packages(),
    }
}

/// Whether the one stands before the other.
fn is_before(book: &Book, one: &Uuid, other: &Uuid) -> bool
    ensures { result ≡ is_lt (spec.id_cmp book.now one.now other.now) }
{
    rank(book, one)
        .cmp(&rank(book, other))
        .then(one.cmp(other))
        .is_lt()
}

/// Of two the one that stands first.
pub(crate) fn first_id(book: &Book, one: Option<Uuid>, other: Option<Uuid>) -> Option<Uuid>
    ensures { result ≡ spec.first_id book.now one other }
{
    match (one, other) {
        (None, other) => other,
        (Some(one), None) => Some(one),
        (Some(one), Some(other)) => {
            if is_before(book, &other, &one) {
                Some(other)
            } else {
                Some(one)
            }
        }
    }
}
