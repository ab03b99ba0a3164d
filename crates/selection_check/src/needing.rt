//! Which packages are needed.
ghost use Rattle.std.specs.Prelude.{◌≡◌, ◌<◌, ◌≤◌, ℕ, ◌+◌, ◌∷◌, ◌++◌, [], ◌||◌, ◌==◌, true, false, length, slice_index_or, slice_set, vec_capacity};
ghost use Rattle.offer_terms.specs.Booked.{book_offers};
ghost use Rattle.offer_terms.specs.Demanded.{Wanted, wanted};
ghost use Rattle.offer_terms.specs.Feasible.{IsFeasible};
ghost use Rattle.selection_check.specs.Needing.{is_marked, AreListed, Grows, MarksOne, Marks, AreNeeded, AreMet, AreTheNeeded};

use crate::selected::deps_of;
use offer_terms::{Book, Demand, Selection};
use pkg_world::Name;
use uuid::Uuid;

/// Marks the packages that are needed, and lists each of them once.
pub(crate) fn mark_needed(
    book: &Book,
    demand: &Demand,
    selection: &Selection,
    marks: &mut Vec<bool>,
    order: &mut Vec<u32>,
)
    requires feasible { IsFeasible (book_offers book.now) (wanted demand.now) selection.now.items }
    requires each { length marks.old.items ≡ length book.now }
    requires room { length book.now ≤ vec_capacity order.old }
    ensures needed { AreTheNeeded book.now (wanted demand.now) selection.now.items marks.new.items }
    ensures each { length marks.new.items ≡ length book.now }
    ensures room { length book.now ≤ vec_capacity order.new }
{
    begin(book, marks, order);
    mark_all(book, demand.roots.items(), marks, order);
    for next in 0..book.packages() {
        if next as usize >= order.len() {
            return;
        }
        spread(book, selection, marks, order, next);
    }
}

/// Takes all marks away.
fn begin(book: &Book, marks: &mut Vec<bool>, order: &mut Vec<u32>)
    requires each { length marks.old.items ≡ length book.now }
    ensures listed { AreListed (length book.now) marks.new.items order.new.items }
    ensures none { (p : ℕ) → is_marked marks.new.items p ≡ false }
    ensures room { vec_capacity order.old ≤ vec_capacity order.new }
{
    for package in 0..book.packages() {
        set(marks, package, false);
    }
    order.clear();
}

/// Marks what the selected offer of the package at a place of the list depends on.
fn spread(
    book: &Book,
    selection: &Selection,
    marks: &mut Vec<bool>,
    order: &mut Vec<u32>,
    next: u32,
)
    requires place { next < length order.old.items }
    requires room { length book.now ≤ vec_capacity order.old }
    requires listed { AreListed (length book.now) marks.old.items order.old.items }
    requires met { AreMet book.now selection.now.items marks.old.items order.old.items next }
    ensures listed { AreListed (length book.now) marks.new.items order.new.items }
    ensures needed { (w : Wanted) → AreNeeded book.now w selection.now.items marks.old.items → AreNeeded book.now w selection.now.items marks.new.items }
    ensures met { AreMet book.now selection.now.items marks.new.items order.new.items (next + 1) }
    ensures grows { Grows marks.old.items marks.new.items order.old.items order.new.items }
    ensures room { vec_capacity order.old ≤ vec_capacity order.new }
{
    let package = number_at(order.as_slice(), next);
    mark_all(book, deps_of(book, selection, package), marks, order);
}

/// Marks the packages of these identifiers.
fn mark_all(book: &Book, ids: &[(Name, Uuid)], marks: &mut Vec<bool>, order: &mut Vec<u32>)
    requires listed { AreListed (length book.now) marks.old.items order.old.items }
    requires room { length book.now ≤ vec_capacity order.old }
    ensures listed { AreListed (length book.now) marks.new.items order.new.items }
    ensures marks { Marks book.now ids.now marks.old.items marks.new.items }
    ensures grows { Grows marks.old.items marks.new.items order.old.items order.new.items }
    ensures room { vec_capacity order.old ≤ vec_capacity order.new }
{
    for id in ids {
        mark_id(book, &id.1, marks, order);
    }
}

/// Marks the package of that identifier, where the book holds it.
fn mark_id(book: &Book, uuid: &Uuid, marks: &mut Vec<bool>, order: &mut Vec<u32>)
    requires listed { AreListed (length book.now) marks.old.items order.old.items }
    requires room { length book.now ≤ vec_capacity order.old }
    ensures listed { AreListed (length book.now) marks.new.items order.new.items }
    ensures marks { MarksOne book.now uuid.now marks.old.items marks.new.items }
    ensures grows { Grows marks.old.items marks.new.items order.old.items order.new.items }
    ensures room { vec_capacity order.old ≤ vec_capacity order.new }
{
    if let Some(package) = book.number(uuid) {
        mark(marks, order, package);
    }
}

/// Marks a package and lists it, where it isn't marked yet.
fn mark(marks: &mut Vec<bool>, order: &mut Vec<u32>, package: u32)
    requires known { «package» < length marks.old.items }
    requires listed { AreListed (length marks.old.items) marks.old.items order.old.items }
    requires room { length marks.old.items ≤ vec_capacity order.old }
    ensures listed { AreListed (length marks.old.items) marks.new.items order.new.items }
    ensures marks { (q : ℕ) → is_marked marks.new.items q ≡ (is_marked marks.old.items q || q == «package») }
    ensures grows { Grows marks.old.items marks.new.items order.old.items order.new.items }
    ensures room { vec_capacity order.old ≤ vec_capacity order.new }
{
    if is_set(marks.as_slice(), package) {
        return;
    }
    set(marks, package, true);
    append(order, package);
}

/// The number at a place of a list.
fn number_at(list: &[u32], place: u32) -> u32
    requires { place < length list.now }
    ensures { result ≡ slice_index_or list.now place 0 }
{
    list[place as usize]
}

/// Whether the package is marked.
pub(crate) fn is_set(marks: &[bool], package: u32) -> bool
    requires { «package» < length marks.now }
    ensures { result ≡ is_marked marks.now «package» }
{
    marks[package as usize]
}

/// Sets or takes away the mark of a package.
fn set(marks: &mut Vec<bool>, package: u32, value: bool)
    requires { «package» < length marks.old.items }
    ensures { marks.new.items ≡ slice_set marks.old.items «package» value }
{
    marks[package as usize] = value;
}

/// Appends a number into the room that is there.
fn append(list: &mut Vec<u32>, number: u32)
    requires { length list.old.items < vec_capacity list.old }
    ensures items { list.new.items ≡ list.old.items ++ number ∷ [] }
    ensures room { vec_capacity list.old ≤ vec_capacity list.new }
{
    match list.push(number) {
        Ok(()) => {}
        Err(_) => unreachable!(),
    }
}
