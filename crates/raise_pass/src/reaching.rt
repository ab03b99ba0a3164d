//! Which packages are reached from the roots by what the chosen states need.
ghost use Rattle.std.specs.Prelude.{◌≡◌, ◌<◌, ◌≤◌, ℕ, true, false, length, slice_index, slice_index_or, vec_capacity, ◌||◌, ◌==◌, ◌+◌, ◌∷◌, ◌++◌, [], slice_set};
ghost use Rattle.version_graph.specs.Graph.{packages, states, is_root, does_need, IsListOf};
ghost use Rattle.version_graph.specs.Needed.{AreNeeds};
ghost use Rattle.raise_pass.specs.Finishing.{IsReached, IsReachedSet};
ghost use Rattle.raise_pass.specs.Reached.{is_marked, AreListed, AreReached, AreSpread, Grows};

use version_graph::{Instance, Needs};

/// Marks the packages that are reached, and lists each of them once. It takes no memory.
pub(crate) fn find_reached(
    instance: &Instance,
    roots: &[u32],
    needs: &Needs,
    chosen: &[u32],
    reached: &mut Vec<bool>,
    order: &mut Vec<u32>,
)
    requires roots { IsListOf (is_root instance.now) roots.now }
    requires needs { AreNeeds instance.now needs.now }
    requires each { length chosen.now ≡ packages instance.now }
    requires states { (p : ℕ) → p < packages instance.now → slice_index chosen.now p < states instance.now p }
    requires marks { length reached.old.items ≡ packages instance.now }
    requires room { packages instance.now ≤ vec_capacity order.old }
    ensures reached { IsReachedSet instance.now chosen.now (is_marked reached.new.items) }
    ensures marks { length reached.new.items ≡ packages instance.now }
    ensures room { packages instance.now ≤ vec_capacity order.new }
{
    begin(instance, reached, order);
    for root in roots {
        mark(instance, reached, order, *root);
    }
    for next in 0..instance.packages() {
        if next as usize >= order.len() {
            return;
        }
        spread(instance, needs, chosen, reached, order, next);
    }
}

/// Takes all marks away.
fn begin(instance: &Instance, reached: &mut Vec<bool>, order: &mut Vec<u32>)
    requires marks { length reached.old.items ≡ packages instance.now }
    ensures listed { AreListed instance.now reached.new.items order.new.items }
    ensures none { (p : ℕ) → is_marked reached.new.items p ≡ false }
    ensures room { vec_capacity order.old ≤ vec_capacity order.new }
{
    for p in 0..instance.packages() {
        set(reached, p, false);
    }
    order.clear();
}

/// Marks what the package at a place of the list needs.
fn spread(
    instance: &Instance,
    needs: &Needs,
    chosen: &[u32],
    reached: &mut Vec<bool>,
    order: &mut Vec<u32>,
    next: u32,
)
    requires needs { AreNeeds instance.now needs.now }
    requires each { length chosen.now ≡ packages instance.now }
    requires states { (p : ℕ) → p < packages instance.now → slice_index chosen.now p < states instance.now p }
    requires room { packages instance.now ≤ vec_capacity order.old }
    requires place { next < length order.old.items }
    requires listed { AreListed instance.now reached.old.items order.old.items }
    requires reached { AreReached instance.now chosen.now reached.old.items }
    requires spread { AreSpread instance.now chosen.now reached.old.items order.old.items next }
    ensures listed { AreListed instance.now reached.new.items order.new.items }
    ensures reached { AreReached instance.now chosen.now reached.new.items }
    ensures spread { AreSpread instance.now chosen.now reached.new.items order.new.items (next + 1) }
    ensures grows { Grows reached.old.items reached.new.items order.old.items order.new.items }
    ensures room { vec_capacity order.old ≤ vec_capacity order.new }
{
    let p = number_at(order.as_slice(), next);
    let needed = needs.of(p, state_of(chosen, p));
    for q in needed {
        mark(instance, reached, order, *q);
    }
}

/// The number at a place of a list.
fn number_at(list: &[u32], place: u32) -> u32
    requires { place < length list.now }
    ensures { result ≡ slice_index_or list.now place 0 }
{
    list[place as usize]
}

/// The state that is chosen of p.
pub(crate) fn state_of(chosen: &[u32], p: u32) -> u32
    requires { p < length chosen.now }
    ensures { result ≡ slice_index chosen.now p }
{
    chosen[p as usize]
}

/// Marks a package and lists it, where it isn't marked yet.
fn mark(instance: &Instance, reached: &mut Vec<bool>, order: &mut Vec<u32>, p: u32)
    requires known { p < packages instance.now }
    requires listed { AreListed instance.now reached.old.items order.old.items }
    requires room { packages instance.now ≤ vec_capacity order.old }
    ensures listed { AreListed instance.now reached.new.items order.new.items }
    ensures marks { (q : ℕ) → is_marked reached.new.items q ≡ (is_marked reached.old.items q || q == p) }
    ensures grows { Grows reached.old.items reached.new.items order.old.items order.new.items }
    ensures room { vec_capacity order.old ≤ vec_capacity order.new }
{
    if is_set(reached.as_slice(), p) {
        return;
    }
    set(reached, p, true);
    append(order, p);
}

/// Whether p is marked.
pub(crate) fn is_set(marks: &[bool], p: u32) -> bool
    requires { p < length marks.now }
    ensures { result ≡ is_marked marks.now p }
{
    marks[p as usize]
}

/// Sets or takes away the mark of p.
pub(crate) fn set(marks: &mut Vec<bool>, p: u32, value: bool)
    requires { p < length marks.old.items }
    ensures { marks.new.items ≡ slice_set marks.old.items p value }
{
    marks[p as usize] = value;
}

/// Appends a number into the room that is there.
fn append(list: &mut Vec<u32>, number: u32)
    requires { length list.old.items < vec_capacity list.old }
    ensures items { list.new.items ≡ list.old.items ++ number ∷ [] }
    ensures room { vec_capacity list.old ≤ vec_capacity list.new }
{
    match list.push(number) {
        Ok(()) => {}
        Err(_) => unreachable!(),
    }
}
