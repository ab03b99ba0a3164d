//! The closure of domains, and the way back.
ghost use Rattle.std.specs.Prelude.{◌≡◌, ◌≢◌, ◌<◌, ◌≤◌, ℕ, true, false, length, take, MatchBool, MatchOption, IfSome, ◌+◌};
ghost use Rattle.version_graph.specs.Graph.{Graph, packages, states};
ghost use Rattle.version_graph.specs.Family.{LiesBetween, HasEmpty, Meets};
ghost use Rattle.version_graph.specs.Domain.{Rows, has};
ghost use Rattle.version_graph.specs.Noted.{History, Holds, IsSettled, is_settled_at};
ghost use Rattle.graph_pruning.specs.Closing.{ClosesTo, SaysSettled};
ghost use Rattle.graph_pruning.specs.Spread.{Shrinks, IsClear, AreClear, Extends};

use version_graph::{Domains, Instance, Trail};

/// What closing the domains answers.
#[derive(Debug, Clone, Copy, PartialEq, Eq)]
pub enum Closed {
    /// No domain of the closure is empty.
    Stable,
    /// The least package whose domain in the closure is empty.
    Empty(u32),
}

/// Takes out of the domains what isn't in their closure: the largest family within them in which each state
/// has an allowed partner in every other package's domain. Where a domain of the closure is empty, so are
/// all, and the domains are left somewhere between the old ones and the closure. Each state that is taken
/// out is noted after the trail's earlier notes, and at Stable the trail says that the domains are settled at
/// its present length. What it says of earlier lengths stays. It takes no memory.
pub fn close(instance: &Instance, domains: &mut Domains, trail: &mut Trail) -> Closed
    requires { Holds instance.now domains.old trail.old }
    ensures answer { ClosesTo instance.now (has domains.old) (has domains.new) result }
    ensures between { LiesBetween instance.now (has domains.old) (has domains.new) }
    ensures earlier { take (length trail.old.notes) trail.new.notes ≡ trail.old.notes }
    ensures keeps { Holds instance.now domains.new trail.new }
    ensures settled { SaysSettled result trail.new }
    ensures alike { (k : ℕ) → k < length trail.old.notes → is_settled_at trail.new k ≡ is_settled_at trail.old k }
{
    match begin(instance, domains, trail) {
        None => Closed::Empty(0),
        Some(mark) => {
            if !spread(instance, domains, trail, mark) {
                return Closed::Empty(0);
            }
            trail.settle();
            Closed::Stable
        }
    }
}

/// The place from which the notes are still to be gone through: that of the last length at which the domains
/// were settled; where there is none, all packages are gone through first. None where a domain was found
/// empty.
fn begin(instance: &Instance, domains: &mut Domains, trail: &mut Trail) -> Option<u32>
    requires { Holds instance.now domains.old trail.old }
    ensures keeps { Holds instance.now domains.new trail.new }
    ensures extends { Extends trail.old trail.new }
    ensures shrinks { Shrinks instance.now (has domains.old) (has domains.new) }
    ensures answer { MatchOption result (HasEmpty instance.now (has domains.old)) (λ mark. (mark ≤ length trail.new.notes) × AreClear instance.now (has domains.new) trail.new.notes mark (packages instance.now)) }
{
    match settled_mark(trail) {
        Some(mark) => Some(mark),
        None => {
            let mark = trail.mark();
            if !sweep(instance, domains, trail) {
                return None;
            }
            Some(mark)
        }
    }
}

/// The greatest length at or below the present one at which the domains are known to have been settled.
fn settled_mark(trail: &Trail) -> Option<u32>
    ensures { MatchOption result
        ((k : ℕ) → k ≤ length trail.now.notes → is_settled_at trail.now k ≡ false)
        (λ mark. (mark ≤ length trail.now.notes) × (is_settled_at trail.now mark ≡ true) × ((k : ℕ) → mark < k → k ≤ length trail.now.notes → is_settled_at trail.now k ≡ false)) }
{
    let present = trail.mark();
    if trail.is_settled(present) {
        return Some(present);
    }
    for mark in (0..present).rev() {
        if trail.is_settled(mark) {
            return Some(mark);
        }
    }
    None
}

/// Goes through all packages once. True where no domain was found empty.
fn sweep(instance: &Instance, domains: &mut Domains, trail: &mut Trail) -> bool
    requires { Holds instance.now domains.old trail.old }
    ensures keeps { Holds instance.now domains.new trail.new }
    ensures extends { Extends trail.old trail.new }
    ensures shrinks { Shrinks instance.now (has domains.old) (has domains.new) }
    ensures answer { MatchBool result (AreClear instance.now (has domains.new) trail.new.notes (length trail.old.notes) (packages instance.now)) (HasEmpty instance.now (has domains.old)) }
{
    for q in 0..instance.packages() {
        if !clear(instance, domains, trail, q) {
            return false;
        }
    }
    true
}

/// Goes through the notes from the mark on, and through those that come to be. True where no domain was found
/// empty.
fn spread(instance: &Instance, domains: &mut Domains, trail: &mut Trail, mark: u32) -> bool
    requires held { Holds instance.now domains.old trail.old }
    requires below { mark ≤ length trail.old.notes }
    requires started { AreClear instance.now (has domains.old) trail.old.notes mark (packages instance.now) }
    ensures keeps { Holds instance.now domains.new trail.new }
    ensures extends { Extends trail.old trail.new }
    ensures shrinks { Shrinks instance.now (has domains.old) (has domains.new) }
    ensures answer { MatchBool result (IsSettled instance.now (has domains.new)) (HasEmpty instance.now (has domains.old)) }
{
    for next in mark..u32::MAX {
        if next >= trail.mark() {
            return true;
        }
        if !step(instance, domains, trail, next) {
            return false;
        }
    }
    // no trail has more notes than a mark can count
    let _last = trail.mark();
    true
}

/// Goes through one note. A note that is followed by another of its package waits for that one. True where no
/// domain was found empty.
fn step(instance: &Instance, domains: &mut Domains, trail: &mut Trail, next: u32) -> bool
    requires held { Holds instance.now domains.old trail.old }
    requires below { next < length trail.old.notes }
    requires clear { AreClear instance.now (has domains.old) trail.old.notes next (packages instance.now) }
    ensures keeps { Holds instance.now domains.new trail.new }
    ensures extends { Extends trail.old trail.new }
    ensures shrinks { Shrinks instance.now (has domains.old) (has domains.new) }
    ensures answer { MatchBool result (AreClear instance.now (has domains.new) trail.new.notes (next + 1) (packages instance.now)) (HasEmpty instance.now (has domains.old)) }
{
    let q = trail.package_at(next);
    let count = trail.mark();
    if next + 1 < count {
        let following = trail.package_at(next + 1);
        if following == q {
            return true;
        }
    }
    clear(instance, domains, trail, q)
}

/// Takes out of the domain of p each state without an allowed partner in q's domain. True where a state is
/// left.
fn revise(instance: &Instance, domains: &mut Domains, trail: &mut Trail, p: u32, q: u32) -> bool
    requires first { p < packages instance.now }
    requires second { q < packages instance.now }
    requires apart { p ≢ q }
    requires held { Holds instance.now domains.old trail.old }
    ensures keeps { Holds instance.now domains.new trail.new }
    ensures extends { Extends trail.old trail.new }
    ensures shrinks { Shrinks instance.now (has domains.old) (has domains.new) }
    ensures others { (r j : ℕ) → r ≢ p → has domains.new r j ≡ has domains.old r j }
    ensures supported { (i : ℕ) → has domains.new p i ≡ true → Meets instance.now (has domains.new) p i q }
    ensures left { MatchBool result ((i : ℕ) × (has domains.new p i ≡ true)) ((i : ℕ) → has domains.new p i ≡ false) }
{
    for i in 0..instance.states(p) {
        drop_unmet(instance, domains, trail, p, i, q);
    }
    domains.size(p) > 0
}

/// Takes the state i out of the domain of p, if it is there and has no allowed partner in q's domain.
fn drop_unmet(instance: &Instance, domains: &mut Domains, trail: &mut Trail, p: u32, i: u32, q: u32)
    requires first { p < packages instance.now }
    requires state { i < states instance.now p }
    requires second { q < packages instance.now }
    requires apart { p ≢ q }
    requires held { Holds instance.now domains.old trail.old }
    ensures keeps { Holds instance.now domains.new trail.new }
    ensures extends { Extends trail.old trail.new }
    ensures shrinks { Shrinks instance.now (has domains.old) (has domains.new) }
    ensures others { (r j : ℕ) → r ≢ p → has domains.new r j ≡ has domains.old r j }
    ensures rest { (j : ℕ) → j ≢ i → has domains.new p j ≡ has domains.old p j }
    ensures supported { has domains.new p i ≡ true → Meets instance.now (has domains.new) p i q }
{
    if !domains.has(p, i) {
        return;
    }
    if instance.meets(p, i, q, domains) {
        return;
    }
    domains.take(p, i, trail);
}

/// Takes out of each neighbour of q what has no allowed partner in q's domain. True where no domain was
/// found empty.
fn clear(instance: &Instance, domains: &mut Domains, trail: &mut Trail, q: u32) -> bool
    requires known { q < packages instance.now }
    requires held { Holds instance.now domains.old trail.old }
    ensures keeps { Holds instance.now domains.new trail.new }
    ensures extends { Extends trail.old trail.new }
    ensures shrinks { Shrinks instance.now (has domains.old) (has domains.new) }
    ensures same { (j : ℕ) → has domains.new q j ≡ has domains.old q j }
    ensures answer { MatchBool result (IsClear instance.now (has domains.new) q) (HasEmpty instance.now (has domains.old)) }
{
    if domains.size(q) == 0 {
        return false;
    }
    let neighbours = instance.neighbours(q);
    for p in neighbours {
        if !revise(instance, domains, trail, *p, q) {
            return false;
        }
    }
    true
}

/// Puts back what the notes from the mark on took, takes these notes away and leaves the earlier ones, and all that
/// is said to be settled. It takes no memory.
pub fn undo_to(domains: &mut Domains, trail: &mut Trail, mark: u32)
    requires below { mark ≤ length trail.old.notes }
    requires held { (g : Graph) × Holds g domains.old trail.old }
    ensures notes { trail.new.notes ≡ take mark trail.old.notes }
    ensures settled { trail.new.settled ≡ trail.old.settled }
    ensures keeps { (g : Graph) → Holds g domains.old trail.old → Holds g domains.new trail.new }
    ensures back { (g : Graph) (d : Rows) (t : History) → Holds g domains.old trail.old → Holds g d t →
        t.notes ≡ take mark trail.old.notes → (p i : ℕ) → has domains.new p i ≡ has d p i }
{
    while trail.mark() > mark {
        domains.give_back(trail);
    }
}
