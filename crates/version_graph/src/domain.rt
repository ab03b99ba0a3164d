//! The domains: which states of each package are left.
ghost use Rattle.std.specs.Prelude.{◌≡◌, ◌<◌, ◌≤◌, ◌-◌, ◌∷◌, ◌++◌, ◌&&◌, ◌||◌, ◌==◌, [], ℕ, true, false, not, length, take, IfOk, MatchBool, slice_set};
ghost use Rattle.version_graph.specs.Graph.{Graph, packages, states, is_offered, is_state};
ghost use Rattle.version_graph.specs.Family.{narrowed};
ghost use Rattle.version_graph.specs.Domain.{has, row, size_of, IsFor};
ghost use Rattle.version_graph.specs.Noted.{History, Holds, IsFresh, SaysAlike, note_at};

use crate::graph::Instance;
use crate::trail::Trail;
use bit_rows::{BitRow, count};
use std::alloc::{AllocError, Global};
use std::marker::Model;

/// For each package, the states that are left.
#[derive(Drop)]
pub struct Domains {
    rows: Vec<BitRow>,
    /// How many states each domain has.
    sizes: Vec<u32>,
}

impl Model for Domains {
    ghost use Rattle.std.specs.Prelude.{List, Bool};
    ghost use Rattle.version_graph.specs.Domain.{AreCounted};

    ghost Value = { List (List Bool) };

    ghost view = { λ a. a.rows.items };

    ghost invariant = { λ a. AreCounted a.rows.items a.sizes.items };
}

impl Domains {
    /// All states that aren't forbidden alone. The one error is want of memory.
    pub fn full(alloc: Global, instance: &Instance) -> Result<Self, AllocError>
        ensures shape { IfOk result (λ domains. IsFor instance.now domains) }
        ensures offered { IfOk result (λ domains. (p i : ℕ) → has domains p i ≡ is_offered instance.now p i) }
        ensures fresh { IfOk result (λ domains. (trail : History) → IsFresh instance.now trail → Holds instance.now domains trail) }
    {
        let mut rows = Vec::new(alloc);
        let mut sizes = Vec::new(alloc);
        for p in 0..instance.packages() {
            let row = instance.offered(alloc, p)?;
            sizes.push(count(&row))?;
            rows.push(row)?;
        }
        Ok(Domains { rows, sizes })
    }

    /// Whether the domain of p has the state i. It takes no memory.
    pub fn has(&self, p: u32, i: u32) -> bool
        requires known { p < length self.now }
        requires state { i < length (row self.now p) }
        ensures { result ≡ has self.now p i }
    {
        self.rows[p as usize].get(i)
    }

    /// How many states the domain of p has. It takes no memory.
    pub fn size(&self, p: u32) -> u32
        requires { p < length self.now }
        ensures count { result ≡ size_of self.now p }
        ensures none { result ≡ 0 → (i : ℕ) → has self.now p i ≡ false }
        ensures some { 0 < result → (i : ℕ) × (has self.now p i ≡ true) }
    {
        self.sizes[p as usize]
    }

    /// Whether the domain of p has a state.
    pub(crate) fn is_filled(&self, p: u32) -> bool
        requires { p < length self.now }
        ensures { MatchBool result ((i : ℕ) × (has self.now p i ≡ true)) ((i : ℕ) → has self.now p i ≡ false) }
    {
        self.size(p) > 0
    }

    /// The domain of p.
    pub(crate) fn row(&self, p: u32) -> &BitRow
        requires { p < length self.now }
        ensures { result.now ≡ row self.now p }
    {
        &self.rows[p as usize]
    }

    /// Takes the state i out of the domain of p and notes it last. It takes no memory.
    pub fn take(&mut self, p: u32, i: u32, trail: &mut Trail)
        requires there { has self.old p i ≡ true }
        requires held { (g : Graph) × Holds g self.old trail.old }
        ensures without { (q j : ℕ) → has self.new q j ≡ (has self.old q j && not (is_state q j p i)) }
        ensures notes { trail.new.notes ≡ trail.old.notes ++ (p, i) ∷ [] }
        ensures settled { SaysAlike trail.old trail.new (length trail.old.notes) }
        ensures keeps { (g : Graph) → Holds g self.old trail.old → Holds g self.new trail.new }
    {
        self.remove(p, i);
        trail.push(p, i);
    }

    /// Puts the state that is noted last back, and takes its note away. It takes no memory.
    pub fn give_back(&mut self, trail: &mut Trail)
        requires noted { 0 < length trail.old.notes }
        requires held { (g : Graph) × Holds g self.old trail.old }
        ensures notes { trail.new.notes ≡ take (length trail.old.notes - 1) trail.old.notes }
        ensures settled { trail.new.settled ≡ trail.old.settled }
        ensures back { let note = note_at trail.old.notes (length trail.old.notes - 1) in
            (q j : ℕ) → has self.new q j ≡ (has self.old q j || is_state q j note.0 note.1) }
        ensures keeps { (g : Graph) → Holds g self.old trail.old → Holds g self.new trail.new }
    {
        let (p, i) = trail.pop();
        self.restore(p, i);
    }

    /// Cuts the domain of p to its state i, and notes each state that is taken out after the earlier notes.
    /// It takes no memory.
    pub fn narrow(&mut self, p: u32, i: u32, trail: &mut Trail)
        requires there { has self.old p i ≡ true }
        requires held { (g : Graph) × Holds g self.old trail.old }
        ensures cut { (q j : ℕ) → has self.new q j ≡ narrowed (has self.old) p i q j }
        ensures earlier { take (length trail.old.notes) trail.new.notes ≡ trail.old.notes }
        ensures settled { SaysAlike trail.old trail.new (length trail.old.notes) }
        ensures keeps { (g : Graph) → Holds g self.old trail.old → Holds g self.new trail.new }
    {
        for j in 0..self.width(p) {
            self.take_other(p, i, j, trail);
        }
    }

    /// How many states p has, taken out or not.
    fn width(&self, p: u32) -> u32
        requires { p < length self.now }
        ensures { result ≡ length (row self.now p) }
    {
        self.rows[p as usize].width()
    }

    /// Takes the state j out of the domain of p, if it is there and isn't the state i.
    fn take_other(&mut self, p: u32, i: u32, j: u32, trail: &mut Trail)
        requires known { p < length self.old }
        requires state { j < length (row self.old p) }
        requires held { (g : Graph) × Holds g self.old trail.old }
        ensures cut { (q k : ℕ) → has self.new q k ≡ (has self.old q k && (not (is_state q k p j) || (j == i))) }
        ensures longer { length trail.old.notes ≤ length trail.new.notes }
        ensures earlier { take (length trail.old.notes) trail.new.notes ≡ trail.old.notes }
        ensures settled { SaysAlike trail.old trail.new (length trail.old.notes) }
        ensures keeps { (g : Graph) → Holds g self.old trail.old → Holds g self.new trail.new }
    {
        if j != i && self.has(p, j) {
            self.take(p, j, trail);
        }
    }

    /// Takes out one state.
    fn remove(&mut self, p: u32, i: u32)
        requires { has self.old p i ≡ true }
        ensures { self.new ≡ slice_set self.old p (slice_set (row self.old p) i false) }
    {
        self.rows[p as usize].clear(i);
        self.sizes[p as usize] -= 1;
    }

    /// Puts one state in.
    fn restore(&mut self, p: u32, i: u32)
        requires known { p < length self.old }
        requires state { i < length (row self.old p) }
        requires away { has self.old p i ≡ false }
        ensures { self.new ≡ slice_set self.old p (slice_set (row self.old p) i true) }
    {
        self.rows[p as usize].set(i);
        self.sizes[p as usize] += 1;
    }
}
