//! The trail: what was taken out of the domains, so that it can be put back.
ghost use Rattle.std.specs.Prelude.{◌≡◌, ◌≢◌, ◌+◌, ◌<◌, ◌≤◌, ◌∷◌, ◌++◌, [], ℕ, true, false, length, IfOk, IfSome, take, slice_set, ◌-◌};
ghost use Rattle.version_graph.specs.Graph.{Graph};
ghost use Rattle.version_graph.specs.Family.{IsStable, IsFilled};
ghost use Rattle.version_graph.specs.Domain.{Rows, has};
ghost use Rattle.version_graph.specs.Noted.{History, Holds, IsFresh, IsSettled, is_settled_at, note_at};

use crate::graph::Instance;
use std::alloc::{AllocError, Global};
use std::marker::Model;

/// What was taken out of the domains since they were full, in order.
#[derive(Drop)]
pub struct Trail {
    notes: Vec<(u32, u32)>,
    settled: Vec<bool>,
}

impl Model for Trail {
    ghost use Rattle.std.specs.Prelude.{◌<◌, ◌^◌, ◌≤◌, length, vec_capacity};
    ghost use Rattle.version_graph.specs.Noted.{History};

    ghost Value = { History };

    ghost view = { λ a. record { notes = a.notes.items; settled = a.settled.items; room = vec_capacity a.notes } };

    ghost invariant = { λ a. (length a.notes.items < length a.settled.items) × (length a.settled.items ≤ 2 ^ 32) };
}

impl Trail {
    /// A trail without a note, with room for all states of the instance. The one error is want of memory.
    pub fn make(alloc: Global, instance: &Instance) -> Result<Self, AllocError>
        ensures { IfOk result (λ trail. IsFresh instance.now trail) }
    {
        let count = instance.state_count() as usize;
        let notes = Vec::with_capacity(alloc, count)?;
        let settled = vec![in alloc; false; count + 1]?;
        Ok(Trail { notes, settled })
    }

    /// How many states are noted. It takes no memory.
    pub fn mark(&self) -> u32
        ensures { result ≡ length self.now.notes }
    {
        self.notes.len() as u32
    }

    /// The package of the note at that place. It takes no memory.
    pub fn package_at(&self, place: u32) -> u32
        requires { place < length self.now.notes }
        ensures { result ≡ (note_at self.now.notes place).0 }
    {
        self.notes[place as usize].0
    }

    /// Whether the domains are known to have been stable and filled at that length. It takes no memory.
    pub fn is_settled(&self, mark: u32) -> bool
        requires { mark ≤ length self.now.notes }
        ensures { result ≡ is_settled_at self.now mark }
    {
        self.settled[mark as usize]
    }

    /// Says that the domains at the present length are stable and filled. What is said of other lengths stays. It takes
    /// no memory.
    pub fn settle(&mut self)
        ensures notes { self.new.notes ≡ self.old.notes }
        ensures settled { is_settled_at self.new (length self.old.notes) ≡ true }
        ensures others { (k : ℕ) → k ≢ length self.old.notes → is_settled_at self.new k ≡ is_settled_at self.old k }
        ensures keeps { (g : Graph) (d : Rows) → Holds g d self.old → IsSettled g (has d) → Holds g d self.new }
    {
        let mark = self.notes.len();
        self.settled[mark] = true;
    }

    /// Notes a state last. It takes no memory.
    pub(crate) fn push(&mut self, p: u32, i: u32)
        requires room { length self.old.notes < self.old.room }
        requires lengths { length self.old.notes + 1 < length self.old.settled }
        ensures notes { self.new.notes ≡ self.old.notes ++ (p, i) ∷ [] }
        ensures settled { self.new.settled ≡ slice_set self.old.settled (length self.old.notes + 1) false }
        ensures room { self.old.room ≤ self.new.room }
    {
        match self.notes.push((p, i)) {
            Ok(()) => {}
            Err(_) => unreachable!(),
        }
        let mark = self.notes.len();
        self.settled[mark] = false;
    }

    /// Takes the last note away. It takes no memory.
    pub(crate) fn pop(&mut self) -> (u32, u32)
        requires { 0 < length self.old.notes }
        ensures notes { self.old.notes ≡ self.new.notes ++ result ∷ [] }
        ensures settled { self.new.settled ≡ self.old.settled }
        ensures room { self.new.room ≡ self.old.room }
    {
        match self.notes.pop() {
            Some(note) => note,
            None => unreachable!(),
        }
    }
}
