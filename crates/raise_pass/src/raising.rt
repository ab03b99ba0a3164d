//! Raising one package after another.
ghost use Rattle.std.specs.Prelude.{◌<◌, ◌≤◌, ℕ, List, slice_index, MatchBool, MatchOption, true, false};
ghost use Rattle.version_graph.specs.Graph.{packages, states, last, is_root, IsListOf, IsPlain, IsSolution};
ghost use Rattle.version_graph.specs.Needed.{AreNeeds};
ghost use Rattle.raise_pass.specs.Finishing.{CanRaise, IsTrimmed, Finishes};
ghost use Rattle.raise_pass.specs.Scratch.{IsScratchFor, IsLooseFor, AreStuck, Leads};
ghost use Rattle.raise_pass.specs.Changed.{AreStates, IsNextRaise, below_last};

use crate::changing::change;
use crate::keeping::keeps_needs;
use crate::loose::Loose;
use crate::reaching::{is_set, set, state_of};
use crate::scratch::RaiseScratch;
use crate::trimming::trim;
use pkg_world::States;
use version_graph::{Instance, Needs};

/// Finishes a solution: sets every package absent that is not reached from the roots by what chosen states need;
/// then raises the least package that can be raised alone to the greatest state that it can have; and so on until
/// neither applies. Afterwards nothing is unneeded and nothing can be raised alone. The roots and needs are those
/// of the instance. It takes no memory.
///
/// A package is tested at first, and again when its state or a neighbour's has changed: its greater states against
/// its neighbours. The search for the next package goes on where it was, or at the least package to be tested again.
/// What is reached is found anew, by a pass over all packages and what they need, only after a raise that leaves out
/// a need of something that is no root.
pub fn raise(
    instance: &Instance,
    roots: &[u32],
    needs: &Needs,
    states: &mut States,
    scratch: &mut RaiseScratch,
)
    requires plain { IsPlain instance.now }
    requires roots { IsListOf (is_root instance.now) roots.now }
    requires needs { AreNeeds instance.now needs.now }
    requires solution { IsSolution instance.now states.old.items }
    requires made { IsScratchFor instance.now scratch.old }
    ensures finished { Finishes instance.now states.old.items states.new.items }
    ensures solution { IsSolution instance.now states.new.items }
    ensures made { IsScratchFor instance.now scratch.new }
{
    loosen(instance, &mut scratch.loose);
    let _ = trim(instance, roots, needs, states, scratch);
    while let Some((p, j)) = next_raise(instance, states.items(), &mut scratch.loose) {
        raise_one(instance, roots, needs, states, scratch, p, j);
    }
}

/// Marks every package: each may be raised.
fn loosen(instance: &Instance, loose: &mut Loose)
    requires { IsLooseFor instance.now loose.old }
    ensures loose { IsLooseFor instance.now loose.new }
    ensures stuck { (chosen : List ℕ) → AreStuck instance.now chosen loose.new.marks.items }
{
    loose.first = 0;
    for p in 0..instance.packages() {
        set(&mut loose.marks, p, true);
    }
}

/// Raises p, the next package, to its state j, and sets absent what isn't needed any more.
fn raise_one(
    instance: &Instance,
    roots: &[u32],
    needs: &Needs,
    states: &mut States,
    scratch: &mut RaiseScratch,
    p: u32,
    j: u32,
)
    requires plain { IsPlain instance.now }
    requires roots { IsListOf (is_root instance.now) roots.now }
    requires needs { AreNeeds instance.now needs.now }
    requires solution { IsSolution instance.now states.old.items }
    requires trimmed { IsTrimmed instance.now states.old.items }
    requires next { IsNextRaise instance.now states.old.items p j }
    requires made { IsScratchFor instance.now scratch.old }
    requires stuck { AreStuck instance.now states.old.items scratch.old.loose.marks.items }
    ensures leads { (first : List ℕ) → Leads instance.now first states.old.items → Leads instance.now first states.new.items }
    ensures trimmed { IsTrimmed instance.now states.new.items }
    ensures solution { IsSolution instance.now states.new.items }
    ensures made { IsScratchFor instance.now scratch.new }
    ensures stuck { AreStuck instance.now states.new.items scratch.new.loose.marks.items }
    ensures below { below_last instance.now states.new.items < below_last instance.now states.old.items }
{
    let keeps = keeps_needs(instance, needs, p, state_of(states.items(), p), j);
    change(instance, states, &mut scratch.loose, p, j);
    if keeps {
        return;
    }
    let _ = trim(instance, roots, needs, states, scratch);
}

/// The least package that can be raised alone, with the greatest state that it can be raised to. The packages of
/// which it is found that they can't be raised lose their marks.
fn next_raise(instance: &Instance, chosen: &[u32], loose: &mut Loose) -> Option<(u32, u32)>
    requires made { AreStates instance.now chosen.now }
    requires loose { IsLooseFor instance.now loose.old }
    requires stuck { AreStuck instance.now chosen.now loose.old.marks.items }
    ensures next { MatchOption result
        ((p j : ℕ) → CanRaise instance.now chosen.now p j → ⊥)
        (λ next. IsNextRaise instance.now chosen.now next.0 next.1) }
    ensures loose { IsLooseFor instance.now loose.new }
    ensures stuck { AreStuck instance.now chosen.now loose.new.marks.items }
{
    let first = loose.first;
    for p in first..instance.packages() {
        if is_set(&loose.marks, p) {
            if let Some(j) = greatest_raise(instance, chosen, p) {
                loose.first = p;
                return Some((p, j));
            }
            set(&mut loose.marks, p, false);
        }
    }
    loose.first = instance.packages();
    None
}

/// The greatest state that p can be raised to.
fn greatest_raise(instance: &Instance, chosen: &[u32], p: u32) -> Option<u32>
    requires known { p < packages instance.now }
    requires made { AreStates instance.now chosen.now }
    ensures { MatchOption result
        ((j : ℕ) → CanRaise instance.now chosen.now p j → ⊥)
        (λ j. CanRaise instance.now chosen.now p j × ((i : ℕ) → CanRaise instance.now chosen.now p i → i ≤ j)) }
{
    let count = instance.states(p);
    let state = state_of(chosen, p);
    for j in (state + 1..count - 1).rev() {
        if can_raise(instance, chosen, p, j) {
            return Some(j);
        }
    }
    None
}

/// Whether p can be raised to its greater state j.
fn can_raise(instance: &Instance, chosen: &[u32], p: u32, j: u32) -> bool
    requires known { p < packages instance.now }
    requires made { AreStates instance.now chosen.now }
    requires greater { slice_index chosen.now p < j }
    requires present { j < last instance.now p }
    ensures { MatchBool result (CanRaise instance.now chosen.now p j) (CanRaise instance.now chosen.now p j → ⊥) }
{
    if !instance.is_offered(p, j) {
        return false;
    }
    let neighbours = instance.neighbours(p);
    for q in neighbours {
        if !instance.allowed(p, j, *q, state_of(chosen, *q)) {
            return false;
        }
    }
    true
}
