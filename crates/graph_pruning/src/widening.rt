//! The states of a solution of the pruned instance by their numbers before pruning.
ghost use Rattle.std.specs.Prelude.{◌≡◌, ◌<◌, ℕ, length, slice_index, slice_set, IfOk};
ghost use Rattle.version_graph.specs.Graph.{packages, last, IsSolution};
ghost use Rattle.version_graph.specs.Part.{package_of, states_of, state_of};
ghost use Rattle.graph_pruning.specs.Pruned.{Pruning};
ghost use Rattle.graph_pruning.specs.Reduced.{IsReduction, IsWidenedTo};

use crate::laws::pruning_keeps_solutions;
use crate::reducing::Reduced;
use pkg_world::States;
use std::alloc::{AllocError, Global};
use version_graph::Instance;

impl Reduced {
    /// The states of a solution of the pruned instance by their numbers before pruning, where each package that isn't
    /// kept is absent. They are a solution of the instance that was pruned. The one error is want of memory.
    pub fn widened(
        &self,
        alloc: Global,
        instance: &Instance,
        chosen: &[u32],
    ) -> Result<States, AllocError>
        requires reduced { (pr : Pruning) × IsReduction instance.now pr self.now.instance self.now.back }
        requires solution { IsSolution self.now.instance chosen.now }
        ensures widened { IfOk result (λ states. (pr : Pruning) → IsReduction instance.now pr self.now.instance self.now.back →
            IsWidenedTo instance.now pr self.now.instance self.now.back chosen.now states.items) }
        ensures solution { IfOk result (λ states. IsSolution instance.now states.items) }
    {
        pruning_keeps_solutions();
        let mut states = absent_states(alloc, instance)?;
        for p in 0..self.instance.packages() {
            self.write_state(chosen, p, &mut states);
        }
        Ok(states)
    }

    /// Writes the state of the package in the place p by its number before pruning.
    fn write_state(&self, chosen: &[u32], p: u32, states: &mut States)
        requires known { p < length self.now.back }
        requires chosen { p < length chosen.now }
        requires state { slice_index chosen.now p < length (states_of self.now.back p) }
        requires inside { package_of self.now.back p < length states.old.items }
        ensures { states.new.items ≡ slice_set states.old.items (package_of self.now.back p) (state_of self.now.back p (slice_index chosen.now p)) }
    {
        let state = self.back.state(p, chosen[p as usize]);
        states.set(self.back.package(p) as usize, state);
    }
}

/// The last state of each package.
fn absent_states(alloc: Global, instance: &Instance) -> Result<States, AllocError>
    ensures each { IfOk result (λ states. length states.items ≡ packages instance.now) }
    ensures last { IfOk result (λ states. (p : ℕ) → p < packages instance.now → slice_index states.items p ≡ last instance.now p) }
{
    let mut states = States::make(alloc);
    for p in 0..instance.packages() {
        states.push(instance.states(p) - 1)?;
    }
    Ok(states)
}
