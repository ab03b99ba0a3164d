//! Cutting domains.
ghost use Rattle.std.specs.Prelude.{◌≡◌, ◌<◌, ◌&&◌, ◌||◌, ◌==◌, ℕ, true, false, not, length, take};
ghost use Rattle.version_graph.specs.Graph.{packages, states, last, is_state};
ghost use Rattle.version_graph.specs.Family.{narrowed};
ghost use Rattle.version_graph.specs.Domain.{has};
ghost use Rattle.version_graph.specs.Noted.{Holds};
ghost use Rattle.graph_pruning.specs.Marked.{marked};

use crate::kept::Kept;
use version_graph::{Domains, Instance, Trail};

/// Takes a state out of the domain of a package where it is in it. It takes no memory.
pub fn cross_off(instance: &Instance, domains: &mut Domains, trail: &mut Trail, p: u32, i: u32)
    requires held { Holds instance.now domains.old trail.old }
    requires known { p < packages instance.now }
    requires state { i < states instance.now p }
    ensures without { (q j : ℕ) → has domains.new q j ≡ (has domains.old q j && not (is_state q j p i)) }
    ensures earlier { take (length trail.old.notes) trail.new.notes ≡ trail.old.notes }
    ensures keeps { Holds instance.now domains.new trail.new }
{
    if domains.has(p, i) {
        domains.take(p, i, trail);
    }
}

/// Cuts the domain of a package to a state, or to nothing where the domain lacks it. It takes no memory.
pub fn cut_to(instance: &Instance, domains: &mut Domains, trail: &mut Trail, p: u32, i: u32)
    requires held { Holds instance.now domains.old trail.old }
    requires known { p < packages instance.now }
    requires state { i < states instance.now p }
    ensures cut { (q j : ℕ) → has domains.new q j ≡ narrowed (has domains.old) p i q j }
    ensures earlier { take (length trail.old.notes) trail.new.notes ≡ trail.old.notes }
    ensures keeps { Holds instance.now domains.new trail.new }
{
    if domains.has(p, i) {
        domains.narrow(p, i, trail);
        return;
    }
    cross_all(instance, domains, trail, p);
}

/// Takes every state out of the domain of a package.
fn cross_all(instance: &Instance, domains: &mut Domains, trail: &mut Trail, p: u32)
    requires held { Holds instance.now domains.old trail.old }
    requires known { p < packages instance.now }
    ensures without { (q j : ℕ) → has domains.new q j ≡ (has domains.old q j && not (q == p)) }
    ensures earlier { take (length trail.old.notes) trail.new.notes ≡ trail.old.notes }
    ensures keeps { Holds instance.now domains.new trail.new }
{
    for j in 0..instance.states(p) {
        cross_off(instance, domains, trail, p, j);
    }
}

/// Takes every state out of every domain.
pub(crate) fn empty_all(instance: &Instance, domains: &mut Domains, trail: &mut Trail)
    requires { Holds instance.now domains.old trail.old }
    ensures none { (p i : ℕ) → has domains.new p i ≡ false }
    ensures earlier { take (length trail.old.notes) trail.new.notes ≡ trail.old.notes }
    ensures keeps { Holds instance.now domains.new trail.new }
{
    for p in 0..instance.packages() {
        cross_all(instance, domains, trail, p);
    }
}

/// Cuts the domain of each package that isn't kept to its last state.
pub(crate) fn cut_unkept(instance: &Instance, domains: &mut Domains, trail: &mut Trail, kept: &Kept)
    requires held { Holds instance.now domains.old trail.old }
    requires marks { length kept.now ≡ packages instance.now }
    ensures cut { (p i : ℕ) → has domains.new p i ≡ (has domains.old p i && (marked kept.now p || (i == last instance.now p))) }
    ensures earlier { take (length trail.old.notes) trail.new.notes ≡ trail.old.notes }
    ensures keeps { Holds instance.now domains.new trail.new }
{
    for p in 0..instance.packages() {
        cut_if_unkept(instance, domains, trail, kept, p);
    }
}

/// Cuts the domain of the package to its last state, if it isn't kept.
fn cut_if_unkept(instance: &Instance, domains: &mut Domains, trail: &mut Trail, kept: &Kept, p: u32)
    requires held { Holds instance.now domains.old trail.old }
    requires marks { length kept.now ≡ packages instance.now }
    requires known { p < packages instance.now }
    ensures cut { (q i : ℕ) → has domains.new q i ≡ (has domains.old q i && (not (q == p) || (marked kept.now p || (i == last instance.now p)))) }
    ensures earlier { take (length trail.old.notes) trail.new.notes ≡ trail.old.notes }
    ensures keeps { Holds instance.now domains.new trail.new }
{
    if kept.has(p) {
        return;
    }
    cut_to(instance, domains, trail, p, instance.states(p) - 1);
}
