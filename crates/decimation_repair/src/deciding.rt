//! What the domains say of the next step.
ghost use Rattle.std.specs.Prelude.{◌≡◌, ◌<◌, ◌≤◌, ℕ, [], true, length, slice_index, MatchBool};
ghost use Rattle.version_graph.specs.Graph.{packages};
ghost use Rattle.version_graph.specs.Domain.{has, size_of, IsFor};
ghost use Rattle.decimation_repair.specs.Advised.{IsWide};

use pkg_world::States;
use version_graph::{Domains, Instance};

/// Whether each package has at most one state left.
pub(crate) fn is_decided(instance: &Instance, domains: &Domains) -> bool
    requires { IsFor instance.now domains.now }
    ensures { MatchBool result
        ((p : ℕ) → p < packages instance.now → size_of domains.now p ≤ 1)
        (IsWide instance.now domains.now) }
{
    for p in 0..instance.packages() {
        if domains.size(p) > 1 {
            return false;
        }
    }
    true
}

/// Appends a state of each package that is left.
pub(crate) fn tell_states(instance: &Instance, domains: &Domains, states: &mut States)
    requires made { IsFor instance.now domains.now }
    requires filled { (p : ℕ) → p < packages instance.now → 0 < size_of domains.now p }
    requires blank { states.old.items ≡ [] }
    requires room { packages instance.now ≤ states.old.spare }
    ensures each { length states.new.items ≡ packages instance.now }
    ensures left { (p : ℕ) → p < packages instance.now → has domains.now p (slice_index states.new.items p) ≡ true }
{
    for p in 0..instance.packages() {
        states.push_spare(state_left(instance, domains, p));
    }
}

/// The least state of p that is left.
fn state_left(instance: &Instance, domains: &Domains, p: u32) -> u32
    requires made { IsFor instance.now domains.now }
    requires known { p < packages instance.now }
    requires filled { 0 < size_of domains.now p }
    ensures { has domains.now p result ≡ true }
{
    // a domain with a state tells which
    let _count = domains.size(p);
    for state in 0..instance.states(p) {
        if domains.has(p, state) {
            return state;
        }
    }
    unreachable!()
}
