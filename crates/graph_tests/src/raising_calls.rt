//! Solutions that are finished: packages that aren't needed go, and packages are raised alone.
ghost use Rattle.std.specs.Prelude.{◌≡◌, ◌≢◌, ◌<◌, ℕ, true, false, IsTrue, length, slice_index};
ghost use Rattle.version_graph.specs.Graph.{packages, states, is_offered, is_forbidden, IsSolution};

use crate::graph_calls::{instance_of, is_plain};
use pkg_world::States;
use raise_pass::{RaiseScratch, raise};
use std::alloc::Global;
use std::test::Fail;
use version_graph::{GraphFault, Instance};

// a root whose two versions need the second package, of which the later ones refuse each other; nothing needs the third
fn root_and_two(alloc: Global) -> Result<Instance, GraphFault> {
    instance_of(
        alloc,
        &[3, 3, 3],
        &[(0, 2)],
        &[(0, 0, 1, 2), (0, 1, 1, 2), (0, 1, 1, 1)],
    )
}

// two roots with two versions each, which need the third package: the later version of the first takes its later one
// alone, that of the second its earlier one alone
fn two_that_share(alloc: Global) -> Result<Instance, GraphFault> {
    let pairs = [
        (0, 0, 2, 2),
        (0, 1, 2, 2),
        (1, 0, 2, 2),
        (1, 1, 2, 2),
        (0, 1, 2, 0),
        (1, 1, 2, 1),
    ];
    instance_of(alloc, &[3, 3, 3], &[(0, 2), (1, 2)], &pairs)
}

// a root that doesn't need the second package, and refuses its later version
fn one_that_is_weak(alloc: Global) -> Result<Instance, GraphFault> {
    instance_of(alloc, &[2, 3], &[(0, 1)], &[(0, 0, 1, 1)])
}

// whether that state is one that there is, and isn't forbidden alone
fn is_offered(instance: &Instance, p: u32, i: u32) -> bool
    requires { p < packages instance.now }
    ensures known { IsTrue result → i < states instance.now p }
    ensures offered { IsTrue result → is_offered instance.now p i ≡ true }
{
    i < instance.states(p) && instance.is_offered(p, i)
}

// whether these states aren't forbidden together
fn are_allowed(instance: &Instance, p: u32, i: u32, q: u32, j: u32) -> bool
    requires first { p < packages instance.now }
    requires second { q < packages instance.now }
    ensures { IsTrue result → p ≢ q → is_forbidden instance.now p i q j ≡ false }
{
    if p == q {
        return true;
    }
    i < instance.states(p) && j < instance.states(q) && instance.allowed(p, i, q, j)
}

// whether each chosen state is offered
fn all_offered(instance: &Instance, chosen: &[u32]) -> bool
    requires { length chosen.now ≡ packages instance.now }
    ensures { IsTrue result → (p : ℕ) → p < packages instance.now → is_offered instance.now p (slice_index chosen.now p) ≡ true }
{
    for p in 0..instance.packages() {
        if !is_offered(instance, p, chosen[p as usize]) {
            return false;
        }
    }
    true
}

// whether no two chosen states are forbidden together
fn all_allowed(instance: &Instance, chosen: &[u32]) -> bool
    requires { length chosen.now ≡ packages instance.now }
    ensures { IsTrue result → (p q : ℕ) → p < packages instance.now → q < packages instance.now → p ≢ q → is_forbidden instance.now p (slice_index chosen.now p) q (slice_index chosen.now q) ≡ false }
{
    for p in 0..instance.packages() {
        for q in 0..instance.packages() {
            if !are_allowed(instance, p, chosen[p as usize], q, chosen[q as usize]) {
                return false;
            }
        }
    }
    true
}

fn is_solution(instance: &Instance, chosen: &[u32]) -> bool
    ensures { IsTrue result → IsSolution instance.now chosen.now }
{
    if chosen.len() != instance.packages() as usize {
        return false;
    }
    all_offered(instance, chosen) && all_allowed(instance, chosen)
}

// what becomes of these states, where they are a solution
fn finished(alloc: Global, instance: &Instance, chosen: &[u32]) -> Result<Option<States>, Fail> {
    let roots = instance.roots(alloc)?;
    let needs = instance.needs(alloc)?;
    let mut scratch = RaiseScratch::make(alloc, instance)?;
    let mut states = States::of_vec(chosen.to_vec(alloc)?);
    if !is_plain(instance) || !is_solution(instance, states.items()) {
        return Ok(None);
    }
    raise(instance, roots.items(), &needs, &mut states, &mut scratch);
    Ok(Some(states))
}

#[test]
fn solutions_are_trimmed_and_raised(rt: HostRuntime) -> Result<(), Fail> {
    let world = root_and_two(rt.alloc())?;
    for (chosen, want) in [
        ([0, 0, 0], Some([1, 0, 2])),
        ([0, 1, 1], Some([0, 1, 2])),
        ([1, 0, 2], Some([1, 0, 2])),
        ([1, 1, 0], None),
        ([2, 0, 2], None),
    ] {
        let found = finished(rt.alloc(), &world, &chosen)?;
        match (found, want) {
            (Some(found), Some(want)) => assert_eq!(rt; found.items(), want.as_slice()),
            (found, want) => assert_eq!(rt; found.is_some(), want.is_some()),
        }
    }
    Ok(())
}

// whether these states are a solution, and become those
fn becomes(alloc: Global, instance: &Instance, chosen: &[u32], want: &[u32]) -> Result<bool, Fail> {
    match finished(alloc, instance, chosen)? {
        Some(found) => Ok(found.items() == want),
        None => Ok(false),
    }
}

#[test]
fn roots_that_share_a_package_are_raised_alone(rt: HostRuntime) -> Result<(), Fail> {
    let shared = two_that_share(rt.alloc())?;
    let weak = one_that_is_weak(rt.alloc())?;
    assert!(rt; becomes(rt.alloc(), &shared, &[0, 0, 0], &[0, 1, 0])?);
    assert!(rt; becomes(rt.alloc(), &shared, &[0, 0, 1], &[1, 0, 1])?);
    assert!(rt; becomes(rt.alloc(), &weak, &[0, 0], &[0, 2])?);
    Ok(())
}
