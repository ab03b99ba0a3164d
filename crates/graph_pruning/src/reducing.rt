//! The pruned instance.
ghost use Rattle.std.specs.Prelude.{◌≡◌, ◌<◌, ◌+◌, ◌∷◌, ◌++◌, ℕ, true, [], length, IfOk, OnOk, if◌then◌else◌};
ghost use Rattle.version_graph.specs.Graph.{packages, states, IsListOf};
ghost use Rattle.version_graph.specs.Domain.{has, IsFor};
ghost use Rattle.graph_pruning.specs.Pruned.{AreStanding};
ghost use Rattle.graph_pruning.specs.Reduced.{IsReducedTo};
ghost use Rattle.graph_pruning.specs.Marked.{marked, standing_in, does_stand, HasRows};
ghost use Rattle.graph_pruning.specs.Parting.{IsPartBelow};

use crate::kept::{Classes, Kept};
use pkg_world::States;
use std::alloc::{AllocError, Global};
use version_graph::{Domains, Instance, StateMap};

/// A pruned instance, and the numbers before pruning of its packages and states. Its last states may be offers.
#[derive(Drop)]
pub struct Reduced {
    /// The kept packages with the states that stand for their classes, in order, forbidden as they were.
    pub instance: Instance,
    /// The numbers before pruning.
    pub back: StateMap,
}

/// The instance of the kept packages and of the states of the domains that stand for their classes. The
/// classes are those of the domains, and no kept package's domain is empty. The one error is want of memory.
pub fn reduce(
    alloc: Global,
    instance: &Instance,
    domains: &Domains,
    kept: &Kept,
    classes: &Classes,
) -> Result<Reduced, AllocError>
    requires made { IsFor instance.now domains.now }
    requires marks { length kept.now ≡ packages instance.now }
    requires rows { HasRows instance.now classes.now }
    requires standing { AreStanding instance.now (has domains.now) (standing_in classes.now) }
    requires filled { (p : ℕ) → marked kept.now p ≡ true → (i : ℕ) × (has domains.now p i ≡ true) }
    ensures { IfOk result (λ reduced. IsReducedTo instance.now (has domains.now) (marked kept.now) (standing_in classes.now) reduced.instance reduced.back) }
{
    let back = kept_part(alloc, instance, domains, kept, classes)?;
    let reduced = instance.restricted(alloc, &back)?;
    Ok(Reduced {
        instance: reduced,
        back,
    })
}

/// The kept packages with their states that stand.
fn kept_part(
    alloc: Global,
    instance: &Instance,
    domains: &Domains,
    kept: &Kept,
    classes: &Classes,
) -> Result<StateMap, AllocError>
    requires made { IsFor instance.now domains.now }
    requires marks { length kept.now ≡ packages instance.now }
    requires rows { HasRows instance.now classes.now }
    ensures { IfOk result (IsPartBelow (has domains.now) (marked kept.now) (standing_in classes.now) (packages instance.now)) }
{
    let mut part = StateMap::make(alloc);
    for p in 0..instance.packages() {
        push_kept(alloc, instance, domains, kept, classes, p, &mut part)?;
    }
    Ok(part)
}

/// Puts the package p with its states that stand in the next place, if it is kept.
fn push_kept(
    alloc: Global,
    instance: &Instance,
    domains: &Domains,
    kept: &Kept,
    classes: &Classes,
    p: u32,
    part: &mut StateMap,
) -> Result<(), AllocError>
    requires made { IsFor instance.now domains.now }
    requires marks { length kept.now ≡ packages instance.now }
    requires rows { HasRows instance.now classes.now }
    requires known { p < packages instance.now }
    ensures { OnOk result (IsPartBelow (has domains.now) (marked kept.now) (standing_in classes.now) p part.old →
        IsPartBelow (has domains.now) (marked kept.now) (standing_in classes.now) (p + 1) part.new) }
{
    if !kept.has(p) {
        return Ok(());
    }
    let states = standing_states(alloc, instance, domains, classes, p)?;
    part.push(p, states)?;
    Ok(())
}

/// The states of the package's domain that stand for their classes, rising.
fn standing_states(
    alloc: Global,
    instance: &Instance,
    domains: &Domains,
    classes: &Classes,
    p: u32,
) -> Result<States, AllocError>
    requires made { IsFor instance.now domains.now }
    requires rows { HasRows instance.now classes.now }
    requires known { p < packages instance.now }
    ensures { IfOk result (λ list. IsListOf (does_stand (has domains.now) (standing_in classes.now) p) list.items) }
{
    let mut list = States::make(alloc);
    for i in 0..instance.states(p) {
        push_standing(instance, domains, classes, p, i, &mut list)?;
    }
    Ok(list)
}

/// Appends the state, if it is in the package's domain and stands for its class.
fn push_standing(
    instance: &Instance,
    domains: &Domains,
    classes: &Classes,
    p: u32,
    i: u32,
    list: &mut States,
) -> Result<(), AllocError>
    requires made { IsFor instance.now domains.now }
    requires rows { HasRows instance.now classes.now }
    requires known { p < packages instance.now }
    requires state { i < states instance.now p }
    ensures { OnOk result (list.new.items ≡ list.old.items ++ (if does_stand (has domains.now) (standing_in classes.now) p i then i ∷ [] else [])) }
{
    if domains.has(p, i) && classes.standing(p, i) == i {
        list.push(i)?;
    }
    Ok(())
}
