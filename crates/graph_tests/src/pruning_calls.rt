//! Small instances that are pruned: a package that no state left needs, states that are equal and states that
//! aren't; and logs that leave out what is equal to a child's state, or are as deep as there are packages.
ghost use Rattle.std.specs.Prelude.{◌≡◌, ◌<◌, ℕ, length};
ghost use Rattle.version_graph.specs.Graph.{packages, states};
ghost use Rattle.version_graph.specs.Part.{states_of};

use crate::graph_calls::{branch, instance_of, is_plain, leaf, verdict};
use graph_pruning::{Reduced, prune};
use refutation_log::Node;
use std::alloc::{AllocError, Global};
use std::test::Fail;
use version_graph::{Domains, GraphFault, Instance, Trail};

// the packages and states of a pruned instance, by their numbers before
fn numbers_before(alloc: Global, reduced: &Reduced) -> Result<Vec<(u32, u32)>, AllocError>
    requires each { length reduced.now.back ≡ packages reduced.now.instance }
    requires wide { (p : ℕ) → p < packages reduced.now.instance → length (states_of reduced.now.back p) ≡ states reduced.now.instance p }
{
    let mut numbers = Vec::new(alloc);
    for p in 0..reduced.instance.packages() {
        for i in 0..reduced.instance.states(p) {
            numbers.push((reduced.back.package(p), reduced.back.state(p, i)))?;
        }
    }
    Ok(numbers)
}

// the packages and states that pruning leaves of a plain instance; none where a closed domain is empty
fn pruned(alloc: Global, instance: &Instance) -> Result<Vec<(u32, u32)>, Fail> {
    let mut domains = Domains::full(alloc, instance)?;
    let mut trail = Trail::make(alloc, instance)?;
    let pruned = prune(alloc, instance, &mut domains, &mut trail)?;
    if !is_plain(instance) {
        return Err(Fail::from("an instance that isn't plain"));
    }
    if !pruned.is_open {
        return Ok(Vec::new(alloc));
    }
    let reduced = pruned.reduced(alloc, instance, &domains)?;
    Ok(numbers_before(alloc, &reduced)?)
}

#[test]
fn pruning_leaves_what_is_needed_and_differs(rt: HostRuntime) -> Result<(), Fail> {
    let alloc = rt.alloc();
    // the root's first version is shut, and it alone needs the other package
    let unneeded = instance_of(alloc, &[3, 3], &[(0, 0), (0, 2)], &[(0, 0, 1, 2)])?;
    assert_eq!(rt; pruned(alloc, &unneeded)?.as_slice(), [(0, 1)].as_slice());
    // both versions of the needed package are allowed with the root's one
    let equal = instance_of(alloc, &[2, 3], &[(0, 1)], &[(0, 0, 1, 2)])?;
    assert_eq!(rt;
        pruned(alloc, &equal)?.as_slice(),
        [(0, 0), (1, 1)].as_slice()
    );
    // one of the root's versions refuses one of the other's
    let needs = [(0, 0, 1, 2), (0, 1, 1, 2), (0, 0, 1, 0)];
    let apart = instance_of(alloc, &[3, 3], &[(0, 2)], &needs)?;
    let all = [(0, 0), (0, 1), (1, 0), (1, 1)];
    assert_eq!(rt; pruned(alloc, &apart)?.as_slice(), all.as_slice());
    // the root's one version needs what isn't there
    let empty = instance_of(alloc, &[2, 1], &[(0, 1)], &[(0, 0, 1, 0)])?;
    assert_eq!(rt; pruned(alloc, &empty)?.len(), 0);
    Ok(())
}

// three roots, each of which takes only the other version of those after it; the last two versions of the first are
// equal
fn ring_with_a_double(alloc: Global) -> Result<Instance, GraphFault> {
    let pairs = [
        (0, 0, 1, 2),
        (0, 1, 1, 2),
        (0, 2, 1, 2),
        (0, 0, 2, 2),
        (0, 1, 2, 2),
        (0, 2, 2, 2),
        (1, 0, 2, 2),
        (1, 1, 2, 2),
        (0, 0, 1, 0),
        (0, 0, 2, 0),
        (0, 1, 1, 1),
        (0, 1, 2, 1),
        (0, 2, 1, 1),
        (0, 2, 2, 1),
        (1, 0, 2, 0),
        (1, 1, 2, 1),
    ];
    instance_of(alloc, &[4, 3, 3], &[(0, 3), (1, 2), (2, 2)], &pairs)
}

#[test]
fn one_of_equal_states_is_enough_in_a_log(rt: HostRuntime) -> Result<(), Fail> {
    let world = ring_with_a_double(rt.alloc())?;
    let cases: [(&[Node], bool); 6] = [
        (&[branch(None, 0, 2), leaf(Some(0)), leaf(Some(1))], true),
        (&[branch(None, 0, 2), leaf(Some(2)), leaf(Some(0))], true),
        (
            &[
                branch(None, 0, 3),
                leaf(Some(0)),
                leaf(Some(1)),
                leaf(Some(2)),
            ],
            true,
        ),
        (&[branch(None, 0, 2), leaf(Some(1)), leaf(Some(2))], false),
        (&[branch(None, 0, 1), leaf(Some(0))], false),
        (&[branch(None, 0, 1), leaf(Some(2))], false),
    ];
    for (nodes, want) in cases {
        assert_eq!(rt; verdict(rt.alloc(), &world, nodes)?, Some(want));
    }
    Ok(())
}

// so many roots with one version each
fn only_roots(alloc: Global, count: usize) -> Result<Instance, Fail> {
    let sizes = vec![in alloc; 2; count]?;
    let mut alone = Vec::new(alloc);
    for p in 0..count {
        if let Ok(number) = u32::try_from(p) {
            alone.push((number, 1))?;
        }
    }
    Ok(instance_of(alloc, sizes.as_slice(), alone.as_slice(), &[])?)
}

#[test]
fn a_log_may_be_as_deep_as_there_are_packages(rt: HostRuntime) -> Result<(), Fail> {
    let world = only_roots(rt.alloc(), 4096)?;
    let mut nodes = Vec::new(rt.alloc());
    for p in 0..4096 {
        nodes.push(branch(if p == 0 { None } else { Some(0) }, p, 1))?;
    }
    nodes.push(leaf(Some(0)))?;
    assert_eq!(rt; verdict(rt.alloc(), &world, nodes.as_slice())?, Some(false));
    Ok(())
}
