//! Writing a log by the numbers before pruning.
ghost use Rattle.std.specs.Prelude.{◌≡◌, ◌∷◌, ◌++◌, ℕ, None, [], reverse, take, IfOk, OnOk};
ghost use Rattle.version_graph.specs.Graph.{Graph};
ghost use Rattle.version_graph.specs.Part.{package_of, state_of};
ghost use Rattle.graph_pruning.specs.Pruned.{Pruning, IsUnpruned};
ghost use Rattle.graph_pruning.specs.Reduced.{IsReduction};
ghost use Rattle.refutation_log.specs.Tree.{Tree, preorder};
ghost use Rattle.refutation_log.specs.Refutes.{Refutes, IsRefutation};
ghost use Rattle.refutation_log.specs.Renumbered.{renumbered};
ghost use Rattle.refutation_log.specs.Moved.{moved_state, moved_kind, moved_node, open_at, opened, top_of, take_child};

use crate::laws::renumbered_refutes;
use crate::node::{Log, Node, NodeKind};
use std::alloc::{AllocError, Global};
use version_graph::StateMap;

/// The log with each package and each state by its number before pruning: where its nodes are the pre-order list of a
/// tree, or the front of one that was cut at a budget, the new ones are that of the tree by these numbers, or as long a
/// front. Where the tree refutes the pruned instance, of which nothing is pruned again, the new log refutes the instance
/// that was pruned. Any nodes may stand in it, and they are gone through once. The one error is want of memory.
pub fn renumber(alloc: Global, log: &Log, back: &StateMap) -> Result<Log, AllocError>
    ensures listed { IfOk result (λ moved. (t : Tree) → log.now.items ≡ preorder None t → moved.items ≡ preorder None (renumbered back.now t)) }
    ensures front { IfOk result (λ moved. (t : Tree) (k : ℕ) → log.now.items ≡ take k (preorder None t) → moved.items ≡ take k (preorder None (renumbered back.now t))) }
    ensures refutes { IfOk result (λ moved. (g h : Graph) (pr own : Pruning) (t : Tree) → IsReduction g pr h back.now → IsUnpruned h own →
        log.now.items ≡ preorder None t → Refutes h own [] t → IsRefutation g moved.items) }
{
    renumbered_refutes();
    let nodes = log.items();
    let mut moved = Log::make(alloc);
    let mut waiting = Vec::new(alloc);
    for k in 0..nodes.len() {
        move_node(back, nodes[k], &mut waiting, &mut moved)?;
    }
    Ok(moved)
}

/// Appends the node by the numbers before.
fn move_node(
    back: &StateMap,
    node: Node,
    waiting: &mut Vec<(u32, u32)>,
    moved: &mut Log,
) -> Result<(), AllocError>
    ensures moved { OnOk result (moved.new.items ≡ moved.old.items ++ moved_node back.now (reverse waiting.old.items) node ∷ []) }
    ensures waiting { OnOk result (reverse waiting.new.items ≡ opened node.kind (take_child (reverse waiting.old.items))) }
{
    let parent = next_child(waiting)?;
    moved.push(Node {
        state: moved_state(back, parent, node.state),
        kind: moved_kind(back, node.kind),
    })?;
    open_branch(waiting, node.kind)?;
    Ok(())
}

/// The package of the innermost branch that waits for a child, which then waits for one child less; none at the first
/// node.
fn next_child(waiting: &mut Vec<(u32, u32)>) -> Result<Option<u32>, AllocError>
    ensures parent { IfOk result (λ parent. parent ≡ top_of (reverse waiting.old.items)) }
    ensures waiting { OnOk result (reverse waiting.new.items ≡ take_child (reverse waiting.old.items)) }
{
    match waiting.pop() {
        None => Ok(None),
        Some((p, left)) => {
            wait_for(waiting, p, left.saturating_sub(1))?;
            Ok(Some(p))
        }
    }
}

/// Waits for so many children of a branch on p.
fn wait_for(waiting: &mut Vec<(u32, u32)>, p: u32, left: u32) -> Result<(), AllocError>
    ensures { OnOk result (reverse waiting.new.items ≡ open_at p left (reverse waiting.old.items)) }
{
    if left > 0 {
        waiting.push((p, left))?;
    }
    Ok(())
}

/// Waits for the children of the node.
fn open_branch(waiting: &mut Vec<(u32, u32)>, kind: NodeKind) -> Result<(), AllocError>
    ensures { OnOk result (reverse waiting.new.items ≡ opened kind (reverse waiting.old.items)) }
{
    match kind {
        NodeKind::Leaf => Ok(()),
        NodeKind::Branch {
            package: p,
            children,
        } => wait_for(waiting, p, children),
    }
}

/// The state of a child of a branch on that package by its number before.
fn moved_state(back: &StateMap, parent: Option<u32>, state: Option<u32>) -> Option<u32>
    ensures { result ≡ moved_state back.now parent state }
{
    match parent {
        None => state,
        Some(p) => match state {
            None => None,
            Some(i) => Some(state_before(back, p, i)),
        },
    }
}

/// The kind of a node by the number of its package before.
fn moved_kind(back: &StateMap, kind: NodeKind) -> NodeKind
    ensures { result ≡ moved_kind back.now kind }
{
    match kind {
        NodeKind::Leaf => NodeKind::Leaf,
        NodeKind::Branch {
            package: p,
            children,
        } => NodeKind::Branch {
            package: package_before(back, p),
            children,
        },
    }
}

/// The number before of the package in the place p, which is 0 where the map has no such place.
fn package_before(back: &StateMap, p: u32) -> u32
    ensures { result ≡ package_of back.now p }
{
    if (p as usize) < back.count() {
        return back.package(p);
    }
    0
}

/// The number before of the state in the place i of the package in the place p, which is 0 where the map has no such
/// place.
fn state_before(back: &StateMap, p: u32, i: u32) -> u32
    ensures { result ≡ state_of back.now p i }
{
    if (p as usize) >= back.count() {
        return 0;
    }
    if (i as usize) >= back.width(p as usize) {
        return 0;
    }
    back.state(p, i)
}
