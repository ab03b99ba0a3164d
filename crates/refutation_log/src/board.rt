//! The walk over a log.
ghost use Rattle.std.specs.Prelude.{◌≡◌, ◌<◌, ◌↔◌, ℕ, [], true, false, IsTrue, MatchBool, MatchOption};
ghost use Rattle.version_graph.specs.Graph.{packages, states};
ghost use Rattle.version_graph.specs.Family.{InClosure, narrowed};
ghost use Rattle.version_graph.specs.Domain.{has};
ghost use Rattle.graph_pruning.specs.Marked.{standing_in};
ghost use Rattle.refutation_log.specs.Found.{TreeAt, NoTreeAt, NoChildrenAt, ChildrenTake, BranchAt, NoBranchAt, IsSettledAs};

use crate::moves::settle;
use crate::node::{Node, NodeKind};
use graph_pruning::{Classes, cross_off, cut_to, undo_to};
use version_graph::{Domains, Instance, Trail};

/// What changes on the way through a log.
#[derive(Drop)]
pub(crate) struct Board {
    /// The domains under the choices on the way to the present node.
    pub(crate) domains: Domains,
    pub(crate) trail: Trail,
    /// At a package that is chosen, the states that stand for no child's state yet; at any other, all.
    pub(crate) missing: Domains,
    pub(crate) missed: Trail,
    /// On which packages no branch may be: those that are chosen, and those that aren't kept.
    pub(crate) shut: Vec<bool>,
}

impl Board {
    ghost use Rattle.refutation_log.specs.Scratch.{Fits, IsRestored, IsExtended, marks};

    /// Whether the nodes are one whole tree that refutes within the domains. Everything is as before then.
    pub(crate) fn accepts(&mut self, instance: &Instance, classes: &Classes, nodes: &[Node]) -> bool
        requires { Fits instance.now classes.now self.old }
        ensures fits { Fits instance.now classes.now self.new }
        ensures restored { IsRestored self.old self.new }
        ensures whole { IsTrue result ↔ TreeAt instance.now (standing_in classes.now) (has self.old.domains) (marks self.old) nodes.now [] }
    {
        let mark = self.trail.mark();
        let is_open = settle(instance, &mut self.domains, &mut self.trail);
        let accepted = self.is_whole(instance, classes, nodes, is_open);
        undo_to(&mut self.domains, &mut self.trail, mark);
        accepted
    }

    /// Whether the nodes are one whole tree that refutes within the domains, which are closed, or else their
    /// closure has an empty domain.
    fn is_whole(
        &mut self,
        instance: &Instance,
        classes: &Classes,
        nodes: &[Node],
        is_open: bool,
    ) -> bool
        requires fits { Fits instance.now classes.now self.old }
        requires closed { IsSettledAs instance.now (has self.old.domains) is_open }
        ensures fits { Fits instance.now classes.now self.new }
        ensures restored { IsRestored self.old self.new }
        ensures whole { IsTrue result ↔ TreeAt instance.now (standing_in classes.now) (has self.old.domains) (marks self.old) nodes.now [] }
    {
        match self.subtree(instance, classes, nodes, is_open) {
            Some(rest) => rest.is_empty(),
            None => false,
        }
    }

    /// Whether each state of the package's closed domain is equal to a child's state. The domains are closed, or
    /// else their closure has an empty domain.
    fn covers(&self, instance: &Instance, classes: &Classes, p: u32, is_open: bool) -> bool
        requires fits { Fits instance.now classes.now self.now }
        requires closed { IsSettledAs instance.now (has self.now.domains) is_open }
        requires known { p < packages instance.now }
        ensures { MatchBool result
            ((i : ℕ) → InClosure instance.now (has self.now.domains) p i → has self.now.missing p (standing_in classes.now p i) ≡ false)
            ((i : ℕ) × InClosure instance.now (has self.now.domains) p i × (has self.now.missing p (standing_in classes.now p i) ≡ true)) }
    {
        if !is_open {
            return true;
        }
        for i in 0..instance.states(p) {
            if self.domains.has(p, i) && self.is_missing(instance, classes, p, i) {
                return false;
            }
        }
        true
    }

    /// Whether what stands for the state stands for no child's state yet.
    fn is_missing(&self, instance: &Instance, classes: &Classes, p: u32, i: u32) -> bool
        requires fits { Fits instance.now classes.now self.now }
        requires known { p < packages instance.now }
        requires state { i < states instance.now p }
        ensures { result ≡ has self.now.missing p (standing_in classes.now p i) }
    {
        self.missing.has(p, classes.standing(p, i))
    }

    /// Finds the end of the tree that the nodes begin with, where it refutes within the domains, which are
    /// closed, or else their closure has an empty domain.
    #[cycle(refuting)]
    fn subtree<'a>(
        &mut self,
        instance: &Instance,
        classes: &Classes,
        nodes: &'a [Node],
        is_open: bool,
    ) -> Option<&'a [Node]>
        requires fits { Fits instance.now classes.now self.old }
        requires closed { IsSettledAs instance.now (has self.old.domains) is_open }
        ensures fits { Fits instance.now classes.now self.new }
        ensures restored { IsRestored self.old self.new }
        ensures found { MatchOption result
            (NoTreeAt instance.now (standing_in classes.now) (has self.old.domains) (marks self.old) nodes.now)
            (λ rest. TreeAt instance.now (standing_in classes.now) (has self.old.domains) (marks self.old) nodes.now rest.now) }
    {
        let (first, rest) = nodes.split_first()?;
        match first.kind {
            NodeKind::Leaf => { if is_open { None } else { Some(rest) } }
            NodeKind::Branch {
                package: p,
                children,
            } => {
                if p >= instance.packages() {
                    return None;
                }
                if self.shut[p as usize] {
                    return None;
                }
                self.branch(instance, classes, rest, p, children, is_open)
            }
        }
    }

    /// Finds the end of the children of a branch on a package, where they refute and cover the package's
    /// closed domain.
    #[cycle(refuting)]
    #[inline(always)]
    fn branch<'a>(
        &mut self,
        instance: &Instance,
        classes: &Classes,
        nodes: &'a [Node],
        p: u32,
        children: u32,
        is_open: bool,
    ) -> Option<&'a [Node]>
        requires fits { Fits instance.now classes.now self.old }
        requires closed { IsSettledAs instance.now (has self.old.domains) is_open }
        requires known { p < packages instance.now }
        requires free { marks self.old p ≡ false }
        ensures fits { Fits instance.now classes.now self.new }
        ensures restored { IsRestored self.old self.new }
        ensures found { MatchOption result
            (NoBranchAt instance.now (standing_in classes.now) (has self.old.domains) (marks self.old) p children nodes.now)
            (λ rest. BranchAt instance.now (standing_in classes.now) (has self.old.domains) (marks self.old) p children nodes.now rest.now) }
    {
        self.shut[p as usize] = true;
        let mark = self.missed.mark();
        let found = self.children(instance, classes, nodes, p, children);
        let covered = self.covers(instance, classes, p, is_open);
        undo_to(&mut self.missing, &mut self.missed, mark);
        self.shut[p as usize] = false;
        if covered { found } else { None }
    }

    /// Finds the end of that many children of a branch on a package, where each refutes, and takes their states
    /// from those that are missing.
    #[cycle(refuting)]
    #[inline(always)]
    fn children<'a>(
        &mut self,
        instance: &Instance,
        classes: &Classes,
        nodes: &'a [Node],
        p: u32,
        children: u32,
    ) -> Option<&'a [Node]>
        requires fits { Fits instance.now classes.now self.old }
        requires known { p < packages instance.now }
        requires shut { marks self.old p ≡ true }
        ensures fits { Fits instance.now classes.now self.new }
        ensures extended { IsExtended self.old self.new }
        ensures found { MatchOption result
            (NoChildrenAt instance.now (standing_in classes.now) (has self.old.domains) (marks self.old) p children nodes.now)
            (λ rest. ChildrenTake instance.now (standing_in classes.now) (has self.old.domains) (marks self.old) p children nodes.now rest.now
            (has self.old.missing p) (has self.new.missing p)) }
    {
        let mut nodes = nodes;
        let mut left = children;
        while left > 0 {
            let (first, _) = nodes.split_first()?;
            let i = first.state?;
            if i >= instance.states(p) {
                return None;
            }
            nodes = self.child(instance, classes, nodes, p, i)?;
            let standing = classes.standing(p, i);
            cross_off(instance, &mut self.missing, &mut self.missed, p, standing);
            left -= 1;
        }
        Some(nodes)
    }

    /// Finds the end of the tree that the nodes begin with, where it refutes with one choice more.
    #[cycle(refuting)]
    #[inline(always)]
    fn child<'a>(
        &mut self,
        instance: &Instance,
        classes: &Classes,
        nodes: &'a [Node],
        p: u32,
        i: u32,
    ) -> Option<&'a [Node]>
        requires fits { Fits instance.now classes.now self.old }
        requires known { p < packages instance.now }
        requires state { i < states instance.now p }
        ensures fits { Fits instance.now classes.now self.new }
        ensures restored { IsRestored self.old self.new }
        ensures found { MatchOption result
            (NoTreeAt instance.now (standing_in classes.now) (narrowed (has self.old.domains) p i) (marks self.old) nodes.now)
            (λ rest. TreeAt instance.now (standing_in classes.now) (narrowed (has self.old.domains) p i) (marks self.old) nodes.now rest.now) }
    {
        let mark = self.trail.mark();
        cut_to(instance, &mut self.domains, &mut self.trail, p, i);
        let is_open = settle(instance, &mut self.domains, &mut self.trail);
        let found = self.subtree(instance, classes, nodes, is_open);
        undo_to(&mut self.domains, &mut self.trail, mark);
        found
    }
}
