//! Where a search stands, and how it goes on.
ghost use Rattle.std.specs.Prelude.{◌≡◌, ◌<◌, ◌≤◌, ◌+◌, ◌∷◌, ◌++◌, ℕ, true, false, [], length, IfOk, MatchBool};
ghost use Rattle.version_graph.specs.Graph.{packages};
ghost use Rattle.version_graph.specs.Domain.{size_of};
ghost use Rattle.maxsum_messages.specs.Field.{AreFieldsFor};
ghost use Rattle.decimation_repair.specs.Walk.{Ends};
ghost use Rattle.decimation_repair.specs.Path.{prefix_of};
ghost use Rattle.decimation_repair.specs.Advised.{IsWide};
ghost use Rattle.decimation_repair.specs.Standing.{choice_of, IsAt, IsOpenAt, IsDeadAt, HasLeft, DropsOne, SameSearch, GivesVisit};
ghost use Rattle.decimation_repair.specs.declared.walker.Visited.TheVariants.{Solved};

use crate::advice::Advice;
use crate::deciding::{is_decided, tell_states};
use crate::lists::append;
use crate::orders::Orders;
use crate::path::{Chosen, drop_last, entered, last_choice, try_state};
use graph_pruning::{Closed, close, undo_to};
use lex_weights::Lex3;
use maxsum_messages::Fields;
use pkg_world::States;
use refutation_log::{Log, Node, NodeKind};
use std::alloc::{AllocError, Global};
use version_graph::{Domains, Instance, Trail, closing_goes_on};

/// Where a search stands: the domains under the choices on its path, and the nodes that it has logged.
#[derive(Drop)]
pub(crate) struct Walker<'a> {
    pub(crate) instance: &'a Instance,
    pub(crate) domains: Domains,
    pub(crate) trail: Trail,
    pub(crate) path: Vec<Chosen>,
    pub(crate) orders: Orders,
    pub(crate) advice: Advice<'a>,
    pub(crate) states: States,
    pub(crate) log: Log,
    pub(crate) budget: u32,
}

/// What visiting a task gives.
#[derive(Clone, Copy, Debug, PartialEq, Eq)]
pub(crate) enum Visited {
    /// Every package is decided.
    Solved,
    /// There is no room for one more node.
    Full,
    /// A node is logged.
    Logged,
}

impl<'a> Walker<'a> {
    /// A walker at the task where nothing is chosen, with room for all that it will do.
    pub(crate) fn make(
        alloc: Global,
        instance: &'a Instance,
        fields: &'a Fields<Lex3>,
        budget: u32,
    ) -> Result<Self, AllocError>
        requires { AreFieldsFor instance.now fields.now }
        ensures start { IfOk result IsAt }
        ensures instance { IfOk result (λ walker. walker.instance.now ≡ instance.now) }
        ensures fields { IfOk result (λ walker. walker.advice.fields.now ≡ fields.now) }
        ensures budget { IfOk result (λ walker. walker.budget ≡ budget) }
    {
        let mut states = States::make(alloc);
        states.reserve(instance.packages() as usize)?;
        let mut log = Log::make(alloc);
        log.reserve(budget as usize)?;
        Ok(Walker {
            instance,
            domains: Domains::full(alloc, instance)?,
            trail: Trail::make(alloc, instance)?,
            path: Vec::with_capacity(alloc, instance.packages() as usize)?,
            orders: Orders::make(alloc, instance)?,
            advice: Advice::make(alloc, instance, fields)?,
            states,
            log,
            budget,
        })
    }

    /// Visits the task at which the walk stands.
    pub(crate) fn visit(&mut self) -> Visited
        requires { IsAt self.old }
        ensures same { SameSearch self.old self.new }
        ensures gives { GivesVisit self.old self.new result }
    {
        match close(self.instance, &mut self.domains, &mut self.trail) {
            Closed::Empty(_) => self.leaf(),
            Closed::Stable => {
                if is_decided(self.instance, &self.domains) {
                    self.solve()
                } else {
                    self.choose()
                }
            }
        }
    }

    /// Logs a dead end.
    fn leaf(&mut self) -> Visited
        requires { IsDeadAt self.old }
        ensures same { SameSearch self.old self.new }
        ensures gives { GivesVisit self.old self.new result }
    {
        let node = Node {
            state: entered(&self.path),
            kind: NodeKind::Leaf,
        };
        if note(&mut self.log, self.budget, node) {
            Visited::Logged
        } else {
            Visited::Full
        }
    }

    /// Chooses the package that is decided next, and logs the branch on it.
    fn choose(&mut self) -> Visited
        requires open { IsOpenAt self.old }
        requires wide { IsWide self.old.instance.now self.old.domains }
        ensures same { SameSearch self.old self.new }
        ensures gives { GivesVisit self.old self.new result }
    {
        let package = self
            .advice
            .choose(self.instance, &self.domains, self.path.as_slice());
        self.branch(package)
    }

    /// Logs a branch on the package, whose states are in order, and makes the choice.
    fn branch(&mut self, package: u32) -> Visited
        requires open { IsOpenAt self.old }
        requires chosen { choice_of self.old self.old.instance.now (prefix_of self.old.path.items) «package» self.old.advice.order.states }
        ensures same { SameSearch self.old self.new }
        ensures gives { GivesVisit self.old self.new result }
    {
        // no package has more states than can be counted
        let _count = self.instance.states(package);
        let states = self.advice.order.states();
        let node = Node {
            state: entered(&self.path),
            kind: NodeKind::Branch {
                package,
                children: states.len() as u32,
            },
        };
        if !note(&mut self.log, self.budget, node) {
            return Visited::Full;
        }
        self.orders.write(package, self.advice.order.states());
        let chosen = Chosen {
            package,
            state: 0,
            tried: 0,
            mark: self.trail.mark(),
        };
        append(&mut self.path, chosen);
        Visited::Logged
    }

    /// Tells the states of a prefix that decides every package.
    fn solve(&mut self) -> Visited
        requires open { IsOpenAt self.old }
        requires decided { (p : ℕ) → p < packages self.old.instance.now → size_of self.old.domains p ≤ 1 }
        ensures same { SameSearch self.old self.new }
        ensures gives { GivesVisit self.old self.new result }
        ensures solved { result ≡ Solved }
    {
        tell_states(self.instance, &self.domains, &mut self.states);
        Visited::Solved
    }

    /// Goes on to the next task: the next state of the deepest choice that has one. False where there is none.
    pub(crate) fn advance(&mut self) -> bool
        requires { HasLeft self.old }
        ensures same { SameSearch self.old self.new }
        ensures log { self.new.log.items ≡ self.old.log.items }
        ensures next { MatchBool result (IsAt self.new) (Ends self.old.instance.now (choice_of self.old) self.old.budget self.new.log.items) }
    {
        while self.path.len() > 0 {
            if self.retry() {
                return true;
            }
        }
        false
    }

    /// Goes back to the deepest choice and on to its next state; where none is left, the choice is dropped.
    fn retry(&mut self) -> bool
        requires left { HasLeft self.old }
        requires some { 0 < length self.old.path.items }
        ensures same { SameSearch self.old self.new }
        ensures log { self.new.log.items ≡ self.old.log.items }
        ensures next { MatchBool result (IsAt self.new) (DropsOne self.old self.new) }
    {
        let last = last_choice(&self.path);
        // no package has more states than can be counted
        let _count = self.instance.states(last.package);
        match self.orders.state(last.package, last.tried) {
            Some(state) => {
                undo_to(&mut self.domains, &mut self.trail, last.mark);
                closing_goes_on();
                try_state(&mut self.path, state);
                self.domains.narrow(last.package, state, &mut self.trail);
                true
            }
            None => {
                drop_last(&mut self.path);
                false
            }
        }
    }
}

/// Logs a node. False where there are as many as the budget allows.
fn note(log: &mut Log, budget: u32, node: Node) -> bool
    requires within { length log.old.items ≤ budget }
    requires room { budget ≤ length log.old.items + log.old.spare }
    ensures logged { MatchBool result
        (log.new.items ≡ log.old.items ++ node ∷ [])
        ((log.new.items ≡ log.old.items) × (length log.old.items ≡ budget)) }
    ensures within { length log.new.items ≤ budget }
    ensures room { budget ≤ length log.new.items + log.new.spare }
{
    if log.items().len() >= budget as usize {
        return false;
    }
    log.push_spare(node);
    true
}
