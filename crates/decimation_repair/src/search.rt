//! The search.
ghost use Rattle.std.specs.Prelude.{◌≡◌, IfOk};
ghost use Rattle.maxsum_messages.specs.Field.{AreFieldsFor};
ghost use Rattle.decimation_repair.specs.Standing.{EndsAs};

use crate::walker::{Visited, Walker};
use lex_weights::Lex3;
use maxsum_messages::Fields;
use pkg_world::States;
use refutation_log::Log;
use std::alloc::{AllocError, Global};
use std::marker::Model;
use version_graph::Instance;

/// How a search ends.
#[derive(Debug, Drop)]
pub enum Outcome {
    /// A solution, and the nodes of the walk before it.
    Found(States, Log),
    /// The walk ended without a solution, so there is none. The nodes are a whole tree that refutes the instance, where
    /// nothing of it is pruned.
    Empty(Log),
    /// One more node would pass the budget, whose nodes these are.
    Spent(Log),
}

/// A search that is ready to run: all memory that it will use is set aside. It is seen as its instance, its
/// fields and its budget.
#[derive(Drop)]
pub struct Search<'a> {
    walker: Walker<'a>,
}

impl<'a> Model for Search<'a> {
    ghost use Rattle.decimation_repair.specs.Standing.{IsAt};
    ghost use Rattle.decimation_repair.specs.Sought.{Sought};

    ghost Value = { Sought };

    ghost view = { λ a. record { instance = a.walker.instance.now; fields = a.walker.advice.fields.now; budget = a.walker.budget } };

    ghost invariant = { λ a. IsAt a.walker };
}

impl<'a> Search<'a> {
    /// A search over the instance that goes by these fields, which were made for it, and logs at most so many nodes. The
    /// one error is want of memory.
    pub fn make(
        alloc: Global,
        instance: &'a Instance,
        fields: &'a Fields<Lex3>,
        budget: u32,
    ) -> Result<Self, AllocError>
        requires { AreFieldsFor instance.now fields.now }
        ensures instance { IfOk result (λ search. search.instance ≡ instance.now) }
        ensures fields { IfOk result (λ search. search.fields ≡ fields.now) }
        ensures budget { IfOk result (λ search. search.budget ≡ budget) }
    {
        Ok(Search {
            walker: Walker::make(alloc, instance, fields, budget)?,
        })
    }

    /// Walks until a solution is found, the walk ends, or the budget is spent. The choice at a prefix goes by the beliefs
    /// after eight rounds of messages on the closure under the prefix cut to a multiple of sixteen choices: of the
    /// undecided packages the one whose best belief is the furthest above its second best, the least number on a tie; its
    /// states by belief, the greatest first, and then by greater number. It takes no memory.
    pub fn run(self) -> Outcome
        ensures { EndsAs self.entry.instance self.entry.fields self.entry.budget result }
    {
        let mut walker = self.walker;
        loop {
            match walker.visit() {
                Visited::Solved => return Outcome::Found(walker.states, walker.log),
                Visited::Full => return Outcome::Spent(walker.log),
                Visited::Logged => {
                    if !walker.advance() {
                        return Outcome::Empty(walker.log);
                    }
                }
            }
        }
    }
}
