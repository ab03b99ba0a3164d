//! The order in which the states of a package are tried.
ghost use Rattle.std.specs.Prelude.{◌≡◌, [], IfOk};
ghost use Rattle.std.specs.Ordering.{is_lt, ordering_then, nat_cmp};
ghost use Rattle.maxsum_messages.specs.Ranking.{IsOrderFor};

use lex_weights::Weight;
use std::alloc::{AllocError, Global};
use std::marker::Model;
use version_graph::Instance;

/// States of one package, in the order in which they are tried.
#[derive(Drop)]
pub struct Order {
    pub(crate) states: Vec<u32>,
}

impl Model for Order {
    ghost use Rattle.std.specs.Prelude.{vec_capacity};
    ghost use Rattle.maxsum_messages.specs.Ranking.{Ranking};

    ghost Value = { Ranking };

    ghost view = { λ a. record { states = a.states.items; room = vec_capacity a.states } };
}

impl Order {
    /// No states, with room for those of any package of the instance. The one error is want of memory.
    pub fn make(alloc: Global, instance: &Instance) -> Result<Self, AllocError>
        ensures none { IfOk result (λ order. order.states ≡ []) }
        ensures room { IfOk result (λ order. IsOrderFor instance.now order) }
    {
        let states = Vec::with_capacity(alloc, instance.state_count() as usize)?;
        Ok(Order { states })
    }

    /// The states, the first one first. It takes no memory.
    pub fn states(&self) -> &[u32]
        ensures { result.now ≡ self.now.states }
    {
        self.states.as_slice()
    }
}

/// Whether the state i with the first belief is tried before the state j with the second one.
pub(crate) fn is_before<W: Weight>(first: W, i: u32, second: W, j: u32) -> bool
    ensures { result ≡ is_lt (ordering_then (W.cmp second first) (nat_cmp j i)) }
{
    second.cmp(&first).then(j.cmp(&i)).is_lt()
}
