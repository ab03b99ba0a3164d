//! What is true of refutation, as public functions without a body whose clause is the law.
ghost use Rattle.refutation_log.specs.Refutes.{RefutationIsSound};
ghost use Rattle.refutation_log.specs.Renumbered.{RenumberedRefutes};

use graph_pruning::{equal_states_exchange, pruning_keeps_closures, unkept_can_be_absent};
use version_graph::solution_is_closed;

/// A log that refutes a plain instance leaves no solution, whoever made it.
pub fn refutation_is_sound()
    ensures { RefutationIsSound }
{
    solution_is_closed();
    unkept_can_be_absent();
    equal_states_exchange();
}

/// A tree that refutes the pruned instance, of which nothing is pruned again, refutes the instance when it is
/// written by the numbers before pruning.
pub fn renumbered_refutes()
    ensures { RenumberedRefutes }
{
    pruning_keeps_closures();
}
