//! Laws of the answer, each a call that does nothing and says the law.
ghost use Rattle.instance_search.specs.Laws.{FoundIsFinished, EmptyRefutes, SpentIsFull, ProductSuffices, AnswerIsOne};

use decimation_repair::{end_refutes, found_is_solution, walk_is_one, walk_stays_within};
use graph_pruning::{one_pruning, pruning_keeps_solutions, reduced_is_whole};
use raise_pass::{finish_keeps_solution, one_finish};
use refutation_log::{refutation_is_sound, renumbered_refutes};
use version_graph::empty_is_everywhere;

/// What is found is a solution in which nothing is unneeded and nothing can be raised alone.
pub fn found_is_finished()
    ensures { FoundIsFinished }
{
    found_is_solution();
    pruning_keeps_solutions();
    finish_keeps_solution();
}

/// Where the answer is that there is no solution, the log refutes the instance, and there is none.
pub fn empty_refutes()
    ensures { EmptyRefutes }
{
    end_refutes();
    reduced_is_whole();
    renumbered_refutes();
    refutation_is_sound();
    empty_is_everywhere();
}

/// The log of a spent budget has as many nodes as it allows.
pub fn spent_is_full()
    ensures { SpentIsFull }
{}

/// A budget that is as great as the product over packages of one more than their states is never spent.
pub fn product_suffices()
    ensures { ProductSuffices }
{
    walk_stays_within();
}

/// The search of an instance within a budget has one answer.
pub fn answer_is_one()
    ensures { AnswerIsOne }
{
    walk_is_one();
    one_pruning();
    one_finish();
}
