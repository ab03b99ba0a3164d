//! Laws of pruning, each a call that does nothing and says the law.
ghost use Rattle.graph_pruning.specs.Pruned.{OnePruning};
ghost use Rattle.graph_pruning.specs.Exchange.{UnkeptCanBeAbsent, EqualStatesExchange};
ghost use Rattle.graph_pruning.specs.Reduced.{PruningKeepsClosures, PruningKeepsSolutions, ReducedIsWhole};

use version_graph::{empty_is_everywhere, solution_is_closed};

/// An instance has one pruning.
pub fn one_pruning()
    ensures { OnePruning }
{}

/// Under the same choices the closure in the pruned instance is that of the instance: a closed state has its
/// standing one closed there, that one stands for closed states alone, and both have an empty domain or neither.
pub fn pruning_keeps_closures()
    ensures { PruningKeepsClosures }
{
    empty_is_everywhere();
}

/// Each solution of the instance, cut to the kept packages and mapped through the classes, solves the pruned
/// instance, and each solution of the pruned instance, with all other packages absent, solves the instance.
pub fn pruning_keeps_solutions()
    ensures { PruningKeepsSolutions }
{
    solution_is_closed();
}

/// Where there is a solution, there is one in which each package that isn't kept is absent.
pub fn unkept_can_be_absent()
    ensures { UnkeptCanBeAbsent }
{
    solution_is_closed();
}

/// A solution in which what isn't kept is absent stays one where a kept package's state is exchanged for an equal
/// one.
pub fn equal_states_exchange()
    ensures { EqualStatesExchange }
{
    solution_is_closed();
}

/// Of a pruned instance nothing is pruned again: each of its states is closed where nothing is chosen, and each of
/// its packages has one.
pub fn reduced_is_whole()
    ensures { ReducedIsWhole }
{}
