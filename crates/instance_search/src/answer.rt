//! How the search of an instance ends.
use pkg_world::States;
use refutation_log::Log;

/// How the search of an instance ends. All packages and states have their numbers in the instance as it was handed
/// in, whatever was pruned.
#[derive(Debug, Drop)]
pub enum Answer {
    /// A solution, one state for each package, in which nothing is unneeded and nothing can be raised alone; and how
    /// many nodes the walk before it has.
    Found(States, u32),
    /// There is no solution, and the log refutes the instance.
    Empty(Log),
    /// One more node would pass the budget, and the log has as many as it allows.
    Spent(Log),
}
