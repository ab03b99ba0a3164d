//! Laws of the instance that stands for a book and a demand, each a call that does nothing and says the law.
ghost use Rattle.book_graph.specs.Laws.{StandsPlain, SumsAreOne, SolutionIsFeasible, FeasibleIsSolution, OneSolution, NoneIsFeasible, NeedIsDependency, NeedIsReach, RaiseIsRaise, FinishedIsBest};

/// The instance is plain: no two absent states are forbidden together.
pub fn stands_plain()
    ensures { StandsPlain }
{}

/// Its bits and its cells are told by the book and the demand.
pub fn sums_are_one()
    ensures { SumsAreOne }
{}

/// What a solution selects is feasible over what the book offers.
pub fn solution_is_feasible()
    ensures { SolutionIsFeasible }
{}

/// A feasible selection over what the book offers is that of a solution.
pub fn feasible_is_solution()
    ensures { FeasibleIsSolution }
{}

/// And of one alone.
pub fn one_solution()
    ensures { OneSolution }
{}

/// Where there is no solution, no selection is feasible.
pub fn none_is_feasible()
    ensures { NoneIsFeasible }
{}

/// The roots and the needs of the instance are the demand's roots and the offers' dependencies.
pub fn need_is_dependency()
    ensures { NeedIsDependency }
{}

/// A package is reached by what a solution's states need exactly where the selection needs it.
pub fn need_is_reach()
    ensures { NeedIsReach }
{}

/// A package can be raised in a solution exactly where it can be in the selection, and to the same versions.
pub fn raise_is_raise()
    ensures { RaiseIsRaise }
{}

/// What a finished solution selects is valid, and nothing of it can be raised.
pub fn finished_is_best()
    ensures { FinishedIsBest }
{}
