//! Laws of the closure, of domains and of the trail, each a call that does nothing and says the law.
ghost use Rattle.version_graph.specs.Graph.{OfferedIsKnown};
ghost use Rattle.version_graph.specs.Family.{ClosureIsLargest, ClosureIsMonotone, BetweenClosesAlike, EmptyIsEverywhere, ClosingGoesOn, SolutionIsClosed, DecidedIsSolution};
ghost use Rattle.version_graph.specs.Domain.{OneStateIsLeft};
ghost use Rattle.version_graph.specs.Noted.{NotesTellDomains, HeldIsOffered};

/// The closure is within the domains handed in, is stable, and has every stable family within them.
pub fn closure_is_largest()
    ensures { ClosureIsLargest }
{}

/// Smaller domains have a smaller closure.
pub fn closure_is_monotone()
    ensures { ClosureIsMonotone }
{}

/// What lies between domains and their closure has the same closure.
pub fn between_closes_alike()
    ensures { BetweenClosesAlike }
{}

/// Where one domain of the closure is empty, all are.
pub fn empty_is_everywhere()
    ensures { EmptyIsEverywhere }
{}

/// The closure under a prefix with one more choice is the closure of the closed domains cut to that choice.
pub fn closing_goes_on()
    ensures { ClosingGoesOn }
{}

/// A solution stands in the closure under each prefix that it agrees with.
pub fn solution_is_closed()
    ensures { SolutionIsClosed }
{}

/// Stable domains of one state each, none of them forbidden alone, are a solution.
pub fn decided_is_solution()
    ensures { DecidedIsSolution }
{}

/// A domain of one state is that state alone.
pub fn one_state_is_left()
    ensures { OneStateIsLeft }
{}

/// A state that isn't forbidden alone is one of its package, and this one of the instance.
pub fn offered_is_known()
    ensures { OfferedIsKnown }
{}

/// The domains that a trail holds are told by its notes.
pub fn notes_tell_domains()
    ensures { NotesTellDomains }
{}

/// A state that is left in domains that a trail holds isn't forbidden alone.
pub fn held_is_offered()
    ensures { HeldIsOffered }
{}
