//! Laws of rounds and choices, each a call that does nothing and says the law.
ghost use Rattle.maxsum_messages.specs.Laws.{ClosureIsStable, SilenceIsOne, RoundIsOne, RoundsAreOne, BeliefIsOne, NothingToTellIsZero, OneChoice};

use lex_weights::Weight;
use version_graph::closure_is_largest;

/// A closure is stable. So domains that were closed, and of which none is empty, can be handed to a round.
pub fn closure_is_stable()
    ensures { ClosureIsStable }
{
    closure_is_largest();
}

/// A round has one result: from each neighbour the same message to each state.
pub fn round_is_one<W: Weight>()
    ensures { RoundIsOne W.none W.plus W.minus W.clip W.cmp }
{}

/// As many rounds from messages that say the same say the same.
pub fn rounds_are_one<W: Weight>()
    ensures { RoundsAreOne W.none W.plus W.minus W.clip W.cmp }
{}

/// Messages between the neighbours of one instance that are all zero say the same.
pub fn silence_is_one<W: Weight>()
    ensures { SilenceIsOne W.none }
{}

/// From messages that say the same the same is believed. So beliefs after as many rounds from zero are the same, and
/// with them the choice.
pub fn belief_is_one<W: Weight>()
    ensures { BeliefIsOne W.none W.plus }
{}

/// A message from or to a package with one state left, or between packages with nothing forbidden between the states
/// that are left of them, is zero at each state.
pub fn nothing_to_tell_is_zero<W: Weight>()
    ensures { NothingToTellIsZero W.none W.plus W.minus W.clip W.cmp }
{}

/// A choice has one result: one package, and one order of its states.
pub fn choice_is_one<W: Weight>()
    ensures { OneChoice W.cmp W.minus }
{}
