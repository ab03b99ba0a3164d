//! The law, a call that does nothing and says it.
ghost use Rattle.alike_refutations.specs.Alike.{RefutedAlike};

/// A log that refutes an instance refutes each one that is like it.
pub fn refuted_alike()
    ensures { RefutedAlike }
{}
