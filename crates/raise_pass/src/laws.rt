//! Laws of finishing, each a call that does nothing and says the law.
ghost use Rattle.raise_pass.specs.Laws.{OneFinish, FinishKeepsSolution};

/// Finishing has one result.
pub fn one_finish()
    ensures { OneFinish }
{}

/// A finished solution is a solution.
pub fn finish_keeps_solution()
    ensures { FinishKeepsSolution }
{}
