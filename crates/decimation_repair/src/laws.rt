//! Laws of the walk, each a call that does nothing and says the law.
ghost use Rattle.decimation_repair.specs.Bound.{WalkStaysWithin};
ghost use Rattle.decimation_repair.specs.Laws.{WalkIsOne, ChoiceIsLawful, FoundIsSolution, EndRefutes, EndLeavesNone};

/// An instance has one walk: one solution or none, and one list of nodes.
pub fn walk_is_one()
    ensures { WalkIsOne }
{}

/// The choice names a package that is undecided, and each of its closed states once.
pub fn choice_is_lawful()
    ensures { ChoiceIsLawful }
{}

/// What the walk finds is a solution.
pub fn found_is_solution()
    ensures { FoundIsSolution }
{}

/// The nodes of a walk that ends without a solution refute the instance, of which nothing is pruned again.
pub fn end_refutes()
    ensures { EndRefutes }
{}

/// Where the walk ends without a solution, there is none.
pub fn end_leaves_none()
    ensures { EndLeavesNone }
{}

/// A walk has no more nodes than the product over packages of one more than their states. So a budget that is as great is
/// never spent.
pub fn walk_stays_within()
    ensures { WalkStaysWithin }
{}
