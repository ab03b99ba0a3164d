//! Laws of verdicts and of raising, each a call that does nothing and says the law.
ghost use Rattle.selection_check.specs.Laws.{ValidBreaksNone, OneVerdict, RaiseHasPlace, OneRaise};

/// A selection is valid exactly where it breaks no clause.
pub fn valid_breaks_none()
    ensures { ValidBreaksNone }
{}

/// A selection has one verdict.
pub fn one_verdict()
    ensures { OneVerdict }
{}

/// What can be raised alone is a package of the book, and one of its offers.
pub fn raise_has_place()
    ensures { RaiseHasPlace }
{}

/// One package can be raised first, and to one offer first.
pub fn one_raise()
    ensures { OneRaise }
{}
