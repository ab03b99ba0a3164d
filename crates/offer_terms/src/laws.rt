//! Laws of selections, each a call that does nothing and says the law.
ghost use Rattle.offer_terms.specs.Laws.{SameOffers, SameOffersValid, SameOffersRaise, CutStaysFeasible};

/// The offers of selected packages alone decide whether a selection is feasible.
pub fn same_offers_feasible()
    ensures { SameOffers }
{}

/// They alone decide whether it is valid.
pub fn same_offers_valid()
    ensures { SameOffersValid }
{}

/// They alone decide which package can be raised, and to what.
pub fn same_offers_raisable()
    ensures { SameOffersRaise }
{}

/// A feasible selection, cut to packages that have the roots and all that their offers depend on, stays feasible.
pub fn cut_stays_feasible()
    ensures { CutStaysFeasible }
{}
