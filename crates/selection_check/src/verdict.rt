//! Verdicts on selections.
use uuid::Uuid;

/// Whether a selection is valid, or the first clause that it breaks, in the order in which they stand here. Where it breaks
/// a clause at several packages, the first is named: packages go by their numbers, then come identifiers that the book
/// doesn't hold.
#[derive(Clone, Copy, Debug, PartialEq, Eq)]
pub enum Verdict {
    /// The selection is valid: it meets the demand, and each package of it is needed.
    Good,
    /// That root isn't selected.
    MissingRoot(Uuid),
    /// That package isn't offered at its selected version.
    NoOffer(Uuid),
    /// The selected offer of the first package depends on the second, which isn't selected.
    MissingDep(Uuid, Uuid),
    /// The compat of the first package, or of the project where there is none, doesn't allow the selected version of the
    /// second, or Julia's version, where that is Julia's identifier.
    Outside(Option<Uuid>, Uuid),
    /// That package is pinned or held at another version.
    PinBroken(Uuid),
    /// Roots and dependencies don't lead to that package.
    Unneeded(Uuid),
}
