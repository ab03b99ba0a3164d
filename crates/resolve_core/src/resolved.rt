//! What a demand is resolved to.
use offer_terms::Selection;

/// A selection that meets the demand, in which each package is needed and none can be raised alone.
#[derive(Drop)]
pub struct Resolved {
    pub selection: Selection,
    /// How many nodes the search has before it.
    pub nodes: u32,
}
