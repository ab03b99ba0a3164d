//! What is offered of a package: by registries, of each version that they list what it needs, what it allows and where it
//! comes from; by a fixed package or a standard library its one version.
#![tactic(auto)]

mod given_offers;
mod laws;
mod offer_parts;
mod offers;
mod tree_extensions;

pub use given_offers::{fixed_offer, library_offer};
pub use laws::offers_rise;
pub use offers::registry_offers;
pub use tree_extensions::TreeExtensions;
