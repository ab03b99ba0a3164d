//! The book of a command: the packages that its demand leads to, with numbers, and what is offered of each by the files.
#![tactic(auto)]

mod gathering;
pub mod laws;
mod mentions;
mod source;

pub use gathering::gather;
pub use offer_catalog::{BookFault, Catalog};
pub use offer_terms::{
    Book, CompatIds, Demand, Fixed, FixedList, Offer, Selection, SpecId, SpecIds, VersionPair,
    VersionPairs, julia_uuid,
};
