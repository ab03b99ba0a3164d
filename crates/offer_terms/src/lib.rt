//! What the resolver chooses among and what is asked of it: offers, demands, selections and books. No files are read here.
#![tactic(auto)]

mod book;
mod by_id;
mod demand;
mod fixed;
mod julia;
mod laws;
mod offer;
mod selection;

pub use book::Book;
pub use demand::{Demand, SpecId, SpecIds, VersionPair, VersionPairs};
pub use fixed::{Fixed, FixedList};
pub use julia::julia_uuid;
pub use laws::{cut_stays_feasible, same_offers_feasible, same_offers_raisable, same_offers_valid};
pub use offer::{CompatIds, Offer};
pub use selection::Selection;
