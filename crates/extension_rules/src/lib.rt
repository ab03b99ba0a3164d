//! Extensions of packages (Julia manual, Code Loading): their identifiers, what triggers them, and which are active.
#![tactic(auto)]

mod activity;
mod by_name;
mod identity;
mod trigger_ids;

pub use activity::{ActiveExtension, ActiveList, IdSet, active, id_set, is_active};
pub use by_name::{found_at, is_among};
pub use identity::{extension_id, named_id};
pub use trigger_ids::triggers;
