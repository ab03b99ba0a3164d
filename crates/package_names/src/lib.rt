//! Which package a name means: one that is to be added to a project, or one that a manifest has.
#![tactic(auto)]

mod added;
mod fault;
mod named;
mod stanza_ids;
mod stanza_place;
mod taken;

pub use added::added_uuid;
pub use fault::{NameFault, StanzaFault};
pub use named::value_named;
pub use stanza_place::stanza_named;
pub use taken::taken_by;
