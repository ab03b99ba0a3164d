//! The manifest that is written of a selection: for each selected package what the manifest says of it.
#![tactic(auto)]

mod laws;
mod manifest;
mod order;
mod stanza;
mod text;

pub use laws::{selection_is_said, stanzas_rise, stanzas_say_offers};
pub use manifest::{FoundExtensions, written};
pub use order::{InOrder, in_order};
pub use stanza::offer_of;
pub use text::manifest_text;
