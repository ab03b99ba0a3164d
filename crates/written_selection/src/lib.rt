//! Writing a selection as a manifest, and reading that manifest: nothing is lost.
#![tactic(auto)]

mod laws;

pub use laws::written_is_selected;
