//! Whether a selection meets a demand over what a book offers, and which package of it can be raised alone.
#![tactic(auto)]

mod breaches;
mod checking;
mod laws;
mod needing;
mod opening;
mod raising;
mod ranking;
mod scratch;
mod selected;
mod verdict;

pub use checking::check;
pub use laws::{one_raise, one_verdict, raise_has_place, valid_breaks_none};
pub use raising::raisable;
pub use scratch::Scratch;
pub use verdict::Verdict;
