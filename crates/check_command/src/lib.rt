//! The command `check`: whether what the manifest says is valid, and what could be raised; or whether the log of a file shows
//! that no selection is feasible.
#![tactic(auto)]

mod check_answer;
mod claim;
mod judging;
mod laws;
mod lines;

pub use check_answer::check;
pub use laws::{certificate_is_refuted, refuted_is_none};
