//! Replacing the files that a command ends with, and what that leaves.
#![tactic(auto)]

mod laws;
mod replacing;

pub use laws::others_stay;
pub use replacing::replace_all;
