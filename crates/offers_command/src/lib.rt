//! The command `offers`: what registries offer of the packages of a name.
#![tactic(auto)]

mod offer_lines;
mod offers_answer;

pub use offers_answer::offers;
