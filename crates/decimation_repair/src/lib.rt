//! The search: a complete walk over the choices of an instance, whose log is a certificate.
#![tactic(auto)]

mod advice;
mod deciding;
mod heard;
mod laws;
mod lists;
mod orders;
mod path;
mod search;
mod walker;

pub use laws::{
    choice_is_lawful, end_leaves_none, end_refutes, found_is_solution, walk_is_one,
    walk_stays_within,
};
pub use search::{Outcome, Search};
