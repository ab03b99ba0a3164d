//! The search of an instance as a whole: it is pruned, what is left is searched, and the answer is told by the
//! numbers before pruning: a finished solution, or a log.
#![tactic(auto)]

mod answer;
mod finishing;
mod laws;
mod rating;
mod searching;

pub use answer::Answer;
pub use laws::{answer_is_one, empty_refutes, found_is_finished, product_suffices, spent_is_full};
pub use searching::search_instance;
