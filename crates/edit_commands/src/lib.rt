//! The commands that write: what each ends with.
#![tactic(auto)]

mod answering;
mod edit_command;
mod laws;
mod options;
mod order;
mod telling;

pub use edit_command::write_project;
pub use laws::{ample_budget_suffices, ending_is_best, logs_are_printable, none_is_none};
pub use order::Order;
