//! Whether the log of a file shows that no selection is feasible, by a book and a demand; and the limits before that.
#![tactic(auto)]

mod limits;
mod verdict;

pub use limits::{limit_status, within_limits};
pub use verdict::log_verdict;
