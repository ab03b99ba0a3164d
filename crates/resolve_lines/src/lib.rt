//! The lines of `resolve`.
#![tactic(auto)]

mod classes;
mod resolved;

pub use classes::class_lines;
pub use resolved::resolved_line;
