//! A refutation log: a tree of choices, listed in pre-order, that shows that an instance has no solution.
#![tactic(auto)]

mod board;
mod check;
mod laws;
mod moves;
mod node;
mod scratch;
mod writing;

pub use check::refutes;
pub use laws::{refutation_is_sound, renumbered_refutes};
pub use node::{Log, Node, NodeKind};
pub use scratch::RefuteScratch;
pub use writing::renumber;
