//! Imports: the stack of environments that a load path gives, and what a name means from a context.
#![tactic(auto)]

mod answer;
mod importing;
mod load_path;
mod loaded;
mod names;
mod stack;

pub use answer::ImportAnswer;
pub use importing::import;
pub use names::names_of;
pub use stack::Stack;
