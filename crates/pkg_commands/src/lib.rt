//! What the commands on a project ask for: the project after the command's edit, and the demand on a selection.
#![tactic(auto)]

mod changed;
mod changing;
mod command;
mod demand;
mod edited;
mod editing;
mod fault;
mod fetching;

pub use command::{Command, WordList};
pub use edited::Edited;
pub use editing::apply;
pub use fault::EditFault;
