//! The phases of a command on a project before its packages are chosen, each told by the status with which it is refused.
#![tactic(auto)]

mod booking;
mod developing;
mod editing;
mod opening;
mod refusals;

pub use booking::gather_book;
pub use developing::{Wish, command_of};
pub use editing::edit_project;
pub use opening::{Opened, begin_project, open_project};
