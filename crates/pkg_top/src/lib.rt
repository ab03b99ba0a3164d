//! The top call: what a command of jlpkg answers and which files it replaces, from its words, its place and the files.
#![tactic(auto)]

mod early;
mod place;
mod telling;
mod top;
mod which;
mod writing;

pub use command_answers::{Difference, Ended, Status, Told};
pub use file_replacing::others_stay;
pub use place::{PlaceFault, place_from};
pub use top::run;
