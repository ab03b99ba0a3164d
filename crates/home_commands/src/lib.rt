//! The commands `status` and `verify`, which answer from the two files of the active project.
#![tactic(auto)]

mod extension_lines;
mod home;
mod stanza_line;
mod stanza_places;
mod status_answer;
mod verify_answer;

pub use status_answer::status_lines;
pub use verify_answer::verify;
