//! How a command ends: the line that it prints and the files that it replaces, or its status, the code that the program
//! exits with, and the line that tells a refusal.
#![tactic(auto)]

mod cause_line;
mod ending;
mod status;
mod verdict_line;

pub use cause_line::plain_uuid;
pub use ending::{Ending, Write, Writes};
pub use status::{Difference, Ended, Status, Told, status_line, uuid_text};
