//! The two files of the active project that a command reads, and where they lie.
#![tactic(auto)]

mod reading;

pub use reading::{HomeFiles, begun_files, home_files, project_files};
