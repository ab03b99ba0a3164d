//! Project files: the project of a table, and the table of a project.
#![tactic(auto)]

mod edits;
mod fault;
mod parts;
mod project;
mod putting;
mod reading;
mod source;
mod spec_text;
mod tables;
mod writes;

pub use fault::ProjectFault;
pub use project::{Project, SourceList, SpecList};
pub use source::Source;
pub use spec_text::SpecText;
