//! The catalog: what the files of a command offer besides the tables of registered packages, and what its manifest selects.
#![tactic(auto)]

mod catalog;
mod fault;
mod fixed_list;
pub mod laws;
mod loading;
mod manifest_selection;
mod name_ids;
mod trees;

pub use catalog::Catalog;
pub use fault::BookFault;
