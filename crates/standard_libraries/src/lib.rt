//! The standard libraries: what the project files in the folder of the standard libraries say.
#![tactic(auto)]

mod children;
pub mod laws;
mod library;
mod library_folder;

pub use library::Library;
pub use library_folder::{Libraries, libraries_in};
