//! Places of projects: which file is the active project's, what an element of the load path means, where a project's
//! manifest lies, and what these files say.
#![tactic(auto)]

mod active;
mod element;
mod environment_text;
mod fault;
mod file;
mod folders;
mod manifest_place;
mod there;

pub use active::active_project;
pub use element::{Element, element_of};
pub use fault::EnvFault;
pub use file::{bad_file, manifest_at, project_at};
pub use folders::file_in;
pub use manifest_place::manifest_path;
pub use there::{is_there, path_in};
