//! Environments: what a project's files, and those of a package folder, make of names.
#![tactic(auto)]

mod candidate;
mod context;
mod entry;
mod environment;
mod escaping;
mod folder_env;
mod id;
mod library;
mod parts;
mod spot;
mod uses;

pub use context::extension_of;
pub use environment::ProjectEnv;
pub use folder_env::FolderEnv;
pub use id::{Context, DepAnswer, Id};
pub use library::Library;
pub use project_places::{
    Element, EnvFault, active_project, element_of, manifest_at, manifest_path, project_at,
};
