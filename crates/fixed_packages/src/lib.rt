//! Fixed packages: those whose one version a folder or a repository gives, by a project and its manifest.
#![tactic(auto)]

mod basis;
mod candidate;
mod fault;
mod fixed;
mod given;
pub mod laws;
mod name_key;
mod named_ids;
mod order;
mod reading;

pub use fault::as_registry_fault;
pub use fixed::{FixedPackages, fixed_in};
pub use given::{Given, GivenParts};
