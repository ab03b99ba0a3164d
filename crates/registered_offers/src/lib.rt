//! What registries list of a package: its tables in the registries that list it, and the versions of these in one order.
#![tactic(auto)]

pub mod laws;
mod listed_versions;
mod loaded_registry;
mod package_table;

pub use listed_versions::{ListedVersion, ListedVersions, VersionRef, merged};
pub use loaded_registry::{LoadedRegistry, registries_in};
pub use package_table::{PackageTables, tables_in};
