//! Registries: where they lie, which packages they list, and what the files of a package say of its versions.
#![tactic(auto)]

mod depots;
mod fault;
mod file;
mod found;
mod package_file;
mod package_list;
mod reading;
mod registry;
pub mod registry_laws;
mod section_files;
mod version_file;

pub use depots::registries;
pub use fault::RegFault;
pub use found::Registries;
pub use package_list::{Package, PackageList, Registry};
pub use package_tables::{
    CompatList, Entry, IdEntries, IdEntry, PackageRows, RangeEntries, RangeEntry, Row, VersionRow,
    VersionRows, expand,
};
pub use reading::rows;
