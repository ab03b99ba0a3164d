//! What the tables of a package in a registry say: its versions, the entries of its sections, and the row of a version.
#![tactic(auto)]

mod clash;
mod entries;
mod expanding;
mod groups;
mod kept_ranges;
pub mod laws;
mod name_ref;
mod own_table;
mod package_rows;
mod section_value;
mod tables;
mod versions;

pub use expanding::{CompatList, Row, expand};
pub use own_table::check_package;
pub use package_rows::{
    Entry, IdEntries, IdEntry, PackageRows, RangeEntries, RangeEntry, VersionRow, VersionRows,
};
pub use tables::{id_entries, range_entries, version_rows};
