//! The tables of a package in a registry: its versions, and the entries of its sections.
use compat_spec::{Range, RangeSet};
use jl_versions::Version;
use pkg_world::{Listed, Name, TreeId};
use uuid::Uuid;

/// A listed version: its tree, and whether it is yanked.
#[derive(Drop)]
pub struct VersionRow {
    pub version: Version,
    pub tree: TreeId,
    pub yanked: bool,
}

/// What a section of a table gives a name: it counts for the versions that the section's range holds.
#[derive(Drop)]
pub struct Entry<T> {
    pub section: Range,
    pub name: Name,
    pub value: T,
}

/// A dependency's name and identifier.
pub type IdEntry = Entry<Uuid>;

/// A name and the ranges that are allowed of it.
pub type RangeEntry = Entry<RangeSet>;

/// Versions in rising order.
pub type VersionRows = Listed<VersionRow>;

/// Dependencies, as they stand in the sections of a table.
pub type IdEntries = Listed<IdEntry>;

/// Compat entries, as they stand in the sections of a table.
pub type RangeEntries = Listed<RangeEntry>;

/// The tables of a package in one registry: its versions in rising order, and the entries of its sections, by the bytes
/// of the headings and then of the names.
#[derive(Drop)]
pub struct PackageRows {
    pub name: Name,
    pub uuid: Uuid,
    pub versions: VersionRows,
    pub deps: IdEntries,
    pub compat: RangeEntries,
    pub weakdeps: IdEntries,
    pub weakcompat: RangeEntries,
}
