//! The versions that registries list of a package, in rising order.
ghost use Rattle.std.specs.Prelude.{◌≡◌, IfOk, OnOk};
ghost use Rattle.registered_offers.specs.Merged as spec;

use crate::package_table::PackageTables;
use jl_versions::Version;
use registry_tables::VersionRow;
use std::alloc::{AllocError, Global};
use std::cmp::Ordering;
use std::collections::BTreeMap;
use std::marker::Model;

/// A version that a registry lists, and that registry's tables.
#[derive(Drop)]
pub struct ListedVersion<'a> {
    row: &'a VersionRow,
    tables: &'a PackageTables,
}

impl<'a> Model for ListedVersion<'a> {
    ghost use Rattle.registered_offers.specs.Merged as spec;

    ghost Value = { spec.ListedVersion };

    ghost view = { λ listed. (listed.row.now, listed.tables.now) };
}

impl<'a> ListedVersion<'a> {
    /// What the registry says of the version itself.
    pub fn row(&self) -> &VersionRow
        ensures { result.now ≡ self.now.0 }
    {
        self.row
    }

    /// The registry's tables of the package.
    pub fn tables(&self) -> &PackageTables
        ensures { result.now ≡ self.now.1 }
    {
        self.tables
    }
}

/// A version that is lent as a key, by the order of versions.
#[derive(Drop)]
pub struct VersionRef<'a> {
    version: &'a Version,
}

impl<'a> Model for VersionRef<'a> {
    ghost use Rattle.jl_versions.specs.declared.version.Version.{Version};

    ghost Value = { Version };

    ghost view = { λ key. key.version.now };
}

/// Versions in rising order, each with its row and the tables that it stands in.
pub type ListedVersions<'a> = BTreeMap<VersionRef<'a>, ListedVersion<'a>>;

/// The versions of all registries' tables, in rising order; of a version that several registries list the first one's row
/// counts (Pkg, registries). The one error is want of memory.
pub fn merged<'a>(
    alloc: Global,
    tables: &'a [PackageTables],
) -> Result<ListedVersions<'a>, AllocError>
    ensures { IfOk result (λ versions. versions.entries ≡ spec.merged tables.now) }
{
    let mut versions = BTreeMap::new(alloc);
    for table in tables {
        put_versions(&mut versions, table)?;
    }
    Ok(versions)
}

fn put_versions<'a>(
    versions: &mut ListedVersions<'a>,
    tables: &'a PackageTables,
) -> Result<(), AllocError>
    ensures { OnOk result (versions.new.entries ≡ spec.put_versions versions.old.entries tables.now) }
{
    let rows = tables.versions();
    for row in rows {
        put_version(versions, row, tables)?;
    }
    Ok(())
}

/// Puts a version to the others, unless it is there.
fn put_version<'a>(
    versions: &mut ListedVersions<'a>,
    row: &'a VersionRow,
    tables: &'a PackageTables,
) -> Result<(), AllocError>
    ensures { OnOk result (versions.new.entries ≡ spec.put_version versions.old.entries (spec.listed_version tables.now row.now)) }
{
    let key = VersionRef {
        version: &row.version,
    };
    if versions.contains_key(&key) {
        return Ok(());
    }
    versions.insert(key, ListedVersion { row, tables })?;
    Ok(())
}

impl<'a> Ord for VersionRef<'a> {
    ghost use Rattle.std.specs.Prelude.{refl};
    ghost use Rattle.jl_versions.specs.Order.{version_cmp};
    ghost use Rattle.jl_versions.specs.OrderLaws.{version_total};

    ghost cmp = { version_cmp };

    ghost total = { version_total };

    ghost matches_partial_cmp = { λ _ _. refl };

    ghost matches_eq = { λ _ _. refl };

    fn cmp(&self, other: &Self) -> Ordering {
        self.version.cmp(other.version)
    }
}

impl<'a> PartialOrd for VersionRef<'a> {
    ghost use Rattle.std.specs.Ordering.{as_partial_cmp};
    ghost use Rattle.std.specs.Cmp.{partial_order_from_total};
    ghost use Rattle.jl_versions.specs.Order.{version_cmp};
    ghost use Rattle.jl_versions.specs.OrderLaws.{version_total};

    ghost partial_cmp = { as_partial_cmp version_cmp };

    ghost laws = { partial_order_from_total version_total };

    fn partial_cmp(&self, other: &Self) -> Option<Ordering> {
        Some(self.cmp(other))
    }
}

impl<'a> PartialEq for VersionRef<'a> {
    ghost use Rattle.std.specs.Ordering.{eq_by_cmp};
    ghost use Rattle.std.specs.Cmp.{partial_equiv_from_equiv, eq_by_cmp_equiv};
    ghost use Rattle.jl_versions.specs.Order.{version_cmp};
    ghost use Rattle.jl_versions.specs.OrderLaws.{version_total};

    ghost eq = { eq_by_cmp version_cmp };

    ghost laws = { partial_equiv_from_equiv (eq_by_cmp_equiv version_total) };

    fn eq(&self, other: &Self) -> bool {
        self.cmp(other).is_eq()
    }
}

impl<'a> Eq for VersionRef<'a> {
    ghost use Rattle.std.specs.Cmp.{eq_by_cmp_equiv};
    ghost use Rattle.jl_versions.specs.OrderLaws.{version_total};

    ghost laws = { eq_by_cmp_equiv version_total };
}
