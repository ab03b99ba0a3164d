//! The tables of a made world's files.
ghost use Rattle.std.specs.Prelude.{◌≡◌, ◌*◌, ◌<◌, ◌≤◌, map, length, IfOk, OnOk};
ghost use Rattle.std.specs.List.{range_with_len};
ghost use Rattle.toml.specs.Data.{string, table as as_data};
ghost use Rattle.toml.specs.View.{view, table_view};
ghost use Rattle.world_maker.specs.Texts as text;
ghost use Rattle.world_maker.specs.Tables as spec;

use crate::ranges::Span;
use crate::texts::{name_text, range_text, tree_text, uuid_text, version_text};
use std::alloc::{AllocError, Global};
use toml_view::{Table, Value};

/// Puts the value at the key.
fn put(alloc: Global, table: &mut Table, key: &str, value: Value) -> Result<(), AllocError>
    ensures { OnOk result (table_view table.new ≡ spec.put key.now (view value) (table_view table.old)) }
{
    let key = String::from_str(alloc, key)?;
    drop(table.insert(key, value)?);
    Ok(())
}

/// Puts the text at the key.
fn put_text(alloc: Global, table: &mut Table, key: &str, text: &str) -> Result<(), AllocError>
    ensures { OnOk result (table_view table.new ≡ spec.put key.now (string text.now) (table_view table.old)) }
{
    let value = Value::string(alloc, text)?;
    put(alloc, table, key, value)
}

/// Puts the table at the key.
fn put_table(alloc: Global, table: &mut Table, key: &str, inner: Table) -> Result<(), AllocError>
    ensures { OnOk result (table_view table.new ≡ spec.put key.now (as_data (table_view inner)) (table_view table.old)) }
{
    put(alloc, table, key, Value::Table(inner))
}

/// Puts a package's identifier at its name.
fn put_id(alloc: Global, table: &mut Table, package: u64) -> Result<(), AllocError>
    ensures { OnOk result (table_view table.new ≡ spec.put (text.name «package») (string (text.uuid «package»)) (table_view table.old)) }
{
    let name = name_text(alloc, package)?;
    let uuid = uuid_text(alloc, package)?;
    put_text(alloc, table, name.as_str(), uuid.as_str())
}

/// What a package is.
pub(crate) fn package_table(alloc: Global, package: u64) -> Result<Table, AllocError>
    ensures { IfOk result (λ table. table_view table ≡ spec.package_members «package») }
{
    let mut table = Table::new(alloc);
    put_text(
        alloc,
        &mut table,
        "name",
        name_text(alloc, package)?.as_str(),
    )?;
    put_text(
        alloc,
        &mut table,
        "uuid",
        uuid_text(alloc, package)?.as_str(),
    )?;
    Ok(table)
}

/// So many versions of a package.
pub(crate) fn versions_table(
    alloc: Global,
    versions: u64,
    package: u64,
) -> Result<Table, AllocError>
    ensures { IfOk result (λ table. table_view table ≡ spec.versions_members versions «package») }
{
    let mut table = Table::new(alloc);
    'versions: for minor in 0..versions {
        put_version(alloc, &mut table, package, minor)?;
    }
    Ok(table)
}

/// Puts a version with its tree.
fn put_version(alloc: Global, table: &mut Table, package: u64, minor: u64) -> Result<(), AllocError>
    ensures { OnOk result (table_view table.new ≡ spec.put (spec.version_pair «package» minor).0 (spec.version_pair «package» minor).1 (table_view table.old)) }
{
    let mut inner = Table::new(alloc);
    let tree = tree_text(alloc, package, minor)?;
    put_text(alloc, &mut inner, "git-tree-sha1", tree.as_str())?;
    let version = version_text(alloc, minor)?;
    put_table(alloc, table, version.as_str(), inner)
}

/// A package's dependencies.
pub(crate) fn deps_table(alloc: Global, needs: &[u64]) -> Result<Table, AllocError>
    ensures { IfOk result (λ table. table_view table ≡ spec.deps_members needs.now) }
{
    let section = id_table(alloc, needs)?;
    let mut table = Table::new(alloc);
    put_table(alloc, &mut table, "1", section)?;
    Ok(table)
}

/// The identifiers of packages, at their names.
fn id_table(alloc: Global, packages: &[u64]) -> Result<Table, AllocError>
    ensures { IfOk result (λ table. table_view table ≡ spec.members_of (map spec.id_pair packages.now)) }
{
    let mut table = Table::new(alloc);
    'packages: for package in packages {
        put_id(alloc, &mut table, *package)?;
    }
    Ok(table)
}

/// The ranges of so many versions of a package.
pub(crate) fn compat_table(
    alloc: Global,
    versions: u64,
    needs: &[u64],
    spans: &[Span],
) -> Result<Table, AllocError>
    requires versions { versions ≤ 8 }
    requires ranges { length spans.now ≡ 8 * length needs.now }
    ensures { IfOk result (λ table. table_view table ≡ spec.compat_members versions needs.now spans.now) }
{
    let mut table = Table::new(alloc);
    'versions: for minor in 0..versions {
        put_section(alloc, &mut table, needs, spans, minor)?;
    }
    Ok(table)
}

/// Puts the ranges of a version.
fn put_section(
    alloc: Global,
    table: &mut Table,
    needs: &[u64],
    spans: &[Span],
    minor: u64,
) -> Result<(), AllocError>
    requires ranges { length spans.now ≡ 8 * length needs.now }
    requires minor { minor < 8 }
    ensures { OnOk result (table_view table.new ≡ spec.put (spec.section_pair needs.now spans.now minor).0 (spec.section_pair needs.now spans.now minor).1 (table_view table.old)) }
{
    let inner = section_table(alloc, needs, spans, minor)?;
    let version = version_text(alloc, minor)?;
    put_table(alloc, table, version.as_str(), inner)
}

/// The ranges of a version.
fn section_table(
    alloc: Global,
    needs: &[u64],
    spans: &[Span],
    minor: u64,
) -> Result<Table, AllocError>
    requires ranges { length spans.now ≡ 8 * length needs.now }
    requires minor { minor < 8 }
    ensures { IfOk result (λ table. table_view table ≡ spec.members_of (map (spec.compat_pair needs.now spans.now minor) (range_with_len 0 (length needs.now)))) }
{
    let mut table = Table::new(alloc);
    'places: for place in 0..needs.len() {
        let span = spans[8 * place + minor as usize];
        put_range(alloc, &mut table, needs[place], span)?;
    }
    Ok(table)
}

/// Puts a range at a package's name.
fn put_range(alloc: Global, table: &mut Table, package: u64, span: Span) -> Result<(), AllocError>
    ensures { OnOk result (table_view table.new ≡ spec.put (text.name «package») (string (text.range_text span)) (table_view table.old)) }
{
    let name = name_text(alloc, package)?;
    let range = range_text(alloc, span)?;
    put_text(alloc, table, name.as_str(), range.as_str())
}

/// The registry of so many packages.
pub(crate) fn registry_table(alloc: Global, count: u64) -> Result<Table, AllocError>
    ensures { IfOk result (λ table. table_view table ≡ spec.registry_members count) }
{
    let listing = listing_table(alloc, count)?;
    let mut table = Table::new(alloc);
    put_text(alloc, &mut table, "name", "Made")?;
    put_table(alloc, &mut table, "packages", listing)?;
    put_text(
        alloc,
        &mut table,
        "uuid",
        "00000000-0000-4000-9000-000000000999",
    )?;
    Ok(table)
}

/// Where each of so many packages stands.
fn listing_table(alloc: Global, count: u64) -> Result<Table, AllocError>
    ensures { IfOk result (λ table. table_view table ≡ spec.members_of (map spec.listing_pair (range_with_len 0 count))) }
{
    let mut table = Table::new(alloc);
    'packages: for package in 0..count {
        put_listing(alloc, &mut table, package)?;
    }
    Ok(table)
}

/// Puts where a package stands at its identifier.
fn put_listing(alloc: Global, table: &mut Table, package: u64) -> Result<(), AllocError>
    ensures { OnOk result (table_view table.new ≡ spec.put (spec.listing_pair «package»).0 (spec.listing_pair «package»).1 (table_view table.old)) }
{
    let name = name_text(alloc, package)?;
    let mut inner = Table::new(alloc);
    put_text(alloc, &mut inner, "name", name.as_str())?;
    put_text(alloc, &mut inner, "path", name.as_str())?;
    let uuid = uuid_text(alloc, package)?;
    put_table(alloc, table, uuid.as_str(), inner)
}

/// The project that depends on so many first packages.
#[tactic(auto, unfolding(crate::specs::Tables::project_members))]
pub(crate) fn project_table(alloc: Global, roots: u64) -> Result<Table, AllocError>
    ensures { IfOk result (λ table. table_view table ≡ spec.project_members roots) }
{
    let deps = root_table(alloc, roots)?;
    let mut table = Table::new(alloc);
    put_table(alloc, &mut table, "deps", deps)?;
    Ok(table)
}

/// The identifiers of so many first packages, at their names.
fn root_table(alloc: Global, roots: u64) -> Result<Table, AllocError>
    ensures { IfOk result (λ table. table_view table ≡ spec.members_of (map spec.id_pair (range_with_len 0 roots))) }
{
    let mut table = Table::new(alloc);
    'packages: for package in 0..roots {
        put_id(alloc, &mut table, package)?;
    }
    Ok(table)
}
