//! The versions that a package's table lists.
ghost use Rattle.std.specs.Prelude.{◌≡◌, ◌∷◌, [], map, Ok, IfOk, IfErr, OnOk, MatchResult, is_some};
ghost use Rattle.std.specs.BTreeMap.{is_at, insert_entry};
ghost use Rattle.std.specs.Map.{lookup};
ghost use Rattle.toml.specs.View.{view, table_view};
ghost use Rattle.jl_versions.specs.Order.{version_cmp};
ghost use Rattle.jl_versions.specs.Meant.{version_meant};
ghost use Rattle.toml_view.specs.Answers.{Refuses, HasPath};
ghost use Rattle.toml_view.specs.Reading.{at, or_version, chained, mapped};
ghost use Rattle.package_tables.specs.Sections as spec;
ghost use Rattle.package_tables.specs.Versions.{fresh, marked_after};

use crate::package_rows::{VersionRow, VersionRows};
use jl_versions::{Version, VersionFault};
use pkg_world::{Listed, TreeId};
use std::alloc::{AllocError, Global};
use std::collections::BTreeMap;
use toml_view::{
    FlagReader, Flaw, Refusal, Stop, Table, TreeReader, Value, need, opt, other_shape, stop_at,
};

/// What a table says of a listed version: its tree, and whether it is yanked.
#[derive(Drop)]
pub(crate) struct Mark {
    tree: TreeId,
    yanked: bool,
}

/// Versions in rising order, each with what is said of it.
type Marks = BTreeMap<Version, Mark>;

/// The versions of a table, in rising order.
pub(crate) fn versions(alloc: Global, table: &Table) -> Result<VersionRows, Stop>
    ensures ok { IfOk result (λ rows. spec.versions_of (table_view table.now) ≡ Ok rows.items) }
    ensures err { IfErr result (λ stop. Refuses stop (spec.versions_of (table_view table.now))) }
    ensures path { IfErr result HasPath }
{
    let marks = all_marks(alloc, table)?;
    Ok(listed(alloc, marks)?)
}

fn all_marks(alloc: Global, table: &Table) -> Result<Marks, Stop>
    ensures ok { IfOk result (λ marks. mapped spec.rising (spec.all_marked [] (table_view table.now)) ≡ Ok (map spec.version_row marks.entries)) }
    ensures err { IfErr result (λ stop. Refuses stop (spec.all_marked [] (table_view table.now))) }
    ensures path { IfErr result HasPath }
{
    let mut marks = BTreeMap::new(alloc);
    'versions: for (key, value) in table.iter() {
        match put_version(alloc, &mut marks, key.as_str(), value) {
            Ok(()) => {}
            Err(stop) => return Err(stop),
        }
    }
    Ok(marks)
}

/// Puts the version of a key; a refusal is as it is seen from the table.
fn put_version(alloc: Global, marks: &mut Marks, key: &str, value: &Value) -> Result<(), Stop>
    ensures put { MatchResult result
        (λ _. mapped (λ p. insert_entry version_cmp marks.old.entries p.0 p.1) (at key.now (marked_after marks.old.entries key.now (view value.now))) ≡ Ok marks.new.entries)
        (λ stop. Refuses stop (at key.now (marked_after marks.old.entries key.now (view value.now)))) }
    ensures path { IfErr result HasPath }
{
    match marked(alloc, marks, key, value) {
        Ok((version, mark)) => Ok(put_mark(marks, version, mark)?),
        Err(stop) => Err(stop_at(alloc, key, stop)),
    }
}

fn put_mark(marks: &mut Marks, version: Version, mark: Mark) -> Result<(), AllocError>
    ensures { OnOk result (marks.new.entries ≡ insert_entry version_cmp marks.old.entries version mark) }
{
    marks.insert(version, mark)?;
    Ok(())
}

fn marked(alloc: Global, marks: &Marks, key: &str, value: &Value) -> Result<(Version, Mark), Stop>
    ensures { spec.Gives result (marked_after marks.now.entries key.now (view value.now)) }
{
    let version = new_version(alloc, marks, key)?;
    let mark = mark_of(alloc, value)?;
    Ok((version, mark))
}

/// The version of a key, which no key before it reads as.
fn new_version(alloc: Global, marks: &Marks, key: &str) -> Result<Version, Stop>
    ensures { spec.Gives result (chained (fresh marks.now.entries) (or_version (version_meant key.now))) }
{
    let version = version_of(alloc, key)?;
    if marks.contains_key(&version) {
        Err(other_shape())
    } else {
        Ok(version)
    }
}

fn version_of(alloc: Global, text: &str) -> Result<Version, Stop>
    ensures { spec.Gives result (or_version (version_meant text.now)) }
{
    match Version::read(alloc, text) {
        Ok(version) => Ok(version),
        Err(VersionFault::BadVersion(place)) => Err(Stop::Refused(Refusal {
            path: None,
            flaw: Flaw::Version(place),
        })),
        Err(VersionFault::Memory) => Err(Stop::Memory),
    }
}

fn mark_of(alloc: Global, value: &Value) -> Result<Mark, Stop>
    ensures { spec.Gives result (spec.mark_of (view value.now)) }
{
    match value.as_table() {
        Some(table) => read_mark(alloc, table),
        None => Err(other_shape()),
    }
}

fn read_mark(alloc: Global, table: &Table) -> Result<Mark, Stop>
    ensures { spec.Gives result (spec.mark_of_members (table_view table.now)) }
{
    let tree = need(alloc, &TreeReader, table, "git-tree-sha1")?;
    let yanked = opt(alloc, &FlagReader, table, "yanked")?;
    Ok(Mark {
        tree,
        yanked: yanked.unwrap_or(false),
    })
}

fn listed(alloc: Global, mut marks: Marks) -> Result<VersionRows, AllocError>
    ensures { IfOk result (λ rows. rows.items ≡ map spec.version_row marks.entries) }
{
    let mut rows = Listed::make(alloc);
    while let Some((version, mark)) = marks.pop_first() {
        let Mark { tree, yanked } = mark;
        rows.push(VersionRow {
            version,
            tree,
            yanked,
        })?;
    }
    Ok(rows)
}
