//! The tables of a package: its versions, and the entries of its sections unless two of these clash.
ghost use Rattle.std.specs.Prelude.{◌≡◌, Ok, MatchResult};
ghost use Rattle.toml.specs.View.{table_view};
ghost use Rattle.toml_view.specs.Causes.{Halts};
ghost use Rattle.package_tables.specs.Tables as spec;

use crate::clash::clash_in;
use crate::entries::{RangesReader, sections, with_sets};
use crate::package_rows::{Entry, IdEntries, RangeEntries, VersionRow, VersionRows};
use crate::section_value::SectionValue;
use crate::versions::versions;
use pkg_world::Listed;
use std::alloc::Global;
use toml_view::{Halt, Reader, Table, UuidReader, halted};

/// The versions of the table of a Versions.toml, in rising order (Pkg, registries).
///
/// Errors: Refused, exactly where the table is refused, with the first refusal in key order: BadVersion of a key that is no
/// version, BadShape of the second key that reads as one version, and BadShape where a version has no tree or its `yanked`
/// is neither true nor false; want of memory.
pub fn version_rows(alloc: Global, table: &Table) -> Result<VersionRows, Halt>
    ensures { spec.GivesList (spec.version_rows (table_view table.now)) result }
{
    match versions(alloc, table) {
        Ok(rows) => Ok(rows),
        Err(stop) => Err(halted(stop)),
    }
}

/// The entries of the table of a Deps.toml or WeakDeps.toml, by the bytes of the headings and then of the names (Pkg,
/// registries).
///
/// Errors: Refused, exactly where the table is refused, with the first refusal in key order: BadSpec of a heading that is no
/// range, and BadShape of a value that is no identifier; then as Clash, where two sections that hold a listed version give
/// one name different values (an own rule), of the first listed version that has such a name and there of the least one;
/// want of memory.
pub fn id_entries(alloc: Global, versions: &[VersionRow], table: &Table) -> Result<IdEntries, Halt>
    ensures { spec.GivesList (spec.id_entries versions.now (table_view table.now)) result }
{
    match entries_of(alloc, &UuidReader, versions, table) {
        Ok(entries) => Ok(Listed::of_vec(entries)),
        Err(halt) => Err(halt),
    }
}

/// The entries of the table of a Compat.toml or WeakCompat.toml, by the bytes of the headings and then of the names (Pkg,
/// registries).
///
/// Errors: as for `id_entries`, where a value is a range or a list of ranges: BadShape where it has another kind, and BadSpec
/// where a text in it is no range.
pub fn range_entries(
    alloc: Global,
    versions: &[VersionRow],
    table: &Table,
) -> Result<RangeEntries, Halt>
    ensures { spec.GivesRanges (spec.range_entries versions.now (table_view table.now)) result }
{
    match entries_of(alloc, &RangesReader, versions, table) {
        Ok(entries) => Ok(with_sets(alloc, entries)?),
        Err(halt) => Err(halt),
    }
}

fn entries_of<T: SectionValue, R: Reader<Out = T>>(
    alloc: Global,
    reader: &R,
    versions: &[VersionRow],
    table: &Table,
) -> Result<Vec<Entry<T>>, Halt>
    ensures { MatchResult result
        (λ entries. spec.entries_of (R.gives reader.now) (spec.clash_of T.text T.same versions.now) (table_view table.now) ≡ Ok entries.items)
        (Halts (spec.entries_of (R.gives reader.now) (spec.clash_of T.text T.same versions.now) (table_view table.now))) }
{
    match sections(alloc, reader, table) {
        Ok(entries) => unless_clash(alloc, versions, entries),
        Err(stop) => Err(halted(stop)),
    }
}

fn unless_clash<T: SectionValue>(
    alloc: Global,
    versions: &[VersionRow],
    entries: Vec<Entry<T>>,
) -> Result<Vec<Entry<T>>, Halt>
    ensures { MatchResult result
        (λ kept. spec.unless_clash (spec.clash_of T.text T.same versions.now entries.items) entries.items ≡ Ok kept.items)
        (Halts (spec.unless_clash (spec.clash_of T.text T.same versions.now entries.items) entries.items)) }
{
    match clash_in(alloc, versions, entries.as_slice()) {
        Ok(None) => Ok(entries),
        Ok(Some(cause)) => Err(Halt::Refused(cause)),
        Err(_) => Err(Halt::Memory),
    }
}
