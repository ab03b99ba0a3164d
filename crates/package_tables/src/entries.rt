//! The sections of a table: what each gives the names, under a range.
ghost use Rattle.std.specs.Prelude.{◌≡◌, ◌∷◌, ◌++◌, [], map, Ok, IfOk, IfErr, OnOk, MatchResult};
ghost use Rattle.toml.specs.View.{view, table_view};
ghost use Rattle.toml_view.specs.Answers.{Refuses, HasPath};
ghost use Rattle.toml_view.specs.Reading.{at, each, mapped, table_of};
ghost use Rattle.package_tables.specs.Sections as spec;

use crate::kept_ranges::KeptRanges;
use crate::package_rows::{Entry, RangeEntries};
use compat_spec::{Range, SpecFault};
use pkg_world::{Listed, Name, Text};
use std::alloc::{AllocError, Global};
use toml_view::{
    Flaw, Reader, Refusal, Stop, Table, TextsReader, Value, other_shape, read_at, stop_at,
};

/// Reads the ranges of a compat entry: a text alone or a list of texts, each a range. The refusal of a text that is none
/// has its first bad place.
#[derive(Clone, Copy, Debug, Drop)]
pub(crate) struct RangesReader;

impl Reader for RangesReader {
    type Out = KeptRanges;

    ghost gives = { λ _ value. spec.ranges_of value };

    fn read(&self, alloc: Global, value: &Value) -> Result<KeptRanges, Stop> {
        match TextsReader.read(alloc, value) {
            Ok(texts) => ranges_at(alloc, texts.items()),
            Err(stop) => Err(stop),
        }
    }
}

fn ranges_at(alloc: Global, texts: &[Text]) -> Result<KeptRanges, Stop>
    ensures { spec.Gives result (spec.ranges_at texts.now) }
{
    let mut ranges = KeptRanges::make(alloc);
    for text in texts {
        ranges.push(range_at(alloc, text.as_str())?)?;
    }
    Ok(ranges)
}

/// The range that a text is.
fn range_at(alloc: Global, text: &str) -> Result<Range, Stop>
    ensures { spec.Gives result (spec.range_at text.now) }
{
    match Range::read(alloc, text) {
        Ok(range) => Ok(range),
        Err(SpecFault::BadSpec(place)) => Err(Stop::Refused(Refusal {
            path: None,
            flaw: Flaw::Spec(place),
        })),
        Err(SpecFault::Memory) => Err(Stop::Memory),
    }
}

/// The entries of a table's sections, in the order of the headings' bytes.
pub(crate) fn sections<R: Reader>(
    alloc: Global,
    reader: &R,
    table: &Table,
) -> Result<Vec<Entry<R::Out>>, Stop>
    ensures ok { IfOk result (λ entries. spec.sections_of (R.gives reader.now) (table_view table.now) ≡ Ok entries.items) }
    ensures err { IfErr result (λ stop. Refuses stop (spec.sections_of (R.gives reader.now) (table_view table.now))) }
    ensures path { IfErr result HasPath }
{
    let mut entries = Vec::new(alloc);
    'sections: for (heading, value) in table.iter() {
        push_section(alloc, reader, &mut entries, heading.as_str(), value)?;
    }
    Ok(entries)
}

/// Appends the entries of a section; a refusal is as it is seen from the table.
fn push_section<R: Reader>(
    alloc: Global,
    reader: &R,
    entries: &mut Vec<Entry<R::Out>>,
    heading: &str,
    value: &Value,
) -> Result<(), Stop>
    ensures pushed { spec.Pushes entries.old.items entries.new.items (at heading.now (spec.section_of (R.gives reader.now) heading.now (view value.now))) result }
    ensures path { IfErr result HasPath }
{
    match push_headed(alloc, reader, entries, heading, value) {
        Ok(()) => Ok(()),
        Err(stop) => Err(stop_at(alloc, heading, stop)),
    }
}

fn push_headed<R: Reader>(
    alloc: Global,
    reader: &R,
    entries: &mut Vec<Entry<R::Out>>,
    heading: &str,
    value: &Value,
) -> Result<(), Stop>
    ensures { spec.Pushes entries.old.items entries.new.items (spec.section_of (R.gives reader.now) heading.now (view value.now)) result }
{
    let section = range_at(alloc, heading)?;
    push_table(alloc, reader, entries, &section, value)
}

fn push_table<R: Reader>(
    alloc: Global,
    reader: &R,
    entries: &mut Vec<Entry<R::Out>>,
    section: &Range,
    value: &Value,
) -> Result<(), Stop>
    ensures { spec.Pushes entries.old.items entries.new.items (mapped (map (spec.entry_in section.now)) (table_of (R.gives reader.now) (view value.now))) result }
{
    match value.as_table() {
        Some(table) => push_entries(alloc, reader, entries, section, table),
        None => Err(other_shape()),
    }
}

fn push_entries<R: Reader>(
    alloc: Global,
    reader: &R,
    entries: &mut Vec<Entry<R::Out>>,
    section: &Range,
    table: &Table,
) -> Result<(), Stop>
    ensures { spec.Pushes entries.old.items entries.new.items (mapped (map (spec.entry_in section.now)) (each (R.gives reader.now) (table_view table.now))) result }
{
    'names: for (name, value) in table.iter() {
        let found = read_at(alloc, reader, name.as_str(), value)?;
        push_entry(alloc, entries, section, name.as_str(), found)?;
    }
    Ok(())
}

fn push_entry<T: Drop>(
    alloc: Global,
    entries: &mut Vec<Entry<T>>,
    section: &Range,
    name: &str,
    value: T,
) -> Result<(), AllocError>
    ensures { OnOk result (entries.new.items ≡ entries.old.items ++ spec.entry_in section.now (name.now, value) ∷ []) }
{
    entries.push(Entry {
        section: section.copy(alloc)?,
        name: Name::of(alloc, name)?,
        value,
    })?;
    Ok(())
}

/// Compat entries with their lists of ranges.
pub(crate) fn with_sets(
    alloc: Global,
    entries: Vec<Entry<KeptRanges>>,
) -> Result<RangeEntries, AllocError>
    ensures { IfOk result (λ list. map spec.bare list.items ≡ entries.items) }
{
    let mut list = Listed::make(alloc);
    for entry in entries {
        list.push(with_set(entry))?;
    }
    Ok(list)
}

fn with_set(entry: Entry<KeptRanges>) -> Entry<compat_spec::RangeSet>
    ensures { spec.bare result ≡ entry }
{
    let Entry {
        section,
        name,
        value,
    } = entry;
    Entry {
        section,
        name,
        value: value.into_set(),
    }
}
