//! The reading of a manifest's table.
ghost use Rattle.std.specs.Prelude.{◌≡◌};
ghost use Rattle.toml.specs.View.{table_view};
ghost use Rattle.manifest_file.specs.Entries as spec;
ghost use Rattle.manifest_file.specs.Chains.{entries_chain};
ghost use Rattle.manifest_file.specs.Answers.{Gives};

use crate::entry::Entries;
use crate::entry_reader::EntryReader;
use crate::format::FormatReader;
use std::alloc::Global;
use toml_view::{ListOf, NamedValues, Stop, Table, VersionReader, need, opt, table_at};

/// What stands in a manifest's file. One without any key is an empty manifest.
pub(crate) fn read_file(alloc: Global, table: &Table) -> Result<Entries, Stop>
    ensures { Gives result (spec.file_of (table_view table.now)) }
{
    if is_blank(table) {
        Ok(Entries {
            julia_version: None,
            by_name: NamedValues::make(alloc),
        })
    } else {
        read_keyed(alloc, table)
    }
}

/// Whether a table has no key.
#[tactic(auto, using(crate::proofs::Walks::blank_is))]
fn is_blank(table: &Table) -> bool
    ensures { result ≡ spec.is_blank (table_view table.now) }
{
    table.len() == 0
}

#[tactic(auto, using(crate::proofs::Orders::keyed_is))]
fn read_keyed(alloc: Global, table: &Table) -> Result<Entries, Stop>
    ensures { Gives result (spec.keyed_entries (table_view table.now)) }
{
    read_chain(alloc, table)
}

/// The keys in the order of their bytes.
fn read_chain(alloc: Global, table: &Table) -> Result<Entries, Stop>
    ensures { Gives result (entries_chain (table_view table.now)) }
{
    let reader = ListOf {
        reader: EntryReader,
    };
    let by_name = table_at(alloc, reader, table, "deps")?;
    let julia_version = opt(alloc, &VersionReader, table, "julia_version")?;
    need(alloc, &FormatReader, table, "manifest_format")?;
    Ok(Entries {
        julia_version,
        by_name,
    })
}
