//! A manifest.
ghost use Rattle.std.specs.Prelude.{◌≡◌, Ok, MatchResult, IfOk, IsTrue, unwrap_or, []};
ghost use Rattle.toml.specs.View.{table_view};
ghost use Rattle.toml_view.specs.Document.{viewed};
ghost use Rattle.manifest_file.specs.Saying.{read_of, manifest_of, of_view, resolved, resolved_names, stanzas_of};
ghost use Rattle.manifest_file.specs.Said.{said};
ghost use Rattle.manifest_file.specs.Sorting.{bearers_by};
ghost use Rattle.manifest_file.specs.Written.{are_by_name, written, written_by};
ghost use Rattle.manifest_file.specs.ReadsBack.{VersionBack, StanzasBack, StandOnce};
ghost use Rattle.manifest_file.specs.Steps.{Reads, Refuses, StopFault, ViewFaultIs};

use crate::bearers::{Index, index_of_stanzas};
use crate::entry::Entries;
use crate::fault::ManifestFault;
use crate::file::read_file;
use crate::grouping::stanzas_value;
use crate::identifiers::no_id_twice;
use crate::put::{put, put_some};
use crate::resolving::all_resolved;
use crate::stanza::Stanzas;
use crate::written::version_value;
use jl_versions::Version;
use pkg_world::{Listed, Text};
use std::alloc::{AllocError, Global};
use toml_view::{Flaw, Refusal, Stop, Table, Value, ViewFault, view};

/// What a manifest says (Pkg, Manifest.toml, format 2.0): the stanzas by the bytes of their names, and then as they stand in
/// the file.
#[derive(Drop)]
pub struct Manifest {
    pub julia_version: Option<Version>,
    pub stanzas: Stanzas,
}

impl Manifest {
    /// The manifest of a file's bytes. They are refused as BadToml or Deep where they have no table; then as BadShape or
    /// BadVersion for the first such key in the order of the keys' bytes; then as SameUuid with the identifier of the first
    /// stanza whose identifier an earlier one has; then as Dangling or Unclear for the first listed name that means no
    /// stanza, or several: by stanza, `deps` before `weakdeps`, each in the order of its list. A file without any key is an
    /// empty manifest. What is read stands in the order of the names' bytes, and no two stanzas have one identifier.
    pub fn read(alloc: Global, bytes: &[u8]) -> Result<Manifest, ManifestFault>
        ensures told { MatchResult result (λ m. read_of bytes.now ≡ Ok (said m)) (Refuses (read_of bytes.now)) }
        ensures by_name { IfOk result (λ m. IsTrue (are_by_name (said m).stanzas)) }
        ensures once { IfOk result (λ m. StandOnce (said m).stanzas) }
    {
        match view(alloc, bytes) {
            Ok(table) => of_table(alloc, &table),
            Err(fault) => Err(unviewed(fault)),
        }
    }

    /// The table that says the manifest, in format 2.0. Dependencies are a list of names where each name has exactly one
    /// stanza, which has the identifier, and else a table; what is empty, absent or false isn't written. The caller's
    /// stanzas stand in the order of their names' bytes. Where no two have one identifier the table reads again to an equal
    /// manifest. The one error is want of memory.
    pub fn to_table(&self, alloc: Global) -> Result<Table, AllocError>
        requires by_name { IsTrue (are_by_name (said self.now).stanzas) }
        ensures written { IfOk result (λ table. table_view table ≡ written (said self.now)) }
        ensures back { StandOnce (said self.now).stanzas → IfOk result (λ table. manifest_of (table_view table) ≡ Ok (said self.now)) }
    {
        let index = index_of_stanzas(alloc, self.stanzas.items())?;
        self.table_by(alloc, &index)
    }

    /// The table, where the index tells who bears each name.
    fn table_by(&self, alloc: Global, index: &Index) -> Result<Table, AllocError>
        requires { IsTrue (are_by_name (said self.now).stanzas) }
        ensures written { IfOk result (λ table. table_view table ≡ written_by (bearers_by index.now) (said self.now)) }
        ensures version { IfOk result (λ table. VersionBack self.now.julia_version) }
        ensures stanzas { IfOk result (λ table. StanzasBack (bearers_by index.now) (said self.now).stanzas) }
    {
        let mut table = Table::new(alloc);
        let format = Value::string(alloc, "2.0")?;
        put(alloc, &mut table, "manifest_format", format)?;
        let julia = version_value(alloc, &self.julia_version)?;
        put_some(alloc, &mut table, "julia_version", julia)?;
        let stanzas = stanzas_value(alloc, index, self.stanzas.items())?;
        put(alloc, &mut table, "deps", stanzas)?;
        Ok(table)
    }
}

pub(crate) fn of_table(alloc: Global, table: &Table) -> Result<Manifest, ManifestFault>
    ensures told { Reads said (manifest_of (table_view table.now)) result }
    ensures by_name { IfOk result (λ m. IsTrue (are_by_name (said m).stanzas)) }
    ensures once { IfOk result (λ m. StandOnce (said m).stanzas) }
{
    match read_file(alloc, table) {
        Ok(entries) => of_entries(alloc, entries),
        Err(stop) => Err(stopped(alloc, stop)),
    }
}

fn of_entries(alloc: Global, entries: Entries) -> Result<Manifest, ManifestFault>
    ensures told { Reads said (resolved entries) result }
    ensures by_name { IfOk result (λ m. IsTrue (are_by_name (said m).stanzas)) }
    ensures once { IfOk result (λ m. StandOnce (said m).stanzas) }
{
    match no_id_twice(alloc, entries.by_name.items()) {
        Ok(()) => with_ids_once(alloc, entries),
        Err(fault) => Err(fault),
    }
}

/// The manifest of entries whose identifiers stand once.
fn with_ids_once(alloc: Global, entries: Entries) -> Result<Manifest, ManifestFault>
    ensures told { Reads said (resolved_names entries) result }
    ensures by_name { IfOk result (λ m. IsTrue (are_by_name (said m).stanzas)) }
    ensures stanzas { IfOk result (λ m. stanzas_of entries.by_name ≡ Ok (said m).stanzas) }
{
    match all_resolved(alloc, entries.by_name.items()) {
        Ok(stanzas) => {
            let Entries { julia_version, .. } = entries;
            Ok(Manifest {
                julia_version,
                stanzas: Listed::of_vec(stanzas),
            })
        }
        Err(fault) => Err(fault),
    }
}

/// The fault of bytes without a table.
fn unviewed(fault: ViewFault) -> ManifestFault
    ensures { ViewFaultIs fault result }
{
    match fault {
        ViewFault::BadToml => ManifestFault::BadToml,
        ViewFault::Deep => ManifestFault::Deep,
        ViewFault::Memory => ManifestFault::Memory,
    }
}

/// The fault of a stopped reading.
fn stopped(alloc: Global, stop: Stop) -> ManifestFault
    ensures { StopFault stop result }
{
    match stop {
        Stop::Memory => ManifestFault::Memory,
        Stop::Refused(refusal) => refused(alloc, refusal),
    }
}

fn refused(alloc: Global, refusal: Refusal) -> ManifestFault
    ensures { StopFault (Stop.Refused refusal) result }
{
    let Refusal { path, flaw } = refusal;
    match path_or_none(alloc, path) {
        Ok(path) => match flaw {
            Flaw::Shape => ManifestFault::BadShape(path),
            Flaw::Version(place) => ManifestFault::BadVersion(path, place),
            Flaw::Spec(_) => ManifestFault::BadShape(path),
        },
        Err(_) => ManifestFault::Memory,
    }
}

/// The path; the file's own table has none.
fn path_or_none(alloc: Global, path: Option<Text>) -> Result<Text, AllocError>
    ensures { IfOk result (λ text. text ≡ unwrap_or path []) }
{
    match path {
        Some(path) => Ok(path),
        None => Text::of(alloc, ""),
    }
}
