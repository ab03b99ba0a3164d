//! The file of a package's versions, Versions.toml.
ghost use Rattle.std.specs.Prelude.{◌≡◌, ◌≤◌, IfSome, IfErr};
ghost use Rattle.toml.specs.View.{table_view};
ghost use Rattle.package_tables.specs.Tables.{version_rows};
ghost use Rattle.registry_tables.specs.Answers.{ReadFaultRose, NoReadFault, at_file};
ghost use Rattle.registry_tables.specs.Rows as spec;

use crate::fault::RegFault;
use crate::file::{needed_table, refused_at};
use package_tables::{VersionRows, version_rows};
use pkg_world::{NormPath, Store};
use std::alloc::Global;
use toml_view::Table;

/// The listed versions.
pub(crate) fn versions_in<S: Store>(
    alloc: Global,
    store: &mut S,
    folder: &NormPath,
) -> Result<VersionRows, RegFault>
    ensures told { IfSome (S.files store.old) (λ all. spec.LoadsList (spec.versions_in all folder.now) result) }
    ensures fault { IfErr result (ReadFaultRose (S.read_faults store.old) (S.read_faults store.new)) }
    ensures files { S.files store.new ≡ S.files store.old }
    ensures later { S.read_faults store.old ≤ S.read_faults store.new }
    ensures other { S.write_faults store.new ≡ S.write_faults store.old }
{
    let file = folder.child(alloc, "Versions.toml")?;
    versions_at(alloc, store, &file)
}

#[tactic(auto, unfolding(crate::specs::Rows::versions_at))]
fn versions_at<S: Store>(
    alloc: Global,
    store: &mut S,
    file: &NormPath,
) -> Result<VersionRows, RegFault>
    ensures told { IfSome (S.files store.old) (λ all. spec.LoadsList (spec.versions_at all file.now) result) }
    ensures fault { IfErr result (ReadFaultRose (S.read_faults store.old) (S.read_faults store.new)) }
    ensures files { S.files store.new ≡ S.files store.old }
    ensures later { S.read_faults store.old ≤ S.read_faults store.new }
    ensures other { S.write_faults store.new ≡ S.write_faults store.old }
{
    match needed_table(alloc, store, file) {
        Ok(table) => versions_of(alloc, file, &table),
        Err(fault) => Err(fault),
    }
}

fn versions_of(alloc: Global, file: &NormPath, table: &Table) -> Result<VersionRows, RegFault>
    ensures told { spec.LoadsList (at_file file.now (version_rows (table_view table.now))) result }
    ensures fault { IfErr result NoReadFault }
{
    match version_rows(alloc, table) {
        Ok(rows) => Ok(rows),
        Err(halt) => Err(refused_at(alloc, file, halt)),
    }
}
