//! The files of a package with sections: its dependencies and their compat.
ghost use Rattle.std.specs.Prelude.{◌≡◌, ◌≤◌, ◌++◌, ◌∷◌, [], true, IfSome, IfErr};
ghost use Rattle.toml.specs.View.{table_view};
ghost use Rattle.pkg_world.specs.Path.{is_plain};
ghost use Rattle.package_tables.specs.Tables.{id_entries, range_entries};
ghost use Rattle.registry_tables.specs.Answers.{ReadFaultRose, NoReadFault, at_file};
ghost use Rattle.registry_tables.specs.Rows as spec;

use crate::fault::RegFault;
use crate::file::{optional_table, refused_at};
use package_tables::{IdEntries, RangeEntries, VersionRows, id_entries, range_entries};
use pkg_world::{Listed, NormPath, Store};
use std::alloc::Global;
use toml_view::Table;

/// The entries of a table of dependencies, and of the compat table beside it.
#[derive(Drop)]
pub(crate) struct Tables {
    pub(crate) deps: IdEntries,
    pub(crate) compat: RangeEntries,
}

/// The tables of dependencies and their compat.
pub(crate) fn strong_in<S: Store>(
    alloc: Global,
    store: &mut S,
    folder: &NormPath,
    versions: &VersionRows,
) -> Result<Tables, RegFault>
    ensures told { IfSome (S.files store.old) (λ all. spec.LoadsTables (spec.strong_in all folder.now versions.now.items) result) }
    ensures fault { IfErr result (ReadFaultRose (S.read_faults store.old) (S.read_faults store.new)) }
    ensures files { S.files store.new ≡ S.files store.old }
    ensures later { S.read_faults store.old ≤ S.read_faults store.new }
    ensures other { S.write_faults store.new ≡ S.write_faults store.old }
{
    tables_in(alloc, store, folder, versions, "Deps.toml", "Compat.toml")
}

/// The tables of weak dependencies and their compat.
pub(crate) fn weak_in<S: Store>(
    alloc: Global,
    store: &mut S,
    folder: &NormPath,
    versions: &VersionRows,
) -> Result<Tables, RegFault>
    ensures told { IfSome (S.files store.old) (λ all. spec.LoadsTables (spec.weak_in all folder.now versions.now.items) result) }
    ensures fault { IfErr result (ReadFaultRose (S.read_faults store.old) (S.read_faults store.new)) }
    ensures files { S.files store.new ≡ S.files store.old }
    ensures later { S.read_faults store.old ≤ S.read_faults store.new }
    ensures other { S.write_faults store.new ≡ S.write_faults store.old }
{
    tables_in(
        alloc,
        store,
        folder,
        versions,
        "WeakDeps.toml",
        "WeakCompat.toml",
    )
}

/// The two tables of these names.
#[tactic(auto, unfolding(crate::specs::Rows::tables_in))]
fn tables_in<S: Store>(
    alloc: Global,
    store: &mut S,
    folder: &NormPath,
    versions: &VersionRows,
    deps_name: &str,
    compat_name: &str,
) -> Result<Tables, RegFault>
    requires deps { is_plain deps_name.now ≡ true }
    requires compat { is_plain compat_name.now ≡ true }
    ensures told { IfSome (S.files store.old) (λ all. spec.LoadsTables (spec.tables_in all folder.now versions.now.items deps_name.now compat_name.now) result) }
    ensures fault { IfErr result (ReadFaultRose (S.read_faults store.old) (S.read_faults store.new)) }
    ensures files { S.files store.new ≡ S.files store.old }
    ensures later { S.read_faults store.old ≤ S.read_faults store.new }
    ensures other { S.write_faults store.new ≡ S.write_faults store.old }
{
    match ids_in(alloc, store, folder, versions, deps_name) {
        Ok(deps) => match ranges_in(alloc, store, folder, versions, compat_name) {
            Ok(compat) => Ok(Tables { deps, compat }),
            Err(fault) => Err(fault),
        },
        Err(fault) => Err(fault),
    }
}

/// The entries of a table of dependencies; none where its file is absent.
fn ids_in<S: Store>(
    alloc: Global,
    store: &mut S,
    folder: &NormPath,
    versions: &VersionRows,
    name: &str,
) -> Result<IdEntries, RegFault>
    requires { is_plain name.now ≡ true }
    ensures told { IfSome (S.files store.old) (λ all. spec.LoadsList (spec.entries_in (id_entries versions.now.items) all (folder.now ++ name.now ∷ [])) result) }
    ensures fault { IfErr result (ReadFaultRose (S.read_faults store.old) (S.read_faults store.new)) }
    ensures files { S.files store.new ≡ S.files store.old }
    ensures later { S.read_faults store.old ≤ S.read_faults store.new }
    ensures other { S.write_faults store.new ≡ S.write_faults store.old }
{
    let file = folder.child(alloc, name)?;
    match optional_table(alloc, store, &file) {
        Ok(Some(table)) => ids_of(alloc, &file, versions, &table),
        Ok(None) => Ok(Listed::make(alloc)),
        Err(fault) => Err(fault),
    }
}

fn ids_of(
    alloc: Global,
    file: &NormPath,
    versions: &VersionRows,
    table: &Table,
) -> Result<IdEntries, RegFault>
    ensures told { spec.LoadsList (at_file file.now (id_entries versions.now.items (table_view table.now))) result }
    ensures fault { IfErr result NoReadFault }
{
    match id_entries(alloc, versions.items(), table) {
        Ok(entries) => Ok(entries),
        Err(halt) => Err(refused_at(alloc, file, halt)),
    }
}

/// The entries of a compat table; none where its file is absent.
fn ranges_in<S: Store>(
    alloc: Global,
    store: &mut S,
    folder: &NormPath,
    versions: &VersionRows,
    name: &str,
) -> Result<RangeEntries, RegFault>
    requires { is_plain name.now ≡ true }
    ensures told { IfSome (S.files store.old) (λ all. spec.LoadsRanges (spec.entries_in (range_entries versions.now.items) all (folder.now ++ name.now ∷ [])) result) }
    ensures fault { IfErr result (ReadFaultRose (S.read_faults store.old) (S.read_faults store.new)) }
    ensures files { S.files store.new ≡ S.files store.old }
    ensures later { S.read_faults store.old ≤ S.read_faults store.new }
    ensures other { S.write_faults store.new ≡ S.write_faults store.old }
{
    let file = folder.child(alloc, name)?;
    match optional_table(alloc, store, &file) {
        Ok(Some(table)) => ranges_of(alloc, &file, versions, &table),
        Ok(None) => Ok(Listed::make(alloc)),
        Err(fault) => Err(fault),
    }
}

fn ranges_of(
    alloc: Global,
    file: &NormPath,
    versions: &VersionRows,
    table: &Table,
) -> Result<RangeEntries, RegFault>
    ensures told { spec.LoadsRanges (at_file file.now (range_entries versions.now.items (table_view table.now))) result }
    ensures fault { IfErr result NoReadFault }
{
    match range_entries(alloc, versions.items(), table) {
        Ok(entries) => Ok(entries),
        Err(halt) => Err(refused_at(alloc, file, halt)),
    }
}
