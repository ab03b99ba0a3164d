//! A package's own file, Package.toml.
ghost use Rattle.std.specs.Prelude.{◌≡◌, ◌≤◌, IfSome, IfErr};
ghost use Rattle.toml.specs.View.{table_view};
ghost use Rattle.toml_view.specs.Causes.{caused};
ghost use Rattle.package_tables.specs.Sections.{package_of};
ghost use Rattle.registry_tables.specs.Answers.{Loads, ReadFaultRose, NoReadFault, at_file};
ghost use Rattle.registry_tables.specs.Rows as spec;

use crate::fault::RegFault;
use crate::file::{needed_table, refused_at};
use crate::package_list::Package;
use package_tables::check_package;
use pkg_world::{NormPath, Store};
use std::alloc::Global;
use toml_view::Table;

/// Reads whether the package's own file is that of the package.
pub(crate) fn package_in<S: Store>(
    alloc: Global,
    store: &mut S,
    wanted: &Package,
    folder: &NormPath,
) -> Result<(), RegFault>
    ensures told { IfSome (S.files store.old) (λ all. Loads (spec.package_in all wanted.now folder.now) result) }
    ensures fault { IfErr result (ReadFaultRose (S.read_faults store.old) (S.read_faults store.new)) }
    ensures files { S.files store.new ≡ S.files store.old }
    ensures later { S.read_faults store.old ≤ S.read_faults store.new }
    ensures other { S.write_faults store.new ≡ S.write_faults store.old }
{
    let file = folder.child(alloc, "Package.toml")?;
    package_at(alloc, store, wanted, &file)
}

#[tactic(auto, unfolding(crate::specs::Rows::package_at))]
fn package_at<S: Store>(
    alloc: Global,
    store: &mut S,
    wanted: &Package,
    file: &NormPath,
) -> Result<(), RegFault>
    ensures told { IfSome (S.files store.old) (λ all. Loads (spec.package_at all wanted.now file.now) result) }
    ensures fault { IfErr result (ReadFaultRose (S.read_faults store.old) (S.read_faults store.new)) }
    ensures files { S.files store.new ≡ S.files store.old }
    ensures later { S.read_faults store.old ≤ S.read_faults store.new }
    ensures other { S.write_faults store.new ≡ S.write_faults store.old }
{
    match needed_table(alloc, store, file) {
        Ok(table) => checked_package(alloc, wanted, file, &table),
        Err(fault) => Err(fault),
    }
}

fn checked_package(
    alloc: Global,
    wanted: &Package,
    file: &NormPath,
    table: &Table,
) -> Result<(), RegFault>
    ensures told { Loads (at_file file.now (caused (package_of wanted.now.name wanted.now.uuid (table_view table.now)))) result }
    ensures fault { IfErr result NoReadFault }
{
    match check_package(alloc, &wanted.name, &wanted.uuid, table) {
        Ok(()) => Ok(()),
        Err(halt) => Err(refused_at(alloc, file, halt)),
    }
}
