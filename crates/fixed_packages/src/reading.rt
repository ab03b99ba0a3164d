//! Reading what a fixed package says.
ghost use Rattle.std.specs.Prelude.{◌≡◌, ◌≤◌, IfSome, IfErr};
ghost use Rattle.registry_tables.specs.Answers.{Loads, ReadFaultRose};
ghost use Rattle.project_places.specs.Active.{file_in as file_meant};
ghost use Rattle.fixed_packages.specs.FixedPackages as spec;

use crate::basis::Basis;
use crate::fault::as_registry_fault;
use crate::given::{Given, of_project};
use manifest_file::Origin;
use pkg_world::{Cause, Name, NormPath, Store};
use project_places::{EnvFault, file_in, project_at};
use registry_tables::RegFault;
use std::alloc::Global;

/// What a fixed package says. MissingFile comes for a folder without a project file, BadFile for a project file that is
/// refused, and for a path that rises above the root.
pub(crate) fn read_basis<S: Store>(
    alloc: Global,
    store: &mut S,
    name: Name,
    basis: Basis,
) -> Result<Given, RegFault>
    ensures told { IfSome (S.files store.old) (λ all. Loads (spec.given_by all name basis) result) }
    ensures fault { IfErr result (ReadFaultRose (S.read_faults store.old) (S.read_faults store.new)) }
    ensures files { S.files store.new ≡ S.files store.old }
    ensures later { S.read_faults store.old ≤ S.read_faults store.new }
    ensures other { S.write_faults store.new ≡ S.write_faults store.old }
{
    match basis {
        Basis::Folder(folder, origin) => in_folder(alloc, store, &folder, name, origin),
        Basis::Escaping(file, keys) => Err(RegFault::BadFile(file, Cause::BadShape(keys))),
        Basis::Stated(given) => Ok(given),
    }
}

fn in_folder<S: Store>(
    alloc: Global,
    store: &mut S,
    folder: &NormPath,
    name: Name,
    origin: Origin,
) -> Result<Given, RegFault>
    ensures told { IfSome (S.files store.old) (λ all. Loads (spec.given_at all name origin (file_meant all folder.now)) result) }
    ensures fault { IfErr result (ReadFaultRose (S.read_faults store.old) (S.read_faults store.new)) }
    ensures files { S.files store.new ≡ S.files store.old }
    ensures later { S.read_faults store.old ≤ S.read_faults store.new }
    ensures other { S.write_faults store.new ≡ S.write_faults store.old }
{
    match file_in(alloc, store, folder) {
        Ok(file) => of_file(alloc, store, file, name, origin),
        Err(EnvFault::ReadFault(path)) => Err(RegFault::ReadFault(path)),
        Err(EnvFault::BadFile(..)) => unreachable!(),
        Err(EnvFault::Memory) => Err(RegFault::Memory),
    }
}

fn of_file<S: Store>(
    alloc: Global,
    store: &mut S,
    file: NormPath,
    name: Name,
    origin: Origin,
) -> Result<Given, RegFault>
    ensures told { IfSome (S.files store.old) (λ all. Loads (spec.given_at all name origin file) result) }
    ensures fault { IfErr result (ReadFaultRose (S.read_faults store.old) (S.read_faults store.new)) }
    ensures files { S.files store.new ≡ S.files store.old }
    ensures later { S.read_faults store.old ≤ S.read_faults store.new }
    ensures other { S.write_faults store.new ≡ S.write_faults store.old }
{
    match project_at(alloc, store, &file) {
        Ok(Some(project)) => Ok(of_project(alloc, name, origin, project)),
        Ok(None) => Err(RegFault::MissingFile(file)),
        Err(fault) => Err(as_registry_fault(fault)),
    }
}
