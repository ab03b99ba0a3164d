//! The tables of a package in registries.
ghost use Rattle.std.specs.Prelude.{◌≡◌, ◌≤◌, Ok, IfSome, IfOk, IfErr, MatchResult, option_map};
ghost use Rattle.registry_tables.specs.Answers.{Refuses, ReadFaultRose};
ghost use Rattle.registry_tables.specs.Rows.{seen_rows};
ghost use Rattle.registered_offers.specs.ListedTables as spec;
ghost use Rattle.registered_offers.specs.ListedTables.{Adds};
ghost use Rattle.registered_offers.specs.SaidRow.{IsRowOf};

use crate::loaded_registry::LoadedRegistry;
use jl_versions::Version;
use pkg_world::{Listed, Name, Store};
use registry_tables::{PackageRows, RegFault, Row, VersionRow, expand, rows};
use std::alloc::{AllocError, Global};
use std::marker::Model;
use uuid::Uuid;

/// The tables of a package in one registry. Contracts see them without the room of their lists.
#[derive(Drop)]
pub struct PackageTables {
    inside: PackageRows,
}

impl Model for PackageTables {
    ghost use Rattle.registry_tables.specs.Rows.{Rows, seen_rows};

    ghost Value = { Rows };

    ghost view = { λ tables. seen_rows tables.inside };
}

impl PackageTables {
    /// The name that the registry has for the package.
    pub fn name(&self) -> &Name
        ensures { result.now ≡ self.now.name }
    {
        &self.inside.name
    }

    /// The package's identifier.
    pub fn uuid(&self) -> &Uuid
        ensures { result.now ≡ self.now.uuid }
    {
        &self.inside.uuid
    }

    /// The versions, in rising order.
    pub fn versions(&self) -> &[VersionRow]
        ensures { result.now ≡ self.now.versions }
    {
        self.inside.versions.items()
    }

    /// The row of a version: what the sections that hold it say of its dependencies and compat (Pkg, registries). The one
    /// error is want of memory.
    pub fn row(&self, alloc: Global, version: &Version) -> Result<Row, AllocError>
        ensures { IfOk result (IsRowOf self.now version.now) }
    {
        expand(alloc, &self.inside, version)
    }
}

/// The tables of a package in the registries that list it, in the order of these (Pkg, registries). The first file that is
/// missing or refused answers, with MissingFile or BadFile as `rows` says. ReadFault comes where the store failed; want of
/// memory.
pub fn tables_in<S: Store>(
    alloc: Global,
    store: &mut S,
    registries: &[LoadedRegistry],
    uuid: &Uuid,
) -> Result<Listed<PackageTables>, RegFault>
    ensures told { IfSome (S.files store.old) (λ all. MatchResult result (λ list. spec.tables_in all registries.now uuid.now ≡ Ok list.items) (Refuses (spec.tables_in all registries.now uuid.now))) }
    ensures fault { IfErr result (ReadFaultRose (S.read_faults store.old) (S.read_faults store.new)) }
    ensures files { S.files store.new ≡ S.files store.old }
    ensures later { S.read_faults store.old ≤ S.read_faults store.new }
    ensures other { S.write_faults store.new ≡ S.write_faults store.old }
{
    let mut list = Listed::make(alloc);
    match add_tables(alloc, store, registries, uuid, &mut list) {
        Ok(()) => Ok(list),
        Err(fault) => Err(fault),
    }
}

fn add_tables<S: Store>(
    alloc: Global,
    store: &mut S,
    registries: &[LoadedRegistry],
    uuid: &Uuid,
    list: &mut Listed<PackageTables>,
) -> Result<(), RegFault>
    ensures told { IfSome (S.files store.old) (λ all. Adds (spec.tables_in all registries.now uuid.now) list.old.items list.new.items result) }
    ensures fault { IfErr result (ReadFaultRose (S.read_faults store.old) (S.read_faults store.new)) }
    ensures files { S.files store.new ≡ S.files store.old }
    ensures later { S.read_faults store.old ≤ S.read_faults store.new }
    ensures other { S.write_faults store.new ≡ S.write_faults store.old }
{
    'registries: for registry in registries {
        match add_rows(alloc, store, registry, uuid, list) {
            Ok(()) => {}
            Err(fault) => return Err(fault),
        }
    }
    Ok(())
}

fn add_rows<S: Store>(
    alloc: Global,
    store: &mut S,
    registry: &LoadedRegistry,
    uuid: &Uuid,
    list: &mut Listed<PackageTables>,
) -> Result<(), RegFault>
    ensures told { IfSome (S.files store.old) (λ all. Adds (spec.tables_at all uuid.now registry.now) list.old.items list.new.items result) }
    ensures fault { IfErr result (ReadFaultRose (S.read_faults store.old) (S.read_faults store.new)) }
    ensures files { S.files store.new ≡ S.files store.old }
    ensures later { S.read_faults store.old ≤ S.read_faults store.new }
    ensures other { S.write_faults store.new ≡ S.write_faults store.old }
{
    match rows_of(alloc, store, registry, uuid) {
        Ok(Some(found)) => {
            list.push(PackageTables { inside: found })?;
            Ok(())
        }
        Ok(None) => Ok(()),
        Err(fault) => Err(fault),
    }
}

/// The tables of a package in a registry, where it lists the package.
fn rows_of<S: Store>(
    alloc: Global,
    store: &mut S,
    registry: &LoadedRegistry,
    uuid: &Uuid,
) -> Result<Option<PackageRows>, RegFault>
    ensures told { IfSome (S.files store.old) (λ all. MatchResult result
        (λ found. spec.tables_at all uuid.now registry.now ≡ Ok (spec.option_rows (option_map seen_rows found)))
        (Refuses (spec.tables_at all uuid.now registry.now))) }
    ensures fault { IfErr result (ReadFaultRose (S.read_faults store.old) (S.read_faults store.new)) }
    ensures files { S.files store.new ≡ S.files store.old }
    ensures later { S.read_faults store.old ≤ S.read_faults store.new }
    ensures other { S.write_faults store.new ≡ S.write_faults store.old }
{
    rows(alloc, registry.registry(), store, uuid)
}
