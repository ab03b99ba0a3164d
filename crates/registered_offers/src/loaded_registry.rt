//! Registries that were read.
ghost use Rattle.std.specs.Prelude.{◌≡◌, ◌≤◌, Ok, IfSome, IfErr, MatchResult};
ghost use Rattle.registry_tables.specs.Answers.{Refuses, ReadFaultRose};
ghost use Rattle.registry_tables.specs.Registry.{registered};
ghost use Rattle.registered_offers.specs.ListedTables as spec;
ghost use Rattle.registered_offers.specs.ListedTables.{Adds};

use pkg_world::{Listed, NormPath, Store};
use registry_tables::{Package, RegFault, Registry};
use std::alloc::Global;
use std::marker::Model;

/// A registry that was read. Contracts see it without the room of its list.
#[derive(Drop)]
pub struct LoadedRegistry {
    inside: Registry,
}

impl Model for LoadedRegistry {
    ghost use Rattle.registry_tables.specs.Registry.{Registered, registered};

    ghost Value = { Registered };

    ghost view = { λ loaded. registered loaded.inside };
}

impl LoadedRegistry {
    /// The packages that the registry lists.
    pub fn packages(&self) -> &[Package]
        ensures { result.now ≡ self.now.packages }
    {
        self.inside.packages.items()
    }

    /// The registry as it was read.
    pub(crate) fn registry(&self) -> &Registry
        ensures { registered result.now ≡ self.now }
    {
        &self.inside
    }
}

/// The registries in these folders, in their order (Pkg, registries). The first one whose file is missing or refused
/// answers, with MissingFile or BadFile as `Registry::load` says. ReadFault comes where the store failed; want of memory.
pub fn registries_in<S: Store>(
    alloc: Global,
    store: &mut S,
    folders: &[NormPath],
) -> Result<Listed<LoadedRegistry>, RegFault>
    ensures told { IfSome (S.files store.old) (λ all. MatchResult result (λ list. spec.registries_in all folders.now ≡ Ok list.items) (Refuses (spec.registries_in all folders.now))) }
    ensures fault { IfErr result (ReadFaultRose (S.read_faults store.old) (S.read_faults store.new)) }
    ensures files { S.files store.new ≡ S.files store.old }
    ensures later { S.read_faults store.old ≤ S.read_faults store.new }
    ensures other { S.write_faults store.new ≡ S.write_faults store.old }
{
    let mut list = Listed::make(alloc);
    match add_registries(alloc, store, folders, &mut list) {
        Ok(()) => Ok(list),
        Err(fault) => Err(fault),
    }
}

fn add_registries<S: Store>(
    alloc: Global,
    store: &mut S,
    folders: &[NormPath],
    list: &mut Listed<LoadedRegistry>,
) -> Result<(), RegFault>
    ensures told { IfSome (S.files store.old) (λ all. Adds (spec.registries_in all folders.now) list.old.items list.new.items result) }
    ensures fault { IfErr result (ReadFaultRose (S.read_faults store.old) (S.read_faults store.new)) }
    ensures files { S.files store.new ≡ S.files store.old }
    ensures later { S.read_faults store.old ≤ S.read_faults store.new }
    ensures other { S.write_faults store.new ≡ S.write_faults store.old }
{
    'folders: for folder in folders {
        match add_registry(alloc, store, folder, list) {
            Ok(()) => {}
            Err(fault) => return Err(fault),
        }
    }
    Ok(())
}

fn add_registry<S: Store>(
    alloc: Global,
    store: &mut S,
    folder: &NormPath,
    list: &mut Listed<LoadedRegistry>,
) -> Result<(), RegFault>
    ensures told { IfSome (S.files store.old) (λ all. Adds (spec.registry_at all folder.now) list.old.items list.new.items result) }
    ensures fault { IfErr result (ReadFaultRose (S.read_faults store.old) (S.read_faults store.new)) }
    ensures files { S.files store.new ≡ S.files store.old }
    ensures later { S.read_faults store.old ≤ S.read_faults store.new }
    ensures other { S.write_faults store.new ≡ S.write_faults store.old }
{
    match Registry::load(alloc, store, folder) {
        Ok(registry) => {
            list.push(LoadedRegistry { inside: registry })?;
            Ok(())
        }
        Err(fault) => Err(fault),
    }
}
