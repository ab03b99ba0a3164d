//! Reading a registry's own file.
ghost use Rattle.std.specs.Prelude.{◌≡◌, ◌≤◌, [], false, IfSome, IfOk, IfErr};
ghost use Rattle.toml.specs.View.{view, table_view};
ghost use Rattle.toml_view.specs.Reading.{at};
ghost use Rattle.toml_view.specs.Causes.{caused};
ghost use Rattle.toml_view.specs.Answers.{HasPath};
ghost use Rattle.package_tables.specs.Sections.{Gives};
ghost use Rattle.registry_tables.specs.Answers.{at_file, NoReadFault, ReadFaultRose};
ghost use Rattle.registry_tables.specs.Registry as spec;
ghost use Rattle.registry_tables.specs.Registry.{LoadsRegistry, GivesRegistry};
ghost use Rattle.registry_tables.specs.Packages.{is_listed};

use crate::fault::RegFault;
use crate::file::{needed_table, refused_at};
use crate::package_list::{Package, PackageList, Registry};
use pkg_world::{Duplicate, Name, NormPath, PathFault, Store};
use std::alloc::Global;
use toml_view::{
    NameReader, Reader, Stop, Table, UuidReader, Value, halted, identifier, need, other_shape,
    stop_at,
};
use uuid::Uuid;

impl Registry {
    /// The registry in that folder, from its file `Registry.toml`, which has `name`, `uuid`, and the table `packages` from
    /// a package's identifier to its `name` and `path`. All three must be there, and other keys are ignored. (Pkg,
    /// Registries.)
    ///
    /// Errors: MissingFile, exactly where the folder has no such file; BadFile, exactly where its bytes are refused, with
    /// the first cause in key order: no TOML text, nested too deep, or another shape, as for an absent key, a key that is no identifier,
    /// for the second key of one identifier, and for a path that rises above the root; ReadFault, where the store can't
    /// read; want of memory.
    pub fn load<S: Store>(
        alloc: Global,
        store: &mut S,
        folder: &NormPath,
    ) -> Result<Registry, RegFault>
        ensures told { IfSome (S.files store.old) (λ all. LoadsRegistry (spec.registry_in all folder.now) result) }
        ensures fault { IfErr result (ReadFaultRose (S.read_faults store.old) (S.read_faults store.new)) }
        ensures files { S.files store.new ≡ S.files store.old }
        ensures later { S.read_faults store.old ≤ S.read_faults store.new }
        ensures other { S.write_faults store.new ≡ S.write_faults store.old }
    {
        let file = folder.child(alloc, "Registry.toml")?;
        match needed_table(alloc, store, &file) {
            Ok(table) => of_table(alloc, folder, &file, &table),
            Err(fault) => Err(fault),
        }
    }
}

fn of_table(
    alloc: Global,
    folder: &NormPath,
    file: &NormPath,
    table: &Table,
) -> Result<Registry, RegFault>
    ensures told { LoadsRegistry (at_file file.now (caused (spec.registry_of folder.now (table_view table.now)))) result }
    ensures fault { IfErr result NoReadFault }
{
    match read_registry(alloc, folder, table) {
        Ok(registry) => Ok(registry),
        Err(stop) => Err(refused_at(alloc, file, halted(stop))),
    }
}

fn read_registry(alloc: Global, folder: &NormPath, table: &Table) -> Result<Registry, Stop>
    ensures read { GivesRegistry (spec.registry_of folder.now (table_view table.now)) result }
    ensures path { IfErr result HasPath }
{
    let name = need(alloc, &NameReader, table, "name")?;
    let packages = packages_at(alloc, folder, table)?;
    let uuid = need(alloc, &UuidReader, table, "uuid")?;
    Ok(Registry {
        folder: folder.copy(alloc)?,
        name,
        uuid,
        packages,
    })
}

fn packages_at(alloc: Global, folder: &NormPath, table: &Table) -> Result<PackageList, Stop>
    ensures read { Gives result (spec.packages_at folder.now (table_view table.now)) }
    ensures path { IfErr result HasPath }
{
    let reader = PackagesReader {
        path: PathReader {
            folder: folder.copy(alloc)?,
        },
    };
    need(alloc, &reader, table, "packages")
}

/// Reads the text of a path, which may not rise above the root from the folder.
#[derive(Drop)]
struct PathReader {
    folder: NormPath,
}

impl Reader for PathReader {
    type Out = Name;

    ghost gives = { λ it value. spec.path_of it.folder value };

    fn read(&self, alloc: Global, value: &Value) -> Result<Name, Stop> {
        match value.as_str() {
            Some(text) => path_of_text(alloc, &self.folder, text),
            None => Err(other_shape()),
        }
    }
}

fn path_of_text(alloc: Global, folder: &NormPath, text: &str) -> Result<Name, Stop>
    ensures { Gives result (spec.path_of_text folder.now text.now) }
{
    match NormPath::join(alloc, folder, text) {
        Ok(_) => Ok(Name::of(alloc, text)?),
        Err(PathFault::Escapes) => Err(other_shape()),
        Err(PathFault::Memory) => Err(Stop::Memory),
    }
}

/// Reads the table of packages.
#[derive(Drop)]
struct PackagesReader {
    path: PathReader,
}

impl Reader for PackagesReader {
    type Out = PackageList;

    ghost gives = { λ it value. spec.packages_of it.path.folder value };

    fn read(&self, alloc: Global, value: &Value) -> Result<PackageList, Stop> {
        match value.as_table() {
            Some(table) => read_packages(alloc, &self.path, table),
            None => Err(other_shape()),
        }
    }
}

fn read_packages(alloc: Global, path: &PathReader, table: &Table) -> Result<PackageList, Stop>
    ensures { Gives result (spec.packages_of_members path.now.folder [] (table_view table.now)) }
{
    let mut list = PackageList::make(alloc);
    'members: for (key, value) in table.iter() {
        match package_at(alloc, path, &list, key.as_str(), value) {
            Ok(package) => list.push(package)?,
            Err(stop) => return Err(stop),
        }
    }
    Ok(list)
}

/// The package at a key, a refusal as it is seen from the table.
fn package_at(
    alloc: Global,
    path: &PathReader,
    earlier: &PackageList,
    key: &str,
    value: &Value,
) -> Result<Package, Stop>
    ensures read { Gives result (at key.now (spec.package_of path.now.folder (is_listed earlier.now) key.now (view value.now))) }
    ensures path { IfErr result HasPath }
    ensures fresh { IfOk result (λ found. is_listed earlier.now found.uuid ≡ false) }
{
    match package_of(alloc, path, earlier, key, value) {
        Ok(package) => Ok(package),
        Err(stop) => Err(stop_at(alloc, key, stop)),
    }
}

fn package_of(
    alloc: Global,
    path: &PathReader,
    earlier: &PackageList,
    key: &str,
    value: &Value,
) -> Result<Package, Stop>
    ensures read { Gives result (spec.package_of path.now.folder (is_listed earlier.now) key.now (view value.now)) }
    ensures fresh { IfOk result (λ found. is_listed earlier.now found.uuid ≡ false) }
{
    let uuid = key_of(earlier, key)?;
    match value.as_table() {
        Some(table) => package_of_members(alloc, path, uuid, table),
        None => Err(other_shape()),
    }
}

fn package_of_members(
    alloc: Global,
    path: &PathReader,
    uuid: Uuid,
    table: &Table,
) -> Result<Package, Stop>
    ensures read { Gives result (spec.package_of_members path.now.folder uuid (table_view table.now)) }
    ensures uuid { IfOk result (λ found. found.uuid ≡ uuid) }
{
    let name = need(alloc, &NameReader, table, "name")?;
    let path = need(alloc, path, table, "path")?;
    Ok(Package { uuid, name, path })
}

/// The identifier that a key spells, where no earlier key spells it.
fn key_of(earlier: &PackageList, key: &str) -> Result<Uuid, Stop>
    ensures read { Gives result (spec.key_of (is_listed earlier.now) key.now) }
    ensures fresh { IfOk result (λ uuid. is_listed earlier.now uuid ≡ false) }
{
    match identifier(key) {
        Some(uuid) => unless_listed(earlier, uuid),
        None => Err(other_shape()),
    }
}

fn unless_listed(earlier: &PackageList, uuid: Uuid) -> Result<Uuid, Stop>
    ensures read { Gives result (spec.unless_earlier (is_listed earlier.now) uuid) }
    ensures fresh { IfOk result (λ same. is_listed earlier.now same ≡ false) }
{
    if earlier.contains(&uuid) {
        Err(other_shape())
    } else {
        Ok(uuid)
    }
}
