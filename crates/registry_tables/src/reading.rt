//! The tables of a package, from the files of its folder.
ghost use Rattle.std.specs.Prelude.{◌≡◌, ◌≤◌, Ok, IfSome, IfErr, MatchResult, option_map};
ghost use Rattle.std.specs.Option.{option_copied};
ghost use Rattle.registry_tables.specs.Answers.{Refuses, ReadFaultRose};
ghost use Rattle.registry_tables.specs.Rows as spec;

use crate::fault::RegFault;
use crate::package_file::package_in;
use crate::package_list::{Package, Registry};
use crate::section_files::{Tables, strong_in, weak_in};
use crate::version_file::versions_in;
use package_tables::{PackageRows, VersionRows};
use pkg_world::{Duplicate, NormPath, PathFault, Store};
use std::alloc::Global;
use uuid::Uuid;

/// The tables of a package; None exactly where the registry doesn't list the identifier. Its files lie in the folder that
/// the package's path means from the registry's, and each is read once, in this order: Package.toml and Versions.toml,
/// which have to be there, then Deps.toml, Compat.toml, WeakDeps.toml and WeakCompat.toml, which may be absent (Pkg,
/// registries).
///
/// MissingFile names the first needed file that isn't there, where a path that rises above the root leads to none, and
/// then the registry's folder. BadFile names the first file that is refused: as BadToml, Deep, or by its first refusal in
/// key order, and a table with sections then as Clash, where two sections that hold a listed version give one name
/// different values (an own rule). ReadFault names a path that the outside failed at, and comes only where the store's
/// count of failed reads rose.
pub fn rows<S: Store>(
    alloc: Global,
    registry: &Registry,
    store: &mut S,
    uuid: &Uuid,
) -> Result<Option<PackageRows>, RegFault>
    ensures told { IfSome (S.files store.old) (λ all. MatchResult result
        (λ found. spec.rows_in all registry.now uuid.now ≡ Ok (option_map spec.seen_rows found))
        (Refuses (spec.rows_in all registry.now uuid.now))) }
    ensures fault { IfErr result (ReadFaultRose (S.read_faults store.old) (S.read_faults store.new)) }
    ensures files { S.files store.new ≡ S.files store.old }
    ensures later { S.read_faults store.old ≤ S.read_faults store.new }
    ensures other { S.write_faults store.new ≡ S.write_faults store.old }
{
    match package_named(registry, uuid) {
        None => Ok(None),
        Some(wanted) => match rows_of(alloc, store, registry, wanted) {
            Ok(rows) => Ok(Some(rows)),
            Err(fault) => Err(fault),
        },
    }
}

/// The package of an identifier.
fn package_named<'a>(registry: &'a Registry, uuid: &Uuid) -> Option<&'a Package>
    ensures { option_copied result ≡ spec.package_named registry.now uuid.now }
{
    registry.packages.get(uuid)
}

/// The tables of a listed package.
fn rows_of<S: Store>(
    alloc: Global,
    store: &mut S,
    registry: &Registry,
    wanted: &Package,
) -> Result<PackageRows, RegFault>
    ensures told { IfSome (S.files store.old) (λ all. spec.LoadsRows (spec.rows_from all registry.now wanted.now (spec.folder_of registry.now wanted.now)) result) }
    ensures fault { IfErr result (ReadFaultRose (S.read_faults store.old) (S.read_faults store.new)) }
    ensures files { S.files store.new ≡ S.files store.old }
    ensures later { S.read_faults store.old ≤ S.read_faults store.new }
    ensures other { S.write_faults store.new ≡ S.write_faults store.old }
{
    match NormPath::join(alloc, &registry.folder, wanted.path.as_str()) {
        Ok(folder) => rows_at(alloc, store, wanted, &folder),
        Err(PathFault::Escapes) => Err(RegFault::MissingFile(registry.folder.copy(alloc)?)),
        Err(PathFault::Memory) => Err(RegFault::Memory),
    }
}

/// The tables in a package's folder.
fn rows_at<S: Store>(
    alloc: Global,
    store: &mut S,
    wanted: &Package,
    folder: &NormPath,
) -> Result<PackageRows, RegFault>
    ensures told { IfSome (S.files store.old) (λ all. spec.LoadsRows (spec.rows_at all wanted.now folder.now) result) }
    ensures fault { IfErr result (ReadFaultRose (S.read_faults store.old) (S.read_faults store.new)) }
    ensures files { S.files store.new ≡ S.files store.old }
    ensures later { S.read_faults store.old ≤ S.read_faults store.new }
    ensures other { S.write_faults store.new ≡ S.write_faults store.old }
{
    match package_in(alloc, store, wanted, folder) {
        Ok(()) => after_package(alloc, store, wanted, folder),
        Err(fault) => Err(fault),
    }
}

/// The tables whose package was tested.
fn after_package<S: Store>(
    alloc: Global,
    store: &mut S,
    wanted: &Package,
    folder: &NormPath,
) -> Result<PackageRows, RegFault>
    ensures told { IfSome (S.files store.old) (λ all. spec.LoadsRows (spec.after_package all wanted.now folder.now) result) }
    ensures fault { IfErr result (ReadFaultRose (S.read_faults store.old) (S.read_faults store.new)) }
    ensures files { S.files store.new ≡ S.files store.old }
    ensures later { S.read_faults store.old ≤ S.read_faults store.new }
    ensures other { S.write_faults store.new ≡ S.write_faults store.old }
{
    match versions_in(alloc, store, folder) {
        Ok(versions) => with_versions(alloc, store, wanted, folder, versions),
        Err(fault) => Err(fault),
    }
}

/// The tables beside the versions.
#[tactic(auto, unfolding(crate::specs::Rows::with_versions))]
fn with_versions<S: Store>(
    alloc: Global,
    store: &mut S,
    wanted: &Package,
    folder: &NormPath,
    versions: VersionRows,
) -> Result<PackageRows, RegFault>
    ensures told { IfSome (S.files store.old) (λ all. spec.LoadsRows (spec.with_versions all wanted.now folder.now versions.items) result) }
    ensures fault { IfErr result (ReadFaultRose (S.read_faults store.old) (S.read_faults store.new)) }
    ensures files { S.files store.new ≡ S.files store.old }
    ensures later { S.read_faults store.old ≤ S.read_faults store.new }
    ensures other { S.write_faults store.new ≡ S.write_faults store.old }
{
    match strong_in(alloc, store, folder, &versions) {
        Ok(strong) => match weak_in(alloc, store, folder, &versions) {
            Ok(weak) => joined(alloc, wanted, versions, strong, weak),
            Err(fault) => Err(fault),
        },
        Err(fault) => Err(fault),
    }
}

fn joined(
    alloc: Global,
    wanted: &Package,
    versions: VersionRows,
    strong: Tables,
    weak: Tables,
) -> Result<PackageRows, RegFault>
    ensures told { MatchResult result
        (λ rows. spec.seen_rows rows ≡ record { name = wanted.now.name; uuid = wanted.now.uuid; versions = versions.items; strong = spec.seen_tables strong; weak = spec.seen_tables weak })
        (λ fault. fault ≡ RegFault.Memory) }
{
    let name = wanted.name.copy(alloc)?;
    Ok(PackageRows {
        name,
        uuid: wanted.uuid,
        versions,
        deps: strong.deps,
        compat: strong.compat,
        weakdeps: weak.deps,
        weakcompat: weak.compat,
    })
}
