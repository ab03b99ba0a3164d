//! Reading the catalog of a command.
ghost use Rattle.std.specs.Prelude.{◌≡◌, ◌≤◌, Ok, IfSome, IfOk, IfErr, MatchResult};
ghost use Rattle.registry_tables.specs.Answers.{Refuses as ReadRefuses, ReadFaultRose as ReadRose};
ghost use Rattle.project_file.specs.Said.{said as said_project};
ghost use Rattle.manifest_file.specs.Said.{said as said_manifest};
ghost use Rattle.offer_catalog.specs.Answers.{Refuses, ReadFaultRose};
ghost use Rattle.offer_catalog.specs.Catalogued as spec;

use crate::catalog::Catalog;
use crate::fault::BookFault;
use crate::fixed_list::fixed_list;
use crate::trees::trees_of;
use fixed_packages::{FixedPackages, as_registry_fault, fixed_in};
use manifest_file::Manifest;
use pkg_world::{Duplicate, Home, Listed, Place, Store};
use project_file::Project;
use registered_offers::{LoadedRegistry, registries_in};
use registry_tables::{RegFault, registries};
use standard_libraries::{Libraries, libraries_in};
use std::alloc::{AllocError, Global};

impl Catalog {
    /// The catalog of a place, a project and its manifest, which lie at `home`. Read are, in this order, the file
    /// `Registry.toml` of each registry, by the depots and then by the names of the folders; the project file of each folder
    /// in the folder of the standard libraries, by the folders' names; and those of the fixed packages, by their names and
    /// then by their identifiers. (Registries, project files and manifests: Pkg; the order and the rest are own rules.)
    ///
    /// Errors: MissingFile and BadFile of the first of these files that is missing or refused, as `Registry::load`,
    /// `libraries_in` and `fixed_in` say; ReadFault, where the store can't read; want of memory.
    pub fn load<S: Store>(
        alloc: Global,
        store: &mut S,
        place: &Place,
        home: &Home,
        project: &Project,
        manifest: &Manifest,
    ) -> Result<Catalog, BookFault>
        ensures told { IfSome (S.files store.old) (λ all. MatchResult result
            (λ catalog. spec.catalogued all place.now home.now (said_project project.now) (said_manifest manifest.now) ≡ Ok catalog)
            (Refuses (spec.catalogued all place.now home.now (said_project project.now) (said_manifest manifest.now)))) }
        ensures fault { IfErr result (ReadFaultRose (S.read_faults store.old) (S.read_faults store.new)) }
        ensures files { S.files store.new ≡ S.files store.old }
        ensures later { S.read_faults store.old ≤ S.read_faults store.new }
        ensures other { S.write_faults store.new ≡ S.write_faults store.old }
    {
        match catalog_in(alloc, store, place, home, project, manifest) {
            Ok(catalog) => Ok(catalog),
            Err(RegFault::ReadFault(path)) => Err(BookFault::ReadFault(path)),
            Err(RegFault::MissingFile(path)) => Err(BookFault::MissingFile(path)),
            Err(RegFault::BadFile(path, cause)) => Err(BookFault::BadFile(path, cause)),
            Err(RegFault::Memory) => Err(BookFault::Memory),
        }
    }
}

fn catalog_in<S: Store>(
    alloc: Global,
    store: &mut S,
    place: &Place,
    home: &Home,
    project: &Project,
    manifest: &Manifest,
) -> Result<Catalog, RegFault>
    ensures told { IfSome (S.files store.old) (λ all. MatchResult result
        (λ catalog. spec.catalogued all place.now home.now (said_project project.now) (said_manifest manifest.now) ≡ Ok catalog)
        (ReadRefuses (spec.catalogued all place.now home.now (said_project project.now) (said_manifest manifest.now)))) }
    ensures fault { IfErr result (ReadRose (S.read_faults store.old) (S.read_faults store.new)) }
    ensures files { S.files store.new ≡ S.files store.old }
    ensures later { S.read_faults store.old ≤ S.read_faults store.new }
    ensures other { S.write_faults store.new ≡ S.write_faults store.old }
{
    match unfixed_in(alloc, store, place) {
        Ok(unfixed) => with_fixed(alloc, store, home, project, manifest, unfixed),
        Err(fault) => Err(fault),
    }
}

fn with_fixed<S: Store>(
    alloc: Global,
    store: &mut S,
    home: &Home,
    project: &Project,
    manifest: &Manifest,
    unfixed: Unfixed,
) -> Result<Catalog, RegFault>
    ensures told { IfSome (S.files store.old) (λ all. MatchResult result
        (λ catalog. spec.with_fixed all home.now (said_project project.now) (said_manifest manifest.now) (spec.said_unfixed unfixed) ≡ Ok catalog)
        (ReadRefuses (spec.with_fixed all home.now (said_project project.now) (said_manifest manifest.now) (spec.said_unfixed unfixed)))) }
    ensures fault { IfErr result (ReadRose (S.read_faults store.old) (S.read_faults store.new)) }
    ensures files { S.files store.new ≡ S.files store.old }
    ensures later { S.read_faults store.old ≤ S.read_faults store.new }
    ensures other { S.write_faults store.new ≡ S.write_faults store.old }
{
    match fixed_in(alloc, store, home, project, manifest) {
        Ok(fixed) => Ok(joined(alloc, home, manifest, unfixed, fixed)?),
        Err(fault) => Err(fault),
    }
}

fn joined(
    alloc: Global,
    home: &Home,
    manifest: &Manifest,
    unfixed: Unfixed,
    fixed: FixedPackages,
) -> Result<Catalog, AllocError>
    ensures { IfOk result (λ catalog. catalog ≡ spec.joined home.now (said_manifest manifest.now) (spec.said_unfixed unfixed) fixed.entries) }
{
    let Unfixed {
        registries,
        libraries,
    } = unfixed;
    let fixed = fixed_list(alloc, fixed)?;
    let trees = trees_of(alloc, manifest.stanzas.items())?;
    let home = home_copy(alloc, home)?;
    Ok(Catalog::of(home, registries, libraries, fixed, trees))
}

fn home_copy(alloc: Global, home: &Home) -> Result<Home, AllocError>
    ensures { IfOk result (λ other. other ≡ home.now) }
{
    Ok(Home {
        project: home.project.copy(alloc)?,
        manifest: home.manifest.copy(alloc)?,
    })
}

/// The parts of a catalog that no project fixes.
#[derive(Drop)]
pub(crate) struct Unfixed {
    registries: Listed<LoadedRegistry>,
    libraries: Libraries,
}

fn unfixed_in<S: Store>(alloc: Global, store: &mut S, place: &Place) -> Result<Unfixed, RegFault>
    ensures told { IfSome (S.files store.old) (λ all. MatchResult result (λ unfixed. spec.unfixed_in all place.now ≡ Ok (spec.said_unfixed unfixed)) (ReadRefuses (spec.unfixed_in all place.now))) }
    ensures fault { IfErr result (ReadRose (S.read_faults store.old) (S.read_faults store.new)) }
    ensures files { S.files store.new ≡ S.files store.old }
    ensures later { S.read_faults store.old ≤ S.read_faults store.new }
    ensures other { S.write_faults store.new ≡ S.write_faults store.old }
{
    match registries_of(alloc, store, place) {
        Ok(registries) => with_libraries(alloc, store, place, registries),
        Err(fault) => Err(fault),
    }
}

/// The registries of all depots.
fn registries_of<S: Store>(
    alloc: Global,
    store: &mut S,
    place: &Place,
) -> Result<Listed<LoadedRegistry>, RegFault>
    ensures told { IfSome (S.files store.old) (λ all. MatchResult result (λ list. spec.registries_of all place.now ≡ Ok list.items) (ReadRefuses (spec.registries_of all place.now))) }
    ensures fault { IfErr result (ReadRose (S.read_faults store.old) (S.read_faults store.new)) }
    ensures files { S.files store.new ≡ S.files store.old }
    ensures later { S.read_faults store.old ≤ S.read_faults store.new }
    ensures other { S.write_faults store.new ≡ S.write_faults store.old }
{
    match registries(alloc, store, &place.depots) {
        Ok(found) => registries_in(alloc, store, found.folders.items()),
        Err(RegFault::ReadFault(path)) => Err(RegFault::ReadFault(path)),
        Err(RegFault::MissingFile(_)) => unreachable!(),
        Err(RegFault::BadFile(..)) => unreachable!(),
        Err(RegFault::Memory) => Err(RegFault::Memory),
    }
}

fn with_libraries<S: Store>(
    alloc: Global,
    store: &mut S,
    place: &Place,
    registries: Listed<LoadedRegistry>,
) -> Result<Unfixed, RegFault>
    ensures told { IfSome (S.files store.old) (λ all. MatchResult result (λ unfixed. spec.with_libraries all place.now registries.items ≡ Ok (spec.said_unfixed unfixed)) (ReadRefuses (spec.with_libraries all place.now registries.items))) }
    ensures fault { IfErr result (ReadRose (S.read_faults store.old) (S.read_faults store.new)) }
    ensures files { S.files store.new ≡ S.files store.old }
    ensures later { S.read_faults store.old ≤ S.read_faults store.new }
    ensures other { S.write_faults store.new ≡ S.write_faults store.old }
{
    match libraries_in(alloc, store, &place.stdlib, &place.julia) {
        Ok(libraries) => Ok(Unfixed {
            registries,
            libraries,
        }),
        Err(fault) => Err(as_registry_fault(fault)),
    }
}
