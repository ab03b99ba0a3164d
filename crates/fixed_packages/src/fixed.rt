//! Fixed packages by their identifiers.
ghost use Rattle.std.specs.Prelude.{◌≡◌, ◌≤◌, ◌∷◌, ◌++◌, [], Ok, IfSome, IfOk, IfErr, OnOk, MatchResult};
ghost use Rattle.package_tables.specs.Row.{by_bytes, put_to};
ghost use Rattle.registry_tables.specs.Answers.{Refuses, ReadFaultRose};
ghost use Rattle.project_file.specs.Said.{said as said_project};
ghost use Rattle.manifest_file.specs.Said.{said as said_manifest};
ghost use Rattle.fixed_packages.specs.FixedPackages as spec;
ghost use Rattle.fixed_packages.specs.FixedPackages.{Adds};

use crate::basis::Basis;
use crate::candidate::candidates;
use crate::given::Given;
use crate::name_key::NameKey;
use crate::order::{ByName, in_order};
use crate::reading::read_basis;
use manifest_file::Manifest;
use pkg_world::{Home, Store};
use project_file::Project;
use registry_tables::RegFault;
use std::alloc::{AllocError, Global};
use std::collections::{BTreeMap, VecDeque};
use uuid::Uuid;

/// What fixed packages say, by their identifiers.
pub type FixedPackages = BTreeMap<Uuid, Given>;

/// The fixed packages of a project and its manifest, which are of two kinds (own rules):
///
/// - each name with a `path` among the project's `sources` that stands in `deps`, `weakdeps` or `extras`, with the
///   identifier of the first of these three. The path goes from the project file's folder. Of several of one identifier
///   the first by name counts.
/// - each stanza of the manifest with a path, which goes from the manifest's folder, or with a repository, whose
///   identifier none of the first kind has.
///
/// A package in a folder says what the folder's project file says, one of a repository what its stanza says. Without a
/// version it has 0.0.0. The name and identifier are those of the dependency or of the stanza; what the folder's project
/// file says of them doesn't count.
///
/// The project files are read by the packages' names and then by their identifiers, and the first refusal counts:
/// MissingFile, of a folder's `Project.toml`, exactly where the folder has no project file; BadFile, exactly where that
/// file is refused, or where a path rises above the root, then as BadShape of `sources.NAME.path` in the project file or of
/// `deps.NAME.path` in the manifest; ReadFault, where the store can't read; want of memory.
pub fn fixed_in<S: Store>(
    alloc: Global,
    store: &mut S,
    home: &Home,
    project: &Project,
    manifest: &Manifest,
) -> Result<FixedPackages, RegFault>
    ensures told { IfSome (S.files store.old) (λ all. MatchResult result
        (λ found. spec.fixed_in all home.now (said_project project.now) (said_manifest manifest.now) ≡ Ok found.entries)
        (Refuses (spec.fixed_in all home.now (said_project project.now) (said_manifest manifest.now)))) }
    ensures fault { IfErr result (ReadFaultRose (S.read_faults store.old) (S.read_faults store.new)) }
    ensures files { S.files store.new ≡ S.files store.old }
    ensures later { S.read_faults store.old ≤ S.read_faults store.new }
    ensures other { S.write_faults store.new ≡ S.write_faults store.old }
{
    let candidates = candidates(alloc, home, project, manifest)?;
    let packages = in_order(alloc, candidates)?;
    of_packages(alloc, store, packages)
}

fn of_packages<S: Store>(
    alloc: Global,
    store: &mut S,
    packages: ByName,
) -> Result<FixedPackages, RegFault>
    ensures told { IfSome (S.files store.old) (λ all. MatchResult result (λ found. spec.fixed_of all packages.entries ≡ Ok found.entries) (Refuses (spec.fixed_of all packages.entries))) }
    ensures fault { IfErr result (ReadFaultRose (S.read_faults store.old) (S.read_faults store.new)) }
    ensures files { S.files store.new ≡ S.files store.old }
    ensures later { S.read_faults store.old ≤ S.read_faults store.new }
    ensures other { S.write_faults store.new ≡ S.write_faults store.old }
{
    match read_packages(alloc, store, packages) {
        Ok(found) => Ok(by_id(alloc, found)?),
        Err(fault) => Err(fault),
    }
}

/// What the packages say, one after the other.
fn read_packages<S: Store>(
    alloc: Global,
    store: &mut S,
    packages: ByName,
) -> Result<VecDeque<(Uuid, Given)>, RegFault>
    ensures told { IfSome (S.files store.old) (λ all. MatchResult result (λ found. spec.packages_read all packages.entries ≡ Ok found.items) (Refuses (spec.packages_read all packages.entries))) }
    ensures fault { IfErr result (ReadFaultRose (S.read_faults store.old) (S.read_faults store.new)) }
    ensures files { S.files store.new ≡ S.files store.old }
    ensures later { S.read_faults store.old ≤ S.read_faults store.new }
    ensures other { S.write_faults store.new ≡ S.write_faults store.old }
{
    let mut found = VecDeque::new(alloc);
    match add_packages(alloc, store, packages, &mut found) {
        Ok(()) => Ok(found),
        Err(fault) => Err(fault),
    }
}

fn add_packages<S: Store>(
    alloc: Global,
    store: &mut S,
    packages: ByName,
    found: &mut VecDeque<(Uuid, Given)>,
) -> Result<(), RegFault>
    ensures told { IfSome (S.files store.old) (λ all. Adds (spec.packages_read all packages.entries) found.old.items found.new.items result) }
    ensures fault { IfErr result (ReadFaultRose (S.read_faults store.old) (S.read_faults store.new)) }
    ensures files { S.files store.new ≡ S.files store.old }
    ensures later { S.read_faults store.old ≤ S.read_faults store.new }
    ensures other { S.write_faults store.new ≡ S.write_faults store.old }
{
    let mut left = packages;
    'packages: loop {
        let Some(entry) = left.pop_first() else {
            return Ok(());
        };
        match add_package(alloc, store, entry, found) {
            Ok(()) => {}
            Err(fault) => return Err(fault),
        }
    }
}

fn add_package<S: Store>(
    alloc: Global,
    store: &mut S,
    entry: ((NameKey, Uuid), Basis),
    found: &mut VecDeque<(Uuid, Given)>,
) -> Result<(), RegFault>
    ensures told { IfSome (S.files store.old) (λ all. Adds (spec.package_read all entry) found.old.items found.new.items result) }
    ensures fault { IfErr result (ReadFaultRose (S.read_faults store.old) (S.read_faults store.new)) }
    ensures files { S.files store.new ≡ S.files store.old }
    ensures later { S.read_faults store.old ≤ S.read_faults store.new }
    ensures other { S.write_faults store.new ≡ S.write_faults store.old }
{
    let (key, basis) = entry;
    let (name, uuid) = key;
    match read_basis(alloc, store, name.into_name(), basis) {
        Ok(given) => push(found, uuid, given),
        Err(fault) => Err(fault),
    }
}

/// Appends what a package says. The one error is want of memory.
fn push(found: &mut VecDeque<(Uuid, Given)>, uuid: Uuid, given: Given) -> Result<(), RegFault>
    ensures ok { OnOk result (found.new.items ≡ found.old.items ++ (uuid, given) ∷ []) }
    ensures err { IfErr result (λ fault. fault ≡ RegFault.Memory) }
{
    match found.push_back((uuid, given)) {
        Ok(()) => Ok(()),
        Err(_) => Err(RegFault::Memory),
    }
}

/// What the packages say, by their identifiers.
fn by_id(alloc: Global, found: VecDeque<(Uuid, Given)>) -> Result<FixedPackages, AllocError>
    ensures { IfOk result (λ packages. packages.entries ≡ put_to by_bytes [] found.items) }
{
    let mut packages = BTreeMap::new(alloc);
    let mut left = found;
    'packages: while let Some((uuid, given)) = left.pop_front() {
        packages.insert(uuid, given)?;
    }
    Ok(packages)
}
