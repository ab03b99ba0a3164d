//! Where registries lie.
ghost use Rattle.std.specs.Prelude.{◌≡◌, ◌≤◌, ◌∷◌, ◌++◌, [], ◌||◌, not, ◌==◌, true, filter, IfSome, IfOk, IfErr, OnOk};
ghost use Rattle.std.specs.List.{list_all};
ghost use Rattle.pkg_world.specs.Path.{is_plain as is_part};
ghost use Rattle.registry_tables.specs.Registries as spec;
ghost use Rattle.registry_tables.specs.Registries.{AreRegistries, Adds};
ghost use Rattle.registry_tables.specs.Answers.{OnlyReadFault};

use crate::fault::RegFault;
use crate::found::Registries;
use pkg_world::{Duplicate, Name, NormPath, NormPaths, Store, is_file, names_in};
use std::alloc::{AllocError, Global};

/// The folder of every registry and the path of every packed file, by the order of the depots and then by the bytes of
/// the names. A registry is a folder in a depot's folder `registries` that has a file `Registry.toml`, a packed one a
/// file there whose name ends in `.tar.gz`; all else is passed over. No file is read. (Pkg, Registries.)
///
/// Errors: ReadFault, where the store can't list a folder or tell what is at a path, and want of memory.
pub fn registries<S: Store>(
    alloc: Global,
    store: &mut S,
    depots: &NormPaths,
) -> Result<Registries, RegFault>
    ensures told { IfSome (S.files store.old) (λ all. IfOk result (AreRegistries all depots.now.items)) }
    ensures refused { IfErr result (OnlyReadFault (S.read_faults store.old) (S.read_faults store.new)) }
    ensures files { S.files store.new ≡ S.files store.old }
    ensures later { S.read_faults store.old ≤ S.read_faults store.new }
    ensures other { S.write_faults store.new ≡ S.write_faults store.old }
{
    let mut found = Registries {
        folders: NormPaths::make(alloc),
        packed: NormPaths::make(alloc),
    };
    add_depots(alloc, store, depots.items(), &mut found)?;
    Ok(found)
}

fn add_depots<S: Store>(
    alloc: Global,
    store: &mut S,
    depots: &[NormPath],
    found: &mut Registries,
) -> Result<(), RegFault>
    ensures told { IfSome (S.files store.old) (λ all. OnOk result (Adds (spec.folders all depots.now) (spec.packed all depots.now) found.old found.new)) }
    ensures refused { IfErr result (OnlyReadFault (S.read_faults store.old) (S.read_faults store.new)) }
    ensures files { S.files store.new ≡ S.files store.old }
    ensures later { S.read_faults store.old ≤ S.read_faults store.new }
    ensures other { S.write_faults store.new ≡ S.write_faults store.old }
{
    'depots: for depot in depots {
        add_depot(alloc, store, depot, found)?;
    }
    Ok(())
}

fn add_depot<S: Store>(
    alloc: Global,
    store: &mut S,
    depot: &NormPath,
    found: &mut Registries,
) -> Result<(), RegFault>
    ensures told { IfSome (S.files store.old) (λ all. OnOk result (Adds
        (filter (spec.is_registry all) (spec.in_folder all (spec.registries_of depot.now)))
        (filter (spec.is_packed all) (spec.in_folder all (spec.registries_of depot.now))) found.old found.new)) }
    ensures refused { IfErr result (OnlyReadFault (S.read_faults store.old) (S.read_faults store.new)) }
    ensures files { S.files store.new ≡ S.files store.old }
    ensures later { S.read_faults store.old ≤ S.read_faults store.new }
    ensures other { S.write_faults store.new ≡ S.write_faults store.old }
{
    let folder = depot.child(alloc, "registries")?;
    match names_in(alloc, store, &folder) {
        Ok(Some(names)) => add_names(alloc, store, &folder, names.items(), found),
        Ok(None) => Ok(()),
        Err(unread) => Err(RegFault::from(unread)),
    }
}

fn add_names<S: Store>(
    alloc: Global,
    store: &mut S,
    folder: &NormPath,
    names: &[Name],
    found: &mut Registries,
) -> Result<(), RegFault>
    ensures told { IfSome (S.files store.old) (λ all. OnOk result (Adds
        (filter (spec.is_registry all) (spec.children folder.now names.now))
        (filter (spec.is_packed all) (spec.children folder.now names.now)) found.old found.new)) }
    ensures refused { IfErr result (OnlyReadFault (S.read_faults store.old) (S.read_faults store.new)) }
    ensures files { S.files store.new ≡ S.files store.old }
    ensures later { S.read_faults store.old ≤ S.read_faults store.new }
    ensures other { S.write_faults store.new ≡ S.write_faults store.old }
{
    'names: for name in names {
        add_name(alloc, store, folder, name, found)?;
    }
    Ok(())
}

fn add_name<S: Store>(
    alloc: Global,
    store: &mut S,
    folder: &NormPath,
    name: &Name,
    found: &mut Registries,
) -> Result<(), RegFault>
    ensures told { IfSome (S.files store.old) (λ all. OnOk result (Adds
        (filter (spec.is_registry all) (spec.children folder.now (name.now ∷ [])))
        (filter (spec.is_packed all) (spec.children folder.now (name.now ∷ []))) found.old found.new)) }
    ensures refused { IfErr result (OnlyReadFault (S.read_faults store.old) (S.read_faults store.new)) }
    ensures files { S.files store.new ≡ S.files store.old }
    ensures later { S.read_faults store.old ≤ S.read_faults store.new }
    ensures other { S.write_faults store.new ≡ S.write_faults store.old }
{
    if is_plain(name.as_str()) {
        let path = folder.child(alloc, name.as_str())?;
        add_path(alloc, store, &path, found)
    } else {
        Ok(())
    }
}

fn add_path<S: Store>(
    alloc: Global,
    store: &mut S,
    path: &NormPath,
    found: &mut Registries,
) -> Result<(), RegFault>
    ensures told { IfSome (S.files store.old) (λ all. OnOk result (Adds
        (filter (spec.is_registry all) (path.now ∷ [])) (filter (spec.is_packed all) (path.now ∷ [])) found.old found.new)) }
    ensures refused { IfErr result (OnlyReadFault (S.read_faults store.old) (S.read_faults store.new)) }
    ensures files { S.files store.new ≡ S.files store.old }
    ensures later { S.read_faults store.old ≤ S.read_faults store.new }
    ensures other { S.write_faults store.new ≡ S.write_faults store.old }
{
    let folder = is_registry(alloc, store, path)?;
    let packed = is_packed(alloc, store, path)?;
    add_if(alloc, &mut found.folders, path, folder)?;
    add_if(alloc, &mut found.packed, path, packed)?;
    Ok(())
}

/// Whether a folder is a registry.
fn is_registry<S: Store>(alloc: Global, store: &mut S, folder: &NormPath) -> Result<bool, RegFault>
    ensures told { IfSome (S.files store.old) (λ all. IfOk result (λ found. found ≡ spec.is_registry all folder.now)) }
    ensures refused { IfErr result (OnlyReadFault (S.read_faults store.old) (S.read_faults store.new)) }
    ensures files { S.files store.new ≡ S.files store.old }
    ensures later { S.read_faults store.old ≤ S.read_faults store.new }
    ensures other { S.write_faults store.new ≡ S.write_faults store.old }
{
    let file = folder.child(alloc, "Registry.toml")?;
    match is_file(alloc, store, &file) {
        Ok(found) => Ok(found),
        Err(unread) => Err(RegFault::from(unread)),
    }
}

/// Whether a path is a packed registry.
fn is_packed<S: Store>(alloc: Global, store: &mut S, path: &NormPath) -> Result<bool, RegFault>
    ensures told { IfSome (S.files store.old) (λ all. IfOk result (λ found. found ≡ spec.is_packed all path.now)) }
    ensures refused { IfErr result (OnlyReadFault (S.read_faults store.old) (S.read_faults store.new)) }
    ensures files { S.files store.new ≡ S.files store.old }
    ensures later { S.read_faults store.old ≤ S.read_faults store.new }
    ensures other { S.write_faults store.new ≡ S.write_faults store.old }
{
    if !path.last_ends_in(".tar.gz") {
        return Ok(false);
    }
    match is_file(alloc, store, path) {
        Ok(found) => Ok(found),
        Err(unread) => Err(RegFault::from(unread)),
    }
}

/// Appends the path where it counts.
fn add_if(
    alloc: Global,
    paths: &mut NormPaths,
    path: &NormPath,
    counts: bool,
) -> Result<(), AllocError>
    ensures { OnOk result (paths.new.items ≡ paths.old.items ++ filter (λ _. counts) (path.now ∷ [])) }
{
    if counts {
        paths.push(path.copy(alloc)?)?;
    }
    Ok(())
}

/// Whether a name is a part of a path.
fn is_plain(name: &str) -> bool
    ensures { result ≡ is_part name.now }
{
    !(name.is_empty() || name == "." || name == "..") && has_no_slash(name.as_bytes())
}

fn has_no_slash(name: &[u8]) -> bool
    ensures { result ≡ list_all (λ b. not (b == 47)) name.now }
{
    name.iter().all(|b| *b != b'/')
}
