//! Where a project's manifest lies.
ghost use Rattle.std.specs.Prelude.{◌≡◌, ◌≤◌, Ok, Some, codes, IfSome, IfOk, IfErr};
ghost use Rattle.pkg_world.specs.Path.{joined};
ghost use Rattle.project_places.specs.ManifestPath as spec;
ghost use Rattle.project_places.specs.Files.{at_file, Loads, RefusesFile};
ghost use Rattle.project_places.specs.Faults.{NoReadFault, ReadFaultRose};

use crate::fault::EnvFault;
use crate::file::bad_file;
use crate::there::first_there;
use pkg_world::{Cause, Name, NormPath, PathFault, Place, Store, Text};
use project_file::Project;
use std::alloc::{AllocError, Global};

/// The path of a project's manifest, which need not be there: the one that the project names from its folder, else the
/// first that is there of `JuliaManifest.toml` and `Manifest.toml` beside the project file, else the latter. (Pkg,
/// Manifest.toml; the order of the two names is our own.)
///
/// Errors: BadFile of the project file with BadShape(manifest), exactly where the named path rises above the root or is
/// the project file itself; ReadFault, where the store can't tell what is there; want of memory.
pub fn manifest_path<S: Store>(
    alloc: Global,
    store: &mut S,
    _place: &Place,
    file: &NormPath,
    project: &Project,
) -> Result<NormPath, EnvFault>
    ensures told { IfSome (S.files store.old) (λ all. Loads (at_file file.now (spec.manifest_path all file.now project.now.manifest)) result) }
    ensures fault { IfErr result (ReadFaultRose (S.read_faults store.old) (S.read_faults store.new)) }
    ensures files { S.files store.new ≡ S.files store.old }
    ensures later { S.read_faults store.old ≤ S.read_faults store.new }
    ensures other { S.write_faults store.new ≡ S.write_faults store.old }
{
    by_text(alloc, store, file, &project.manifest)
}

fn by_text<S: Store>(
    alloc: Global,
    store: &mut S,
    file: &NormPath,
    text: &Option<Name>,
) -> Result<NormPath, EnvFault>
    ensures told { IfSome (S.files store.old) (λ all. Loads (at_file file.now (spec.manifest_path all file.now text.now)) result) }
    ensures fault { IfErr result (ReadFaultRose (S.read_faults store.old) (S.read_faults store.new)) }
    ensures files { S.files store.new ≡ S.files store.old }
    ensures later { S.read_faults store.old ≤ S.read_faults store.new }
    ensures other { S.write_faults store.new ≡ S.write_faults store.old }
{
    let folder = file.folder(alloc)?;
    match text {
        None => beside(alloc, store, file, &folder),
        Some(text) => named_manifest(alloc, file, &folder, text),
    }
}

/// The manifest beside a project file.
fn beside<S: Store>(
    alloc: Global,
    store: &mut S,
    file: &NormPath,
    folder: &NormPath,
) -> Result<NormPath, EnvFault>
    ensures told { IfSome (S.files store.old) (λ all. Loads (at_file file.now (Ok (spec.manifest_beside all folder.now))) result) }
    ensures fault { IfErr result (ReadFaultRose (S.read_faults store.old) (S.read_faults store.new)) }
    ensures files { S.files store.new ≡ S.files store.old }
    ensures later { S.read_faults store.old ≤ S.read_faults store.new }
    ensures other { S.write_faults store.new ≡ S.write_faults store.old }
{
    match first_there(alloc, store, folder, "JuliaManifest.toml", "Manifest.toml") {
        Ok(path) => Ok(path),
        Err(fault) => Err(fault),
    }
}

fn named_manifest(
    alloc: Global,
    file: &NormPath,
    folder: &NormPath,
    text: &Name,
) -> Result<NormPath, EnvFault>
    ensures told { Loads (at_file file.now (spec.apart file.now (joined folder.now text.now))) result }
    ensures fault { IfErr result NoReadFault }
{
    match NormPath::join(alloc, folder, text.as_str()) {
        Ok(path) => apart_from(alloc, file, path),
        Err(PathFault::Escapes) => Err(manifest_refused(alloc, file)),
        Err(PathFault::Memory) => Err(EnvFault::Memory),
    }
}

/// A manifest's path that is not the project file's own.
fn apart_from(alloc: Global, file: &NormPath, path: NormPath) -> Result<NormPath, EnvFault>
    ensures told { Loads (at_file file.now (spec.apart file.now (Some path))) result }
    ensures fault { IfErr result NoReadFault }
{
    if path.as_str() == file.as_str() {
        Err(manifest_refused(alloc, file))
    } else {
        Ok(path)
    }
}

/// The refusal of the key `manifest`, or want of memory.
fn manifest_refused(alloc: Global, file: &NormPath) -> EnvFault
    ensures told { RefusesFile file.now spec.manifest_refused result }
    ensures fault { NoReadFault result }
{
    match manifest_key(alloc) {
        Ok(keys) => bad_file(alloc, file, Cause::BadShape(keys)),
        Err(_) => EnvFault::Memory,
    }
}

fn manifest_key(alloc: Global) -> Result<Text, AllocError>
    ensures { IfOk result (λ keys. keys ≡ codes "manifest") }
{
    Text::of(alloc, "manifest")
}
