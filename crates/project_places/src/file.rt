//! The two files of a project, read from a store.
ghost use Rattle.std.specs.Prelude.{◌≡◌, ◌≤◌, IfSome, IfOk, IfErr};
ghost use Rattle.pkg_world.specs.Tree.{holds};
ghost use Rattle.toml.specs.View.{table_view};
ghost use Rattle.project_file.specs.Keys.{IsPlain};
ghost use Rattle.project_file.specs.Projects as projects;
ghost use Rattle.manifest_file.specs.Saying as manifests;
ghost use Rattle.project_places.specs.Files.{at_file, project_in, manifest_in, some_of, LoadsProject, LoadsManifest, RefusesFile, RefusesBy, manifest_cause};
ghost use Rattle.project_places.specs.Faults.{NoReadFault, ReadFaultRose};

use crate::fault::EnvFault;
use manifest_file::{Manifest, ManifestFault, Stanzas};
use pkg_world::{Cause, Duplicate, NormPath, Store, Unread, file_at};
use project_file::{Project, ProjectFault};
use std::alloc::{AllocError, Global};

/// The project of the file at a path; None exactly where no file is there.
///
/// Errors: BadFile with the cause of `Project::read`; ReadFault, where the store can't read; want of memory.
pub fn project_at<S: Store>(
    alloc: Global,
    store: &mut S,
    file: &NormPath,
) -> Result<Option<Project>, EnvFault>
    ensures told { IfSome (S.files store.old) (λ all. LoadsProject (at_file file.now (project_in (holds file.now all))) result) }
    // `to_table` takes the project.
    ensures plain { IfOk result (λ found. IfSome found (λ project. IsPlain (table_view project.rest))) }
    ensures fault { IfErr result (ReadFaultRose (S.read_faults store.old) (S.read_faults store.new)) }
    ensures files { S.files store.new ≡ S.files store.old }
    ensures later { S.read_faults store.old ≤ S.read_faults store.new }
    ensures other { S.write_faults store.new ≡ S.write_faults store.old }
{
    match file_at(alloc, store, file) {
        Ok(Some(bytes)) => project_of(alloc, file, bytes.items()),
        Ok(None) => Ok(None),
        Err(Unread::Failed(path)) => Err(EnvFault::ReadFault(path)),
        Err(Unread::Memory) => Err(EnvFault::Memory),
    }
}

fn project_of(alloc: Global, file: &NormPath, bytes: &[u8]) -> Result<Option<Project>, EnvFault>
    ensures told { LoadsProject (at_file file.now (some_of (projects.read_of bytes.now))) result }
    ensures plain { IfOk result (λ found. IfSome found (λ project. IsPlain (table_view project.rest))) }
    ensures fault { IfErr result NoReadFault }
{
    match Project::read(alloc, bytes) {
        Ok(project) => Ok(Some(project)),
        Err(ProjectFault::BadToml) => Err(bad_file(alloc, file, Cause::BadToml)),
        Err(ProjectFault::Deep) => Err(bad_file(alloc, file, Cause::Deep)),
        Err(ProjectFault::BadShape(keys)) => Err(bad_file(alloc, file, Cause::BadShape(keys))),
        Err(ProjectFault::BadVersion(keys, place)) => {
            Err(bad_file(alloc, file, Cause::BadVersion(keys, place)))
        }
        Err(ProjectFault::BadSpec(keys, place)) => {
            Err(bad_file(alloc, file, Cause::BadSpec(keys, place)))
        }
        Err(ProjectFault::Memory) => Err(EnvFault::Memory),
    }
}

/// The manifest of the file at a path; an empty one exactly where no file is there.
///
/// Errors: BadFile with the cause of `Manifest::read`; ReadFault, where the store can't read; want of memory.
pub fn manifest_at<S: Store>(
    alloc: Global,
    store: &mut S,
    file: &NormPath,
) -> Result<Manifest, EnvFault>
    ensures told { IfSome (S.files store.old) (λ all. LoadsManifest (at_file file.now (manifest_in (holds file.now all))) result) }
    ensures fault { IfErr result (ReadFaultRose (S.read_faults store.old) (S.read_faults store.new)) }
    ensures files { S.files store.new ≡ S.files store.old }
    ensures later { S.read_faults store.old ≤ S.read_faults store.new }
    ensures other { S.write_faults store.new ≡ S.write_faults store.old }
{
    match file_at(alloc, store, file) {
        Ok(Some(bytes)) => manifest_of(alloc, file, bytes.items()),
        Ok(None) => Ok(Manifest {
            julia_version: None,
            stanzas: Stanzas::make(alloc),
        }),
        Err(Unread::Failed(path)) => Err(EnvFault::ReadFault(path)),
        Err(Unread::Memory) => Err(EnvFault::Memory),
    }
}

fn manifest_of(alloc: Global, file: &NormPath, bytes: &[u8]) -> Result<Manifest, EnvFault>
    ensures told { LoadsManifest (at_file file.now (manifests.read_of bytes.now)) result }
    ensures fault { IfErr result NoReadFault }
{
    match Manifest::read(alloc, bytes) {
        Ok(manifest) => Ok(manifest),
        Err(fault) => Err(manifest_refused(alloc, file, &fault)),
    }
}

/// The refusal of a manifest, or want of memory.
fn manifest_refused(alloc: Global, file: &NormPath, fault: &ManifestFault) -> EnvFault
    ensures told { RefusesBy file.now (manifest_cause fault.now) result }
    ensures fault { NoReadFault result }
{
    match manifest_cause(alloc, fault) {
        Ok(Some(cause)) => bad_file(alloc, file, cause),
        Ok(None) => EnvFault::Memory,
        Err(_) => EnvFault::Memory,
    }
}

/// The cause that a fault names; want of memory names none.
fn manifest_cause(alloc: Global, fault: &ManifestFault) -> Result<Option<Cause>, AllocError>
    ensures { IfOk result (λ cause. cause ≡ manifest_cause fault.now) }
{
    let cause = match fault {
        ManifestFault::BadToml => Cause::BadToml,
        ManifestFault::Deep => Cause::Deep,
        ManifestFault::BadShape(keys) => Cause::BadShape(keys.copy(alloc)?),
        ManifestFault::BadVersion(keys, place) => Cause::BadVersion(keys.copy(alloc)?, *place),
        ManifestFault::SameUuid(id) => Cause::SameUuid(*id),
        ManifestFault::Dangling(from, name) => {
            Cause::Dangling(from.copy(alloc)?, name.copy(alloc)?)
        }
        ManifestFault::Unclear(from, name) => Cause::Unclear(from.copy(alloc)?, name.copy(alloc)?),
        ManifestFault::Memory => return Ok(None),
    };
    Ok(Some(cause))
}

/// The refusal of a file for that cause, or want of memory.
pub fn bad_file(alloc: Global, file: &NormPath, cause: Cause) -> EnvFault
    ensures { RefusesFile file.now cause result }
{
    match file.copy(alloc) {
        Ok(path) => EnvFault::BadFile(path, cause),
        Err(_) => EnvFault::Memory,
    }
}
