//! The two files of the active project.
ghost use Rattle.std.specs.Prelude.{◌≡◌, ◌≤◌, Ok, IfSome, IfErr, MatchResult};
ghost use Rattle.project_file.specs.Said.{said as said_project};
ghost use Rattle.manifest_file.specs.Said.{said as said_manifest};
ghost use Rattle.home_commands.specs.Home.{both_in, both_at as both_meant, both_with as with_meant, manifest_of as manifest_meant, manifest_at as told_at, seen_both};
ghost use Rattle.command_answers.specs.Answers.{Refuses, ReadFaultRose, IsLate, IsUnprinted};

use command_answers::Status;
use manifest_file::{Manifest, Stanzas};
use pkg_world::{NameIds, NormPath, Place, Store};
use project_file::Project;
use project_places::{EnvFault, active_project, manifest_at, manifest_path, project_at};
use std::alloc::Global;

/// Where the project file of the active project is, the dependencies that it names, and the stanzas of the manifest.
#[derive(Drop)]
pub(crate) struct Both {
    pub file: NormPath,
    pub deps: NameIds,
    pub stanzas: Stanzas,
}

/// The two files of the active project. A missing project file is MissingFile, a missing manifest is empty.
pub(crate) fn both_files<S: Store>(
    alloc: Global,
    store: &mut S,
    place: &Place,
) -> Result<Both, Status>
    ensures told { IfSome (S.files store.old) (λ all. MatchResult result (λ both. both_in all place.now ≡ Ok (seen_both both)) (Refuses (both_in all place.now))) }
    ensures late { IfErr result IsLate }
    ensures unprinted { IfErr result IsUnprinted }
    ensures fault { IfErr result (ReadFaultRose (S.read_faults store.old) (S.read_faults store.new)) }
    ensures files { S.files store.new ≡ S.files store.old }
    ensures later { S.read_faults store.old ≤ S.read_faults store.new }
    ensures other { S.write_faults store.new ≡ S.write_faults store.old }
{
    match active_project(alloc, store, place) {
        Ok(file) => both_at(alloc, store, place, file),
        Err(EnvFault::ReadFault(path)) => Err(Status::ReadFault(path)),
        Err(EnvFault::BadFile(..)) => unreachable!(),
        Err(EnvFault::Memory) => Err(Status::Memory),
    }
}

fn both_at<S: Store>(
    alloc: Global,
    store: &mut S,
    place: &Place,
    file: NormPath,
) -> Result<Both, Status>
    ensures told { IfSome (S.files store.old) (λ all. MatchResult result (λ both. both_meant all file ≡ Ok (seen_both both)) (Refuses (both_meant all file))) }
    ensures late { IfErr result IsLate }
    ensures unprinted { IfErr result IsUnprinted }
    ensures fault { IfErr result (ReadFaultRose (S.read_faults store.old) (S.read_faults store.new)) }
    ensures files { S.files store.new ≡ S.files store.old }
    ensures later { S.read_faults store.old ≤ S.read_faults store.new }
    ensures other { S.write_faults store.new ≡ S.write_faults store.old }
{
    match project_at(alloc, store, &file) {
        Ok(Some(project)) => both_with(alloc, store, place, file, project),
        Ok(None) => Err(Status::MissingFile(file)),
        Err(EnvFault::ReadFault(path)) => Err(Status::ReadFault(path)),
        Err(EnvFault::BadFile(path, cause)) => Err(Status::BadFile(path, cause)),
        Err(EnvFault::Memory) => Err(Status::Memory),
    }
}

#[tactic(auto, unfolding(project_file::specs::Said::said))]
fn both_with<S: Store>(
    alloc: Global,
    store: &mut S,
    place: &Place,
    file: NormPath,
    project: Project,
) -> Result<Both, Status>
    ensures told { IfSome (S.files store.old) (λ all. MatchResult result (λ both. with_meant all file (said_project project) ≡ Ok (seen_both both)) (Refuses (with_meant all file (said_project project)))) }
    ensures late { IfErr result IsLate }
    ensures unprinted { IfErr result IsUnprinted }
    ensures fault { IfErr result (ReadFaultRose (S.read_faults store.old) (S.read_faults store.new)) }
    ensures files { S.files store.new ≡ S.files store.old }
    ensures later { S.read_faults store.old ≤ S.read_faults store.new }
    ensures other { S.write_faults store.new ≡ S.write_faults store.old }
{
    let found = manifest_of(alloc, store, place, &file, &project);
    let deps = deps_of(project);
    match found {
        Ok(manifest) => Ok(Both {
            file,
            deps,
            stanzas: stanzas_of(manifest),
        }),
        Err(status) => Err(status),
    }
}

/// The dependencies of a project; the rest of it is let go.
fn deps_of(project: Project) -> NameIds
    ensures { result ≡ project.deps }
{
    let Project { deps, .. } = project;
    deps
}

/// The stanzas of a manifest; the rest of it is let go.
fn stanzas_of(manifest: Manifest) -> Stanzas
    ensures { result ≡ manifest.stanzas }
{
    let Manifest { stanzas, .. } = manifest;
    stanzas
}

/// The manifest of a project: an empty one where its file is not there.
#[tactic(auto, unfolding(project_file::specs::Said::said))]
fn manifest_of<S: Store>(
    alloc: Global,
    store: &mut S,
    place: &Place,
    file: &NormPath,
    project: &Project,
) -> Result<Manifest, Status>
    ensures told { IfSome (S.files store.old) (λ all. MatchResult result (λ manifest. manifest_meant all file.now (said_project project.now) ≡ Ok (said_manifest manifest)) (Refuses (manifest_meant all file.now (said_project project.now)))) }
    ensures late { IfErr result IsLate }
    ensures unprinted { IfErr result IsUnprinted }
    ensures fault { IfErr result (ReadFaultRose (S.read_faults store.old) (S.read_faults store.new)) }
    ensures files { S.files store.new ≡ S.files store.old }
    ensures later { S.read_faults store.old ≤ S.read_faults store.new }
    ensures other { S.write_faults store.new ≡ S.write_faults store.old }
{
    match manifest_path(alloc, store, place, file, project) {
        Ok(path) => manifest_in(alloc, store, &path),
        Err(EnvFault::ReadFault(path)) => Err(Status::ReadFault(path)),
        Err(EnvFault::BadFile(path, cause)) => Err(Status::BadFile(path, cause)),
        Err(EnvFault::Memory) => Err(Status::Memory),
    }
}

fn manifest_in<S: Store>(alloc: Global, store: &mut S, path: &NormPath) -> Result<Manifest, Status>
    ensures told { IfSome (S.files store.old) (λ all. MatchResult result (λ manifest. told_at all path.now ≡ Ok (said_manifest manifest)) (Refuses (told_at all path.now))) }
    ensures late { IfErr result IsLate }
    ensures unprinted { IfErr result IsUnprinted }
    ensures fault { IfErr result (ReadFaultRose (S.read_faults store.old) (S.read_faults store.new)) }
    ensures files { S.files store.new ≡ S.files store.old }
    ensures later { S.read_faults store.old ≤ S.read_faults store.new }
    ensures other { S.write_faults store.new ≡ S.write_faults store.old }
{
    match manifest_at(alloc, store, path) {
        Ok(manifest) => Ok(manifest),
        Err(EnvFault::ReadFault(path)) => Err(Status::ReadFault(path)),
        Err(EnvFault::BadFile(path, cause)) => Err(Status::BadFile(path, cause)),
        Err(EnvFault::Memory) => Err(Status::Memory),
    }
}
