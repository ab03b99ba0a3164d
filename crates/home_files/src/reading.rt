//! Reading the two files of the active project.
ghost use Rattle.std.specs.Prelude.{◌≡◌, ◌≤◌, Ok, IfSome, IfOk, IfErr, MatchResult};
ghost use Rattle.toml.specs.View.{table_view};
ghost use Rattle.project_file.specs.Keys.{IsPlain};
ghost use Rattle.project_file.specs.Said.{said as said_project};
ghost use Rattle.manifest_file.specs.Said.{said as said_manifest};
ghost use Rattle.registry_tables.specs.Answers.{Refuses, ReadFaultRose};
ghost use Rattle.home_files.specs.HomeFiles as spec;

use manifest_file::Manifest;
use pkg_world::{Duplicate, Home, NormPath, Place, Store};
use project_file::Project;
use project_places::{EnvFault, active_project, is_there, manifest_at, manifest_path, project_at};
use registry_tables::RegFault;
use std::alloc::Global;

/// The two files of the active project: where they lie, and what they say.
#[derive(Drop)]
pub struct HomeFiles {
    pub home: Home,
    pub project: Project,
    pub manifest: Manifest,
}

/// The two files of the active project, both of which must be there: the project file is read, then the manifest. (Pkg,
/// Project.toml and Manifest.toml; where they lie: Julia manual, Code Loading.)
///
/// Errors: MissingFile and BadFile of the first of the two that isn't there or is refused; ReadFault, where the store can't
/// read; want of memory.
pub fn home_files<S: Store>(
    alloc: Global,
    store: &mut S,
    place: &Place,
) -> Result<HomeFiles, RegFault>
    ensures told { IfSome (S.files store.old) (λ all. MatchResult result (λ it. spec.home_files all place.now ≡ Ok (spec.seen it)) (Refuses (spec.home_files all place.now))) }
    ensures plain { IfOk result (λ it. IsPlain (table_view it.project.rest)) }
    ensures fault { IfErr result (ReadFaultRose (S.read_faults store.old) (S.read_faults store.new)) }
    ensures files { S.files store.new ≡ S.files store.old }
    ensures later { S.read_faults store.old ≤ S.read_faults store.new }
    ensures other { S.write_faults store.new ≡ S.write_faults store.old }
{
    project_files(alloc, store, place, true)
}

/// The two files of the active project, of which the project file must be there, and the manifest where it is needed: the
/// project file is read, then the manifest; one that isn't needed and isn't there is empty. (Pkg, Project.toml and
/// Manifest.toml; where they lie: Julia manual, Code Loading.)
///
/// Errors: MissingFile and BadFile of the first of the two that must be there and isn't, or is refused; ReadFault, where the
/// store can't read; want of memory.
pub fn project_files<S: Store>(
    alloc: Global,
    store: &mut S,
    place: &Place,
    needed: bool,
) -> Result<HomeFiles, RegFault>
    ensures told { IfSome (S.files store.old) (λ all. MatchResult result (λ it. spec.project_files needed all place.now ≡ Ok (spec.seen it)) (Refuses (spec.project_files needed all place.now))) }
    ensures plain { IfOk result (λ it. IsPlain (table_view it.project.rest)) }
    ensures fault { IfErr result (ReadFaultRose (S.read_faults store.old) (S.read_faults store.new)) }
    ensures files { S.files store.new ≡ S.files store.old }
    ensures later { S.read_faults store.old ≤ S.read_faults store.new }
    ensures other { S.write_faults store.new ≡ S.write_faults store.old }
{
    match active_project(alloc, store, place) {
        Ok(file) => at_file(alloc, store, place, file, needed),
        Err(EnvFault::ReadFault(path)) => Err(RegFault::ReadFault(path)),
        Err(EnvFault::BadFile(..)) => unreachable!(),
        Err(EnvFault::Memory) => Err(RegFault::Memory),
    }
}

/// The two files of the active project, each of which is empty where it isn't there: the project file is read, then the manifest.
/// Its path is that of the file that is to be made. (Pkg, Project.toml and Manifest.toml; where they lie: Julia manual, Code
/// Loading.)
///
/// Errors: BadFile of the first of the two that is refused; ReadFault, where the store can't read; want of memory.
pub fn begun_files<S: Store>(
    alloc: Global,
    store: &mut S,
    place: &Place,
) -> Result<HomeFiles, RegFault>
    ensures told { IfSome (S.files store.old) (λ all. MatchResult result (λ it. spec.begun_files all place.now ≡ Ok (spec.seen it)) (Refuses (spec.begun_files all place.now))) }
    ensures plain { IfOk result (λ it. IsPlain (table_view it.project.rest)) }
    ensures fault { IfErr result (ReadFaultRose (S.read_faults store.old) (S.read_faults store.new)) }
    ensures files { S.files store.new ≡ S.files store.old }
    ensures later { S.read_faults store.old ≤ S.read_faults store.new }
    ensures other { S.write_faults store.new ≡ S.write_faults store.old }
{
    match active_project(alloc, store, place) {
        Ok(file) => begun_at(alloc, store, place, file),
        Err(EnvFault::ReadFault(path)) => Err(RegFault::ReadFault(path)),
        Err(EnvFault::BadFile(..)) => unreachable!(),
        Err(EnvFault::Memory) => Err(RegFault::Memory),
    }
}

fn begun_at<S: Store>(
    alloc: Global,
    store: &mut S,
    place: &Place,
    file: NormPath,
) -> Result<HomeFiles, RegFault>
    ensures told { IfSome (S.files store.old) (λ all. MatchResult result (λ it. spec.begun_at all file ≡ Ok (spec.seen it)) (Refuses (spec.begun_at all file))) }
    ensures plain { IfOk result (λ it. IsPlain (table_view it.project.rest)) }
    ensures fault { IfErr result (ReadFaultRose (S.read_faults store.old) (S.read_faults store.new)) }
    ensures files { S.files store.new ≡ S.files store.old }
    ensures later { S.read_faults store.old ≤ S.read_faults store.new }
    ensures other { S.write_faults store.new ≡ S.write_faults store.old }
{
    match project_or_empty(alloc, store, &file) {
        Ok(project) => with_project(alloc, store, place, file, project, false),
        Err(fault) => Err(fault),
    }
}

/// The project of the file at a path; one that isn't there is empty.
fn project_or_empty<S: Store>(
    alloc: Global,
    store: &mut S,
    file: &NormPath,
) -> Result<Project, RegFault>
    ensures told { IfSome (S.files store.old) (λ all. MatchResult result (λ project. spec.project_or_empty all file.now ≡ Ok (said_project project)) (Refuses (spec.project_or_empty all file.now))) }
    ensures plain { IfOk result (λ project. IsPlain (table_view project.rest)) }
    ensures fault { IfErr result (ReadFaultRose (S.read_faults store.old) (S.read_faults store.new)) }
    ensures files { S.files store.new ≡ S.files store.old }
    ensures later { S.read_faults store.old ≤ S.read_faults store.new }
    ensures other { S.write_faults store.new ≡ S.write_faults store.old }
{
    match project_at(alloc, store, file) {
        Ok(Some(project)) => Ok(project),
        Ok(None) => Ok(empty_project(alloc)),
        Err(EnvFault::ReadFault(path)) => Err(RegFault::ReadFault(path)),
        Err(EnvFault::BadFile(path, cause)) => Err(RegFault::BadFile(path, cause)),
        Err(EnvFault::Memory) => Err(RegFault::Memory),
    }
}

/// The project of a file that isn't there.
#[tactic(auto, unfolding(project_file::specs::Said::said, project_file::specs::Projects::project_of))]
fn empty_project(alloc: Global) -> Project
    ensures said { said_project result ≡ spec.empty_project }
    ensures plain { IsPlain (table_view result.rest) }
{
    Project::empty(alloc)
}

fn at_file<S: Store>(
    alloc: Global,
    store: &mut S,
    place: &Place,
    file: NormPath,
    needed: bool,
) -> Result<HomeFiles, RegFault>
    ensures told { IfSome (S.files store.old) (λ all. MatchResult result (λ it. spec.at_file needed all file ≡ Ok (spec.seen it)) (Refuses (spec.at_file needed all file))) }
    ensures plain { IfOk result (λ it. IsPlain (table_view it.project.rest)) }
    ensures fault { IfErr result (ReadFaultRose (S.read_faults store.old) (S.read_faults store.new)) }
    ensures files { S.files store.new ≡ S.files store.old }
    ensures later { S.read_faults store.old ≤ S.read_faults store.new }
    ensures other { S.write_faults store.new ≡ S.write_faults store.old }
{
    match project_at(alloc, store, &file) {
        Ok(Some(project)) => with_project(alloc, store, place, file, project, needed),
        Ok(None) => Err(RegFault::MissingFile(file)),
        Err(EnvFault::ReadFault(path)) => Err(RegFault::ReadFault(path)),
        Err(EnvFault::BadFile(path, cause)) => Err(RegFault::BadFile(path, cause)),
        Err(EnvFault::Memory) => Err(RegFault::Memory),
    }
}

#[tactic(auto, unfolding(project_file::specs::Said::said))]
fn with_project<S: Store>(
    alloc: Global,
    store: &mut S,
    place: &Place,
    file: NormPath,
    project: Project,
    needed: bool,
) -> Result<HomeFiles, RegFault>
    requires { IsPlain (table_view project.rest) }
    ensures told { IfSome (S.files store.old) (λ all. MatchResult result (λ it. spec.with_project needed all file (said_project project) ≡ Ok (spec.seen it)) (Refuses (spec.with_project needed all file (said_project project)))) }
    ensures plain { IfOk result (λ it. IsPlain (table_view it.project.rest)) }
    ensures fault { IfErr result (ReadFaultRose (S.read_faults store.old) (S.read_faults store.new)) }
    ensures files { S.files store.new ≡ S.files store.old }
    ensures later { S.read_faults store.old ≤ S.read_faults store.new }
    ensures other { S.write_faults store.new ≡ S.write_faults store.old }
{
    match manifest_path(alloc, store, place, &file, &project) {
        Ok(path) => with_manifest(alloc, store, file, project, path, needed),
        Err(EnvFault::ReadFault(path)) => Err(RegFault::ReadFault(path)),
        Err(EnvFault::BadFile(path, cause)) => Err(RegFault::BadFile(path, cause)),
        Err(EnvFault::Memory) => Err(RegFault::Memory),
    }
}

fn with_manifest<S: Store>(
    alloc: Global,
    store: &mut S,
    file: NormPath,
    project: Project,
    path: NormPath,
    needed: bool,
) -> Result<HomeFiles, RegFault>
    requires { IsPlain (table_view project.rest) }
    ensures told { IfSome (S.files store.old) (λ all. MatchResult result (λ it. spec.with_manifest needed all file (said_project project) path ≡ Ok (spec.seen it)) (Refuses (spec.with_manifest needed all file (said_project project) path))) }
    ensures plain { IfOk result (λ it. IsPlain (table_view it.project.rest)) }
    ensures fault { IfErr result (ReadFaultRose (S.read_faults store.old) (S.read_faults store.new)) }
    ensures files { S.files store.new ≡ S.files store.old }
    ensures later { S.read_faults store.old ≤ S.read_faults store.new }
    ensures other { S.write_faults store.new ≡ S.write_faults store.old }
{
    match manifest_by(alloc, store, &path, needed) {
        Ok(manifest) => Ok(HomeFiles {
            home: Home {
                project: file,
                manifest: path,
            },
            project,
            manifest,
        }),
        Err(fault) => Err(fault),
    }
}

/// The manifest at a path, and whether it must be there; one that need not be there and isn't is empty.
fn manifest_by<S: Store>(
    alloc: Global,
    store: &mut S,
    path: &NormPath,
    needed: bool,
) -> Result<Manifest, RegFault>
    ensures told { IfSome (S.files store.old) (λ all. MatchResult result (λ manifest. spec.manifest_by needed all path.now ≡ Ok (said_manifest manifest)) (Refuses (spec.manifest_by needed all path.now))) }
    ensures fault { IfErr result (ReadFaultRose (S.read_faults store.old) (S.read_faults store.new)) }
    ensures files { S.files store.new ≡ S.files store.old }
    ensures later { S.read_faults store.old ≤ S.read_faults store.new }
    ensures other { S.write_faults store.new ≡ S.write_faults store.old }
{
    if needed {
        manifest_needed(alloc, store, path)
    } else {
        manifest_read(alloc, store, path)
    }
}

/// The manifest at a path, which must be there.
fn manifest_needed<S: Store>(
    alloc: Global,
    store: &mut S,
    path: &NormPath,
) -> Result<Manifest, RegFault>
    ensures told { IfSome (S.files store.old) (λ all. MatchResult result (λ manifest. spec.manifest_needed all path.now ≡ Ok (said_manifest manifest)) (Refuses (spec.manifest_needed all path.now))) }
    ensures fault { IfErr result (ReadFaultRose (S.read_faults store.old) (S.read_faults store.new)) }
    ensures files { S.files store.new ≡ S.files store.old }
    ensures later { S.read_faults store.old ≤ S.read_faults store.new }
    ensures other { S.write_faults store.new ≡ S.write_faults store.old }
{
    match is_there(alloc, store, path) {
        Ok(true) => manifest_read(alloc, store, path),
        Ok(false) => Err(missing(alloc, path)),
        Err(EnvFault::ReadFault(path)) => Err(RegFault::ReadFault(path)),
        Err(EnvFault::BadFile(..)) => unreachable!(),
        Err(EnvFault::Memory) => Err(RegFault::Memory),
    }
}

fn manifest_read<S: Store>(
    alloc: Global,
    store: &mut S,
    path: &NormPath,
) -> Result<Manifest, RegFault>
    ensures told { IfSome (S.files store.old) (λ all. MatchResult result (λ manifest. spec.manifest_read all path.now ≡ Ok (said_manifest manifest)) (Refuses (spec.manifest_read all path.now))) }
    ensures fault { IfErr result (ReadFaultRose (S.read_faults store.old) (S.read_faults store.new)) }
    ensures files { S.files store.new ≡ S.files store.old }
    ensures later { S.read_faults store.old ≤ S.read_faults store.new }
    ensures other { S.write_faults store.new ≡ S.write_faults store.old }
{
    match manifest_at(alloc, store, path) {
        Ok(manifest) => Ok(manifest),
        Err(EnvFault::ReadFault(path)) => Err(RegFault::ReadFault(path)),
        Err(EnvFault::BadFile(path, cause)) => Err(RegFault::BadFile(path, cause)),
        Err(EnvFault::Memory) => Err(RegFault::Memory),
    }
}

/// The fault of a file that isn't there, or want of memory.
fn missing(alloc: Global, path: &NormPath) -> RegFault
    ensures told { spec.IsMissing path.now result }
{
    match path.copy(alloc) {
        Ok(path) => RegFault::MissingFile(path),
        Err(_) => RegFault::Memory,
    }
}
