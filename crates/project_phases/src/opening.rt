//! Reading the files of a command.
ghost use Rattle.std.specs.Prelude.{◌≡◌, ◌≤◌, Ok, IfSome, IfOk, IfErr, MatchResult};
ghost use Rattle.toml.specs.View.{table_view};
ghost use Rattle.project_file.specs.Keys.{IsPlain};
ghost use Rattle.home_files.specs.HomeFiles.{seen as seen_files};
ghost use Rattle.command_answers.specs.Answers.{Refuses, ReadFaultRose, IsLate, IsUnprinted};
ghost use Rattle.project_phases.specs.Phases as spec;

use crate::refusals::book_status;
use command_answers::Status;
use home_files::{HomeFiles, begun_files, project_files};
use manifest_file::Manifest;
use offer_catalog::Catalog;
use pkg_world::{Place, Store};
use project_file::Project;
use registry_tables::RegFault;
use std::alloc::Global;

/// The catalog of a command, and what the project's two files say before its edit.
#[derive(Drop)]
pub struct Opened {
    pub catalog: Catalog,
    pub project: Project,
    pub manifest: Manifest,
}

/// What the files of the active project and of its catalog say. The project file must be there, and the manifest where it is
/// needed; one that isn't needed and isn't there is empty.
///
/// Refusals, of which the first that is due comes: MissingFile and BadFile of the project file, the manifest, and the files
/// of the catalog. ReadFault comes where the store fails, and want of memory is free.
pub fn open_project<S: Store>(
    alloc: Global,
    place: &Place,
    needed: bool,
    store: &mut S,
) -> Result<Opened, Status>
    ensures told { IfSome (S.files store.old) (λ all. MatchResult result
        (λ it. spec.opened_in needed all place.now ≡ Ok (spec.seen it))
        (Refuses (spec.opened_in needed all place.now))) }
    // `to_table` takes the project.
    ensures plain { IfOk result (λ it. IsPlain (table_view it.project.rest)) }
    ensures late { IfErr result IsLate }
    ensures unprinted { IfErr result IsUnprinted }
    ensures fault { IfErr result (ReadFaultRose (S.read_faults store.old) (S.read_faults store.new)) }
    ensures files { S.files store.new ≡ S.files store.old }
    ensures later { S.read_faults store.old ≤ S.read_faults store.new }
    ensures other { S.write_faults store.new ≡ S.write_faults store.old }
{
    match project_files(alloc, store, place, needed) {
        Ok(files) => of_files(alloc, place, store, files),
        Err(RegFault::ReadFault(path)) => Err(Status::ReadFault(path)),
        Err(RegFault::MissingFile(path)) => Err(Status::MissingFile(path)),
        Err(RegFault::BadFile(path, cause)) => Err(Status::BadFile(path, cause)),
        Err(RegFault::Memory) => Err(Status::Memory),
    }
}

/// What the files of the active project and of its catalog say, where the project file is empty if it isn't there, and the
/// manifest too.
///
/// Refusals, of which the first that is due comes: BadFile of the project file and the manifest, and MissingFile and BadFile of
/// the files of the catalog. ReadFault comes where the store fails, and want of memory is free.
pub fn begin_project<S: Store>(
    alloc: Global,
    place: &Place,
    store: &mut S,
) -> Result<Opened, Status>
    ensures told { IfSome (S.files store.old) (λ all. MatchResult result
        (λ it. spec.begun_in all place.now ≡ Ok (spec.seen it))
        (Refuses (spec.begun_in all place.now))) }
    ensures plain { IfOk result (λ it. IsPlain (table_view it.project.rest)) }
    ensures late { IfErr result IsLate }
    ensures unprinted { IfErr result IsUnprinted }
    ensures fault { IfErr result (ReadFaultRose (S.read_faults store.old) (S.read_faults store.new)) }
    ensures files { S.files store.new ≡ S.files store.old }
    ensures later { S.read_faults store.old ≤ S.read_faults store.new }
    ensures other { S.write_faults store.new ≡ S.write_faults store.old }
{
    match begun_files(alloc, store, place) {
        Ok(files) => of_files(alloc, place, store, files),
        Err(RegFault::ReadFault(path)) => Err(Status::ReadFault(path)),
        Err(RegFault::MissingFile(path)) => Err(Status::MissingFile(path)),
        Err(RegFault::BadFile(path, cause)) => Err(Status::BadFile(path, cause)),
        Err(RegFault::Memory) => Err(Status::Memory),
    }
}

/// The same of the project's two files, with the catalog of their place.
fn of_files<S: Store>(
    alloc: Global,
    place: &Place,
    store: &mut S,
    files: HomeFiles,
) -> Result<Opened, Status>
    requires { IsPlain (table_view files.project.rest) }
    ensures told { IfSome (S.files store.old) (λ all. MatchResult result
        (λ it. spec.with_files all place.now (seen_files files) ≡ Ok (spec.seen it))
        (Refuses (spec.with_files all place.now (seen_files files)))) }
    ensures plain { IfOk result (λ it. IsPlain (table_view it.project.rest)) }
    ensures late { IfErr result IsLate }
    ensures unprinted { IfErr result IsUnprinted }
    ensures fault { IfErr result (ReadFaultRose (S.read_faults store.old) (S.read_faults store.new)) }
    ensures files { S.files store.new ≡ S.files store.old }
    ensures later { S.read_faults store.old ≤ S.read_faults store.new }
    ensures other { S.write_faults store.new ≡ S.write_faults store.old }
{
    let HomeFiles {
        home,
        project,
        manifest,
    } = files;
    match Catalog::load(alloc, store, place, &home, &project, &manifest) {
        Ok(catalog) => Ok(Opened {
            catalog,
            project,
            manifest,
        }),
        Err(fault) => Err(book_status(fault)),
    }
}
