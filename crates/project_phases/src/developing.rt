//! The folder of a package that is to be developed.
ghost use Rattle.std.specs.Prelude.{◌≡◌, ◌≤◌, Ok, option_map, IfSome, IfErr, MatchResult};
ghost use Rattle.project_file.specs.Said.{said as said_project};
ghost use Rattle.pkg_commands.specs.Commands.{said_command};
ghost use Rattle.command_answers.specs.Answers.{Refuses, ReadFaultRose, IsLate, IsUnprinted, NoFault};
ghost use Rattle.project_phases.specs.Phases as spec;

use command_answers::Status;
use pkg_commands::Command;
use pkg_world::{NormPath, Store};
use project_file::Project;
use project_places::{EnvFault, file_in, project_at};
use std::alloc::Global;

/// What is to be done with a project.
#[derive(Drop)]
pub enum Wish {
    /// A command.
    Ready(Command),
    /// The package of this folder is to be developed.
    Develop(NormPath),
}

/// The command that is asked for: the project file of a folder that is to be developed is read.
///
/// Refusals, of which the first that is due comes: BadFile of that project file; NotAProject of the folder, where it has no
/// project file with both a name and an identifier. ReadFault comes where the store fails, and want of memory is free.
pub fn command_of<S: Store>(alloc: Global, store: &mut S, wish: Wish) -> Result<Command, Status>
    ensures told { IfSome (S.files store.old) (λ all. MatchResult result
        (λ command. spec.command_in all (spec.said_wish wish) ≡ Ok (said_command command))
        (Refuses (spec.command_in all (spec.said_wish wish)))) }
    ensures late { IfErr result IsLate }
    ensures unprinted { IfErr result IsUnprinted }
    ensures fault { IfErr result (ReadFaultRose (S.read_faults store.old) (S.read_faults store.new)) }
    ensures files { S.files store.new ≡ S.files store.old }
    ensures later { S.read_faults store.old ≤ S.read_faults store.new }
    ensures other { S.write_faults store.new ≡ S.write_faults store.old }
{
    match wish {
        Wish::Ready(command) => Ok(command),
        Wish::Develop(path) => develop_folder(alloc, store, path),
    }
}

/// The command that develops the package of a folder.
fn develop_folder<S: Store>(alloc: Global, store: &mut S, path: NormPath) -> Result<Command, Status>
    ensures told { IfSome (S.files store.old) (λ all. MatchResult result
        (λ command. spec.command_in all (spec.folder path) ≡ Ok (said_command command))
        (Refuses (spec.command_in all (spec.folder path)))) }
    ensures late { IfErr result IsLate }
    ensures unprinted { IfErr result IsUnprinted }
    ensures fault { IfErr result (ReadFaultRose (S.read_faults store.old) (S.read_faults store.new)) }
    ensures files { S.files store.new ≡ S.files store.old }
    ensures later { S.read_faults store.old ≤ S.read_faults store.new }
    ensures other { S.write_faults store.new ≡ S.write_faults store.old }
{
    match folder_project(alloc, store, &path) {
        Ok(found) => developed(path, found),
        Err(status) => Err(status),
    }
}

/// What the project file of a folder says; None where the folder has none.
fn folder_project<S: Store>(
    alloc: Global,
    store: &mut S,
    path: &NormPath,
) -> Result<Option<Project>, Status>
    ensures told { IfSome (S.files store.old) (λ all. MatchResult result
        (λ found. spec.folder_project all path.now ≡ Ok (option_map said_project found))
        (Refuses (spec.folder_project all path.now))) }
    ensures late { IfErr result IsLate }
    ensures unprinted { IfErr result IsUnprinted }
    ensures fault { IfErr result (ReadFaultRose (S.read_faults store.old) (S.read_faults store.new)) }
    ensures files { S.files store.new ≡ S.files store.old }
    ensures later { S.read_faults store.old ≤ S.read_faults store.new }
    ensures other { S.write_faults store.new ≡ S.write_faults store.old }
{
    match file_in(alloc, store, path) {
        Ok(file) => project_of(alloc, store, &file),
        Err(EnvFault::ReadFault(path)) => Err(Status::ReadFault(path)),
        Err(EnvFault::BadFile(..)) => unreachable!(),
        Err(EnvFault::Memory) => Err(Status::Memory),
    }
}

/// What the project file at a path says; None where no file is there.
fn project_of<S: Store>(
    alloc: Global,
    store: &mut S,
    file: &NormPath,
) -> Result<Option<Project>, Status>
    ensures told { IfSome (S.files store.old) (λ all. MatchResult result
        (λ found. spec.project_read all file.now ≡ Ok (option_map said_project found))
        (Refuses (spec.project_read all file.now))) }
    ensures late { IfErr result IsLate }
    ensures unprinted { IfErr result IsUnprinted }
    ensures fault { IfErr result (ReadFaultRose (S.read_faults store.old) (S.read_faults store.new)) }
    ensures files { S.files store.new ≡ S.files store.old }
    ensures later { S.read_faults store.old ≤ S.read_faults store.new }
    ensures other { S.write_faults store.new ≡ S.write_faults store.old }
{
    match project_at(alloc, store, file) {
        Ok(found) => Ok(found),
        Err(EnvFault::ReadFault(path)) => Err(Status::ReadFault(path)),
        Err(EnvFault::BadFile(path, cause)) => Err(Status::BadFile(path, cause)),
        Err(EnvFault::Memory) => Err(Status::Memory),
    }
}

/// The command that develops a package, by what the project file of its folder says.
#[tactic(auto, unfolding(project_file::specs::Said::said))]
fn developed(path: NormPath, found: Option<Project>) -> Result<Command, Status>
    ensures told { MatchResult result
        (λ command. spec.developed path (option_map said_project found) ≡ Ok (said_command command))
        (Refuses (spec.developed path (option_map said_project found))) }
    ensures late { IfErr result IsLate }
    ensures unprinted { IfErr result IsUnprinted }
    ensures fault { IfErr result NoFault }
{
    match found {
        Some(project) => {
            if project.name.is_some() && project.uuid.is_some() {
                Ok(Command::Develop(path, project))
            } else {
                Err(Status::NotAProject(path))
            }
        }
        None => Err(Status::NotAProject(path)),
    }
}
