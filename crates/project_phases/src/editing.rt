//! The edit of a command.
ghost use Rattle.std.specs.Prelude.{◌≡◌, Ok, IfOk, IfErr, MatchResult};
ghost use Rattle.toml.specs.View.{table_view};
ghost use Rattle.project_file.specs.Said.{said as said_project};
ghost use Rattle.manifest_file.specs.Said.{said as said_manifest};
ghost use Rattle.command_answers.specs.Answers.{Refuses, NoFault, IsLate, IsUnprinted};
ghost use Rattle.pkg_commands.specs.Commands.{said_command};
ghost use Rattle.pkg_commands.specs.Edit.{seen, edited as edit_meant};
ghost use Rattle.project_phases.specs.Refusals.{told_edit};

use crate::refusals::edit_status;
use command_answers::Status;
use manifest_file::Manifest;
use offer_catalog::Catalog;
use pkg_commands::{Command, Edited, apply};
use pkg_world::Place;
use project_file::Project;
use std::alloc::Global;

/// The project after a command's edit, and its demand. The project, the manifest and the place are those of the catalog.
///
/// Refusals, of which the first that is due comes: those of the command's words, one after the other: NameTaken, UnknownName,
/// UnknownPackage, AmbiguousName, NotInProject, NotInManifest and NotPinned; WrongJulia; NeedsFetch. Want of memory is free.
pub fn edit_project(
    alloc: Global,
    command: Command,
    place: &Place,
    catalog: &Catalog,
    project: Project,
    manifest: Manifest,
) -> Result<Edited, Status>
    ensures told { MatchResult result
        (λ it. told_edit (edit_meant (said_command command) catalog.now place.now (said_project project) (said_manifest manifest)) ≡ Ok (seen it))
        (Refuses (told_edit (edit_meant (said_command command) catalog.now place.now (said_project project) (said_manifest manifest)))) }
    ensures rest { IfOk result (λ it. table_view it.project.rest ≡ table_view project.rest) }
    ensures late { IfErr result IsLate }
    ensures unprinted { IfErr result IsUnprinted }
    ensures fault { IfErr result NoFault }
{
    match apply(alloc, command, project, manifest, catalog, place) {
        Ok(edited) => Ok(edited),
        Err(fault) => Err(edit_status(fault)),
    }
}
