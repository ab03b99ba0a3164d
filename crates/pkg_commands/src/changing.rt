//! The changes of a command's words.
ghost use Rattle.std.specs.Prelude.{◌≡◌, Ok, Some, IfOk, MatchResult, length};
ghost use Rattle.toml.specs.View.{table_view};
ghost use Rattle.project_file.specs.Said.{said as said_project};
ghost use Rattle.manifest_file.specs.Said.{said as said_manifest};
ghost use Rattle.offer_terms.specs.Demanded.{fixed_said};
ghost use Rattle.project_changes.specs.Faults.{Refuses};
ghost use Rattle.project_changes.specs.Fixing.{with_fixed as fixed_with};
ghost use Rattle.project_changes.specs.Stanzas.{IsWithin};
ghost use Rattle.pkg_commands.specs.Commands as commands;
ghost use Rattle.pkg_commands.specs.Commands.{said_command};
ghost use Rattle.pkg_commands.specs.Changes as spec;

use crate::changed::Changed;
use crate::command::{Command, WordList};
use jl_versions::Version;
use manifest_file::Manifest;
use offer_catalog::Catalog;
use offer_terms::Fixed;
use pkg_world::{Name, Names, NormPath};
use project_changes::{
    ChangeFault, Freed, add_words, developed, find_freed, fixed_copy, pin, remove_names,
    set_package, with_fixed, without_fixed, without_mark,
};
use project_file::Project;
use std::alloc::{AllocError, Global};

/// The project, its manifest and the fixed packages after a command's words. Errors: those of the changes that the words ask
/// for; want of memory.
pub(crate) fn change(
    alloc: Global,
    command: Command,
    project: Project,
    manifest: Manifest,
    catalog: &Catalog,
) -> Result<Changed, ChangeFault>
    ensures told { MatchResult result
        (λ it. spec.changed (said_command command) catalog.now (said_project project) (said_manifest manifest) ≡ Ok (spec.seen_change it))
        (Refuses (spec.changed (said_command command) catalog.now (said_project project) (said_manifest manifest))) }
    ensures rest { IfOk result (λ it. table_view it.project.rest ≡ table_view project.rest) }
{
    match command {
        Command::Resolve => Ok(unchanged(alloc, project, manifest, catalog)?),
        Command::Add(words) => add(alloc, &words, project, manifest, catalog),
        Command::Rm(names) => remove(alloc, &names, project, manifest, catalog),
        Command::Pin(name, version) => set_mark(alloc, &name, version, project, manifest, catalog),
        Command::Free(name) => free(alloc, &name, project, manifest, catalog),
        Command::Develop(path, folder) => {
            develop(alloc, &path, folder, project, manifest, catalog)
        }
    }
}

/// These two, and the fixed packages of the catalog.
fn unchanged(
    alloc: Global,
    project: Project,
    manifest: Manifest,
    catalog: &Catalog,
) -> Result<Changed, AllocError>
    ensures told { IfOk result (λ it. spec.seen_change it ≡ spec.changed_to (said_project project) (said_manifest manifest) catalog.now.fixed) }
    ensures rest { IfOk result (λ it. table_view it.project.rest ≡ table_view project.rest) }
{
    let fixed = fixed_copy(alloc, catalog.fixed())?;
    Ok(Changed {
        project,
        manifest,
        fixed,
    })
}

fn add(
    alloc: Global,
    words: &WordList,
    project: Project,
    manifest: Manifest,
    catalog: &Catalog,
) -> Result<Changed, ChangeFault>
    ensures told { MatchResult result
        (λ it. spec.changed (commands.add words.now.items) catalog.now (said_project project) (said_manifest manifest) ≡ Ok (spec.seen_change it))
        (Refuses (spec.changed (commands.add words.now.items) catalog.now (said_project project) (said_manifest manifest))) }
    ensures rest { IfOk result (λ it. table_view it.project.rest ≡ table_view project.rest) }
{
    match add_words(alloc, project, &manifest, catalog, words.items()) {
        Ok(after) => Ok(unchanged(alloc, after, manifest, catalog)?),
        Err(fault) => Err(fault),
    }
}

fn remove(
    alloc: Global,
    names: &Names,
    project: Project,
    manifest: Manifest,
    catalog: &Catalog,
) -> Result<Changed, ChangeFault>
    ensures told { MatchResult result
        (λ it. spec.changed (commands.rm names.now.items) catalog.now (said_project project) (said_manifest manifest) ≡ Ok (spec.seen_change it))
        (Refuses (spec.changed (commands.rm names.now.items) catalog.now (said_project project) (said_manifest manifest))) }
    ensures rest { IfOk result (λ it. table_view it.project.rest ≡ table_view project.rest) }
{
    match remove_names(alloc, project, names.items()) {
        Ok(after) => Ok(unchanged(alloc, after, manifest, catalog)?),
        Err(fault) => Err(fault),
    }
}

fn set_mark(
    alloc: Global,
    name: &Name,
    version: Option<Version>,
    project: Project,
    manifest: Manifest,
    catalog: &Catalog,
) -> Result<Changed, ChangeFault>
    ensures told { MatchResult result
        (λ it. spec.changed (commands.pin name.now version) catalog.now (said_project project) (said_manifest manifest) ≡ Ok (spec.seen_change it))
        (Refuses (spec.changed (commands.pin name.now version) catalog.now (said_project project) (said_manifest manifest))) }
    ensures rest { IfOk result (λ it. table_view it.project.rest ≡ table_view project.rest) }
{
    match pin(alloc, manifest, name, version) {
        Ok(after) => Ok(unchanged(alloc, project, after, catalog)?),
        Err(fault) => Err(fault),
    }
}

fn free(
    alloc: Global,
    name: &Name,
    project: Project,
    manifest: Manifest,
    catalog: &Catalog,
) -> Result<Changed, ChangeFault>
    ensures told { MatchResult result
        (λ it. spec.changed (commands.free name.now) catalog.now (said_project project) (said_manifest manifest) ≡ Ok (spec.seen_change it))
        (Refuses (spec.changed (commands.free name.now) catalog.now (said_project project) (said_manifest manifest))) }
    ensures rest { IfOk result (λ it. table_view it.project.rest ≡ table_view project.rest) }
{
    match find_freed(alloc, &project, &manifest, name) {
        Ok(found) => Ok(take_away(alloc, found, project, manifest, catalog)?),
        Err(fault) => Err(fault),
    }
}

/// The three without what is freed.
fn take_away(
    alloc: Global,
    found: Freed,
    project: Project,
    manifest: Manifest,
    catalog: &Catalog,
) -> Result<Changed, AllocError>
    requires { IsWithin (length manifest.stanzas.items) found }
    ensures told { IfOk result (λ it. spec.seen_change it ≡ spec.without_freed catalog.now (said_project project) (said_manifest manifest) found) }
    ensures rest { IfOk result (λ it. table_view it.project.rest ≡ table_view project.rest) }
{
    match found {
        Freed::Mark(place) => {
            let manifest = without_mark(alloc, manifest, place)?;
            unchanged(alloc, project, manifest, catalog)
        }
        Freed::Origin(uuid) => {
            let fixed = without_fixed(alloc, catalog.fixed(), &uuid)?;
            Ok(Changed {
                project,
                manifest,
                fixed,
            })
        }
    }
}

fn develop(
    alloc: Global,
    path: &NormPath,
    folder: Project,
    project: Project,
    manifest: Manifest,
    catalog: &Catalog,
) -> Result<Changed, ChangeFault>
    ensures told { MatchResult result
        (λ it. spec.changed (commands.develop path.now (said_project folder)) catalog.now (said_project project) (said_manifest manifest) ≡ Ok (spec.seen_change it))
        (Refuses (spec.changed (commands.develop path.now (said_project folder)) catalog.now (said_project project) (said_manifest manifest))) }
    ensures rest { IfOk result (λ it. table_view it.project.rest ≡ table_view project.rest) }
{
    match developed(alloc, path, folder)? {
        Some(given) => develop_as(alloc, given, project, manifest, catalog),
        None => Ok(unchanged(alloc, project, manifest, catalog)?),
    }
}

/// The three with a package that is developed.
fn develop_as(
    alloc: Global,
    given: Fixed,
    project: Project,
    manifest: Manifest,
    catalog: &Catalog,
) -> Result<Changed, ChangeFault>
    ensures told { MatchResult result
        (λ it. spec.with_developed catalog.now (said_project project) (said_manifest manifest) (Some (fixed_said given)) ≡ Ok (spec.seen_change it))
        (Refuses (spec.with_developed catalog.now (said_project project) (said_manifest manifest) (Some (fixed_said given)))) }
    ensures rest { IfOk result (λ it. table_view it.project.rest ≡ table_view project.rest) }
{
    match set_package(alloc, project, &given.name, given.uuid) {
        Ok(after) => Ok(with_package(alloc, given, after, manifest, catalog)?),
        Err(fault) => Err(fault),
    }
}

fn with_package(
    alloc: Global,
    given: Fixed,
    project: Project,
    manifest: Manifest,
    catalog: &Catalog,
) -> Result<Changed, AllocError>
    ensures told { IfOk result (λ it. spec.seen_change it ≡ spec.changed_to (said_project project) (said_manifest manifest) (fixed_with (fixed_said given) catalog.now.fixed)) }
    ensures rest { IfOk result (λ it. table_view it.project.rest ≡ table_view project.rest) }
{
    let fixed = with_fixed(alloc, catalog.fixed(), given)?;
    Ok(Changed {
        project,
        manifest,
        fixed,
    })
}
