//! The edit of a command.
ghost use Rattle.std.specs.Prelude.{◌≡◌, Ok, Some, MatchResult, IfOk, option_map, option_copied};
ghost use Rattle.toml.specs.View.{table_view};
ghost use Rattle.project_file.specs.Said.{said as said_project};
ghost use Rattle.manifest_file.specs.Said.{said as said_manifest};
ghost use Rattle.jl_versions.specs.Triple.{triple_of};
ghost use Rattle.pkg_commands.specs.Commands.{said_command};
ghost use Rattle.pkg_commands.specs.Changes.{seen_change};
ghost use Rattle.pkg_commands.specs.Edit as spec;

use crate::changed::Changed;
use crate::changing::change;
use crate::command::Command;
use crate::demand::demand_of;
use crate::edited::Edited;
use crate::fault::{EditFault, edit_fault};
use crate::fetching::unfetched;
use jl_versions::Version;
use manifest_file::Manifest;
use offer_catalog::Catalog;
use package_names::value_named;
use pkg_world::{Duplicate, Name, Place, Text};
use project_file::{Project, SpecList, SpecText};
use std::alloc::{AllocError, Global};

/// The project after a command's edit, and its demand. The project, the manifest and the place are those with which the
/// catalog was loaded. (Project and manifest: Pkg; pins, fixed packages and the order of refusals are own rules.)
///
/// `Add` and `Rm` change the dependencies word by word, `Pin` marks a stanza, `Free` takes away a mark or else a path or a
/// repository, and `Develop` makes the package of a folder a dependency and fixes it there, in place of an older origin; a
/// folder's project without a name or an identifier changes nothing. What else the file has stands as it was.
///
/// Roots are the names of `deps` that `weakdeps` hasn't, but for Julia and the project's own package; compat on a name of
/// either counts by the identifier; a pin is a pinned stanza's version, as the manifest selects it; fixed packages are those of
/// the catalog, with the one that is developed and without the one that is freed.
///
/// Errors, of the first word that has one. `Add`: NameTaken exactly where the name has another identifier in `deps`, is the
/// project's own, or stands in `weakdeps`; UnknownPackage exactly where no place has the given identifier under the name;
/// AmbiguousName exactly where the first place that has the name has several identifiers under it; UnknownName exactly where
/// no place has it. `Rm`: NotInProject exactly where `deps` hasn't the name. `Pin` and `Free`: NotInManifest exactly where no
/// stanza has the name, AmbiguousName exactly where several have it; `Free`: NotPinned exactly where the one stanza of the name
/// isn't pinned and has neither a path nor a repository, or isn't pinned and the name has a source. `Develop`: NameTaken as
/// for `Add`. Then WrongJulia exactly where the project's compat on `julia` doesn't hold Julia's version; then NeedsFetch, of
/// the first name in `deps` whose source is an address that no stanza of its identifier has fetched, with the same revision
/// and folder where they are given; want of memory.
pub fn apply(
    alloc: Global,
    command: Command,
    project: Project,
    manifest: Manifest,
    catalog: &Catalog,
    place: &Place,
) -> Result<Edited, EditFault>
    ensures told { MatchResult result
        (λ edited. spec.edited (said_command command) catalog.now place.now (said_project project) (said_manifest manifest) ≡ Ok (spec.seen edited))
        (spec.Refuses (spec.edited (said_command command) catalog.now place.now (said_project project) (said_manifest manifest))) }
    ensures rest { IfOk result (λ edited. table_view edited.project.rest ≡ table_view project.rest) }
{
    match change(alloc, command, project, manifest, catalog) {
        Ok(changed) => tested(alloc, changed, catalog, place),
        Err(fault) => Err(edit_fault(fault)),
    }
}

/// What is changed, where the project's compat on Julia holds.
#[tactic(auto, unfolding(project_file::specs::Said::said))]
fn tested(
    alloc: Global,
    changed: Changed,
    catalog: &Catalog,
    place: &Place,
) -> Result<Edited, EditFault>
    ensures told { MatchResult result
        (λ edited. spec.tested catalog.now place.now (seen_change changed) ≡ Ok (spec.seen edited))
        (spec.Refuses (spec.tested catalog.now place.now (seen_change changed))) }
    ensures rest { IfOk result (λ edited. table_view edited.project.rest ≡ table_view changed.project.rest) }
{
    match wrong_julia(alloc, place, &changed.project.compat) {
        Some(spelled) => Err(wrong(alloc, spelled)),
        None => fetched(alloc, changed, catalog, place),
    }
}

/// The project's compat on Julia, where it doesn't hold Julia's version.
fn wrong_julia<'a>(alloc: Global, place: &Place, compat: &'a SpecList) -> Option<&'a SpecText>
    ensures { option_copied result ≡ spec.wrong_julia place.now.julia compat.now.items }
{
    match value_named(compat.items(), "julia") {
        Some(spelled) => unless_held(spelled, &julia_version(alloc, place.julia)),
        None => None,
    }
}

fn unless_held<'a>(spelled: &'a SpecText, julia: &Version) -> Option<&'a SpecText>
    ensures { option_copied result ≡ spec.unless_held (triple_of julia.now) spelled.now }
{
    if spelled.spec().holds(julia) {
        None
    } else {
        Some(spelled)
    }
}

/// The version of these three numbers.
fn julia_version(alloc: Global, triple: [u32; 3]) -> Version
    ensures { triple_of result ≡ triple }
{
    // With the iterator comes that there are three.
    let _numbers = triple.into_iter();
    Version::of(alloc, triple)
}

fn wrong(alloc: Global, spelled: &SpecText) -> EditFault
    ensures { spec.IsWrong spelled.now.text result }
{
    match Text::of(alloc, spelled.text()) {
        Ok(text) => EditFault::WrongJulia(text),
        Err(_) => EditFault::Memory,
    }
}

/// What is changed, where nothing is to be fetched.
#[tactic(auto, unfolding(project_file::specs::Said::said))]
fn fetched(
    alloc: Global,
    changed: Changed,
    catalog: &Catalog,
    place: &Place,
) -> Result<Edited, EditFault>
    ensures told { MatchResult result
        (λ edited. spec.fetched catalog.now place.now (seen_change changed) ≡ Ok (spec.seen edited))
        (spec.Refuses (spec.fetched catalog.now place.now (seen_change changed))) }
    ensures rest { IfOk result (λ edited. table_view edited.project.rest ≡ table_view changed.project.rest) }
{
    match unfetched(
        &changed.project.sources,
        &changed.project.deps,
        changed.manifest.stanzas.items(),
    ) {
        Some(name) => Err(to_fetch(alloc, name)),
        None => Ok(with_demand(alloc, changed, catalog, place)?),
    }
}

fn to_fetch(alloc: Global, name: &Name) -> EditFault
    ensures { spec.IsToFetch name.now result }
{
    match name.copy(alloc) {
        Ok(name) => EditFault::NeedsFetch(name),
        Err(_) => EditFault::Memory,
    }
}

fn with_demand(
    alloc: Global,
    changed: Changed,
    catalog: &Catalog,
    place: &Place,
) -> Result<Edited, AllocError>
    ensures told { IfOk result (λ edited. spec.seen edited ≡ spec.with_demand catalog.now place.now (seen_change changed)) }
    ensures rest { IfOk result (λ edited. table_view edited.project.rest ≡ table_view changed.project.rest) }
{
    let Changed {
        project,
        manifest,
        fixed,
    } = changed;
    let demand = demand_of(alloc, &project, &manifest, fixed, catalog, place)?;
    Ok(Edited { project, demand })
}
