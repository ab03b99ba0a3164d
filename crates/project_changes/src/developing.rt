//! Packages that are developed in a folder.
ghost use Rattle.std.specs.Prelude.{◌≡◌, Ok, IfOk, MatchResult, option_map, unwrap_or};
ghost use Rattle.toml.specs.View.{table_view};
ghost use Rattle.project_file.specs.Edits.{with_dep, without_source};
ghost use Rattle.project_file.specs.Said.{said as said_project};
ghost use Rattle.fixed_packages.specs.Given.{zero_version};
ghost use Rattle.offer_terms.specs.Demanded.{fixed_said};
ghost use Rattle.project_changes.specs.Fixing as fixing;
ghost use Rattle.project_changes.specs.Words as spec;
ghost use Rattle.project_changes.specs.Faults.{Refuses};

use crate::fault::ChangeFault;
use jl_versions::Version;
use manifest_file::Origin;
use offer_terms::Fixed;
use package_names::taken_by;
use pkg_world::{Name, NormPath};
use project_file::Project;
use std::alloc::{AllocError, Global};
use uuid::Uuid;

/// What the folder at the path fixes, by its project file: its package, with the path as its origin. None where the project
/// has no name or no identifier. The one error is want of memory. (Pkg, `develop`.)
#[tactic(auto, unfolding(project_file::specs::Said::said))]
pub fn developed(
    alloc: Global,
    path: &NormPath,
    folder: Project,
) -> Result<Option<Fixed>, AllocError>
    ensures { IfOk result (λ found. option_map fixed_said found ≡ fixing.developed path.now (said_project folder)) }
{
    let Project {
        name,
        uuid,
        version,
        deps,
        weakdeps,
        extensions,
        compat,
        ..
    } = folder;
    let Some(name) = name else {
        return Ok(None);
    };
    let Some(uuid) = uuid else {
        return Ok(None);
    };
    Ok(Some(Fixed {
        uuid,
        name,
        version: version_or_zero(alloc, version),
        deps,
        weak: weakdeps,
        compat,
        origin: Origin::Path(Name::of(alloc, path.as_str())?),
        extensions,
    }))
}

/// The version, which is 0.0.0 where there is none.
fn version_or_zero(alloc: Global, version: Option<Version>) -> Version
    ensures { result ≡ unwrap_or version zero_version }
{
    match version {
        Some(version) => version,
        None => Version::of(alloc, [0, 0, 0]),
    }
}

/// The project in which the name is that of a package to be developed: it is a dependency on the package, and has no source.
/// (Pkg, `develop`.)
///
/// Errors: NameTaken exactly where the name is taken for this identifier, as `taken_by` says; want of memory.
pub fn set_package(
    alloc: Global,
    project: Project,
    name: &Name,
    uuid: Uuid,
) -> Result<Project, ChangeFault>
    ensures told { MatchResult result
        (λ after. spec.with_package (said_project project) name.now uuid ≡ Ok (said_project after))
        (Refuses (spec.with_package (said_project project) name.now uuid)) }
    ensures rest { IfOk result (λ after. table_view after.rest ≡ table_view project.rest) }
{
    match taken_by(&project, name, &Some(uuid)) {
        Some(had) => Err(ChangeFault::NameTaken(had)),
        None => Ok(put_package(alloc, project, name, uuid)?),
    }
}

fn put_package(
    alloc: Global,
    project: Project,
    name: &Name,
    uuid: Uuid,
) -> Result<Project, AllocError>
    ensures said { IfOk result (λ after. said_project after ≡ without_source name.now (with_dep name.now uuid (said_project project))) }
    ensures rest { IfOk result (λ after. table_view after.rest ≡ table_view project.rest) }
{
    let mut after = project;
    after.set_dep(alloc, name, uuid)?;
    after.drop_source(name);
    Ok(after)
}
