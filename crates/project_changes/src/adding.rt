//! Packages that are added to a project.
ghost use Rattle.std.specs.Prelude.{◌≡◌, ◌||◌, Ok, OnOk, IfOk, MatchResult};
ghost use Rattle.toml.specs.View.{table_view};
ghost use Rattle.project_file.specs.Edits.{has_name};
ghost use Rattle.project_file.specs.Said.{said as said_project};
ghost use Rattle.manifest_file.specs.Said.{said as said_manifest};
ghost use Rattle.project_changes.specs.Words as spec;
ghost use Rattle.project_changes.specs.Faults.{Refuses};

use crate::fault::{ChangeFault, name_fault};
use crate::named::has;
use manifest_file::Manifest;
use offer_catalog::Catalog;
use package_names::added_uuid;
use pkg_world::Name;
use project_file::Project;
use std::alloc::{AllocError, Global};
use uuid::Uuid;

/// The project to which packages are added by these names, each with the identifier that is to be meant, if one is given. The
/// words go one by one, each on the project as the words before it left it. What a name means, `added_uuid` says. Its source
/// is dropped where the project had the name neither among the dependencies nor among the extras. (Pkg, `add`; the source is
/// an own rule.)
///
/// Errors, of the first word that is refused: those of `added_uuid`; want of memory.
pub fn add_words(
    alloc: Global,
    project: Project,
    manifest: &Manifest,
    catalog: &Catalog,
    words: &[(Name, Option<Uuid>)],
) -> Result<Project, ChangeFault>
    ensures told { MatchResult result
        (λ after. spec.with_words catalog.now (said_manifest manifest.now) (said_project project) words.now ≡ Ok (said_project after))
        (Refuses (spec.with_words catalog.now (said_manifest manifest.now) (said_project project) words.now)) }
    ensures rest { IfOk result (λ after. table_view after.rest ≡ table_view project.rest) }
{
    let mut after = project;
    for word in words {
        match add_word(alloc, &mut after, manifest, catalog, word) {
            Ok(()) => {}
            Err(fault) => return Err(fault),
        }
    }
    Ok(after)
}

fn add_word(
    alloc: Global,
    project: &mut Project,
    manifest: &Manifest,
    catalog: &Catalog,
    word: &(Name, Option<Uuid>),
) -> Result<(), ChangeFault>
    ensures told { MatchResult result
        (λ _. spec.with_word catalog.now (said_manifest manifest.now) (said_project project.old) word.now ≡ Ok (said_project project.new))
        (Refuses (spec.with_word catalog.now (said_manifest manifest.now) (said_project project.old) word.now)) }
    ensures rest { OnOk result (table_view project.new.rest ≡ table_view project.old.rest) }
{
    match added_uuid(alloc, project, manifest, catalog, &word.0, &word.1) {
        Ok(uuid) => Ok(put_added(alloc, project, &word.0, uuid)?),
        Err(fault) => Err(name_fault(fault)),
    }
}

/// The name is made a dependency on the package of this identifier.
fn put_added(
    alloc: Global,
    project: &mut Project,
    name: &Name,
    uuid: Uuid,
) -> Result<(), AllocError>
    ensures said { OnOk result (said_project project.new ≡ spec.with_added name.now uuid (said_project project.old)) }
    ensures rest { OnOk result (table_view project.new.rest ≡ table_view project.old.rest) }
{
    drop_stale_source(project, name);
    project.set_dep(alloc, name, uuid)
}

/// Drops the source of a name that is neither a dependency nor one of the extras.
#[tactic(auto, unfolding(project_file::specs::Said::said))]
fn drop_stale_source(project: &mut Project, name: &Name)
    ensures said { said_project project.new ≡ spec.without_stale_source name.now (said_project project.old) }
    ensures rest { table_view project.new.rest ≡ table_view project.old.rest }
{
    if !is_named(project, name) {
        project.drop_source(name);
    }
}

/// Whether the name is a dependency or one of the extras.
#[tactic(auto, unfolding(project_file::specs::Said::said))]
fn is_named(project: &Project, name: &Name) -> bool
    ensures { result ≡ (has_name name.now (said_project project.now).deps || has_name name.now (said_project project.now).extras) }
{
    has(project.deps.items(), name) || has(project.extras.items(), name)
}
