//! The package that a name means which is to be added.
ghost use Rattle.std.specs.Prelude.{◌≡◌, Ok, Err, MatchResult, IfOk};
ghost use Rattle.std.specs.List.{list_any};
ghost use Rattle.std.specs.Option.{option_copied};
ghost use Rattle.std.specs.Str.{bytes_eq};
ghost use Rattle.project_file.specs.Said.{said as said_project};
ghost use Rattle.manifest_file.specs.Said.{said as said_manifest};
ghost use Rattle.package_names.specs.Names as spec;
ghost use Rattle.package_names.specs.Refusals.{NameRefused};
ghost use Rattle.package_names.specs.Taken.{is_this};

use crate::fault::NameFault;
use crate::named::value_named;
use crate::stanza_ids::{stanza_ids, stanzas_have};
use crate::taken::taken_by;
use manifest_file::Manifest;
use offer_catalog::Catalog;
use pkg_world::{Duplicate, Name};
use project_file::Project;
use std::alloc::{AllocError, Global};
use uuid::Uuid;

/// The identifier of the package that a name means which is to be added to a project. (Pkg, `add`; the order of the places is
/// an own rule.)
///
/// Without a given identifier the first place decides that has the name: `deps`, `weakdeps` and `extras` of the project, then
/// the manifest's stanzas, then the catalog.
///
/// Errors: NameTaken exactly where the name is taken, with what `taken_by` tells; then UnknownPackage exactly where no place
/// has the given identifier under the name; AmbiguousName exactly where none is given and the place that decides has several
/// identifiers under the name, with the two least; UnknownName exactly where none is given and no place has the name; want of
/// memory.
pub fn added_uuid(
    alloc: Global,
    project: &Project,
    manifest: &Manifest,
    catalog: &Catalog,
    name: &Name,
    given: &Option<Uuid>,
) -> Result<Uuid, NameFault>
    ensures { MatchResult result
        (λ uuid. spec.added catalog.now (said_project project.now) (said_manifest manifest.now) name.now given.now ≡ Ok uuid)
        (NameRefused (spec.added catalog.now (said_project project.now) (said_manifest manifest.now) name.now given.now)) }
{
    match taken_by(project, name, given) {
        Some(had) => Err(NameFault::NameTaken(had)),
        None => meant(alloc, project, manifest, catalog, name, given),
    }
}

/// What a name means that isn't taken.
fn meant(
    alloc: Global,
    project: &Project,
    manifest: &Manifest,
    catalog: &Catalog,
    name: &Name,
    given: &Option<Uuid>,
) -> Result<Uuid, NameFault>
    ensures { MatchResult result
        (λ uuid. spec.meant catalog.now (said_project project.now) (said_manifest manifest.now) name.now given.now ≡ Ok uuid)
        (NameRefused (spec.meant catalog.now (said_project project.now) (said_manifest manifest.now) name.now given.now)) }
{
    match given {
        Some(uuid) => if_known(alloc, project, manifest, catalog, name, uuid),
        None => looked_up(alloc, project, manifest, catalog, name),
    }
}

/// The given identifier, where some place has it under the name.
fn if_known(
    alloc: Global,
    project: &Project,
    manifest: &Manifest,
    catalog: &Catalog,
    name: &Name,
    uuid: &Uuid,
) -> Result<Uuid, NameFault>
    ensures { MatchResult result
        (λ found. spec.if_known catalog.now (said_project project.now) (said_manifest manifest.now) name.now uuid.now ≡ Ok found)
        (NameRefused (spec.if_known catalog.now (said_project project.now) (said_manifest manifest.now) name.now uuid.now)) }
{
    if is_known(alloc, project, manifest, catalog, name, uuid)? {
        Ok(*uuid)
    } else {
        Err(NameFault::UnknownPackage(*uuid))
    }
}

/// Whether some place has the identifier under the name. The catalog is asked last.
fn is_known(
    alloc: Global,
    project: &Project,
    manifest: &Manifest,
    catalog: &Catalog,
    name: &Name,
    uuid: &Uuid,
) -> Result<bool, AllocError>
    ensures { IfOk result (λ known. known ≡ spec.is_known catalog.now (said_project project.now) (said_manifest manifest.now) name.now uuid.now) }
{
    if project_has(project, name, uuid) || stanzas_have(manifest.stanzas.items(), name, uuid) {
        return Ok(true);
    }
    let ids = catalog.ids(alloc, name)?;
    Ok(has_id(ids.items(), uuid))
}

/// Whether the project's file has the identifier at the name.
#[tactic(auto, unfolding(project_file::specs::Said::said))]
fn project_has(project: &Project, name: &Name, uuid: &Uuid) -> bool
    ensures { result ≡ spec.project_has (said_project project.now) name.now uuid.now }
{
    is_id(uuid, value_named(project.deps.items(), name.as_str()))
        || is_id(uuid, value_named(project.weakdeps.items(), name.as_str()))
        || is_id(uuid, value_named(project.extras.items(), name.as_str()))
}

fn is_id(uuid: &Uuid, found: Option<&Uuid>) -> bool
    ensures { result ≡ is_this uuid.now (option_copied found.entry) }
{
    match found {
        Some(found) => *uuid == *found,
        None => false,
    }
}

fn has_id(ids: &[Uuid], uuid: &Uuid) -> bool
    ensures { result ≡ list_any (bytes_eq uuid.now) ids.now }
{
    for id in ids {
        if *uuid == *id {
            return true;
        }
    }
    false
}

/// What a name alone means that isn't taken.
fn looked_up(
    alloc: Global,
    project: &Project,
    manifest: &Manifest,
    catalog: &Catalog,
    name: &Name,
) -> Result<Uuid, NameFault>
    ensures { MatchResult result
        (λ uuid. spec.looked_up catalog.now (said_project project.now) (said_manifest manifest.now) name.now ≡ Ok uuid)
        (NameRefused (spec.looked_up catalog.now (said_project project.now) (said_manifest manifest.now) name.now)) }
{
    match project_id(project, name) {
        Some(uuid) => Ok(uuid),
        None => in_manifest(alloc, manifest, catalog, name),
    }
}

/// The identifier that the project's file has at the name: a dependency, a weak one or an extra.
#[tactic(auto, unfolding(project_file::specs::Said::said))]
fn project_id(project: &Project, name: &Name) -> Option<Uuid>
    ensures { result ≡ spec.project_id (said_project project.now) name.now }
{
    let name = name.as_str();
    if let Some(uuid) = value_named(project.deps.items(), name) {
        return Some(*uuid);
    }
    if let Some(uuid) = value_named(project.weakdeps.items(), name) {
        return Some(*uuid);
    }
    value_named(project.extras.items(), name).copied()
}

/// What the name means in the manifest, or else in the catalog.
fn in_manifest(
    alloc: Global,
    manifest: &Manifest,
    catalog: &Catalog,
    name: &Name,
) -> Result<Uuid, NameFault>
    ensures { MatchResult result
        (λ uuid. spec.in_manifest catalog.now (said_manifest manifest.now) name.now ≡ Ok uuid)
        (NameRefused (spec.in_manifest catalog.now (said_manifest manifest.now) name.now)) }
{
    let ids = stanza_ids(alloc, manifest.stanzas.items(), name)?;
    match ids.items() {
        [] => in_catalog(alloc, catalog, name),
        [least, more @ ..] => unless_more(least, more),
    }
}

fn in_catalog(alloc: Global, catalog: &Catalog, name: &Name) -> Result<Uuid, NameFault>
    ensures { MatchResult result
        (λ uuid. spec.in_catalog catalog.now name.now ≡ Ok uuid)
        (NameRefused (spec.in_catalog catalog.now name.now)) }
{
    let ids = catalog.ids(alloc, name)?;
    match ids.items() {
        [] => Err(unknown(alloc, name)),
        [least, more @ ..] => unless_more(least, more),
    }
}

/// The least identifier, unless there are more.
fn unless_more(least: &Uuid, more: &[Uuid]) -> Result<Uuid, NameFault>
    ensures { MatchResult result (λ uuid. spec.unless_more least.now more.now ≡ Ok uuid) (NameRefused (spec.unless_more least.now more.now)) }
{
    match more {
        [] => Ok(*least),
        [next, ..] => Err(NameFault::AmbiguousName(*least, *next)),
    }
}

fn unknown(alloc: Global, name: &Name) -> NameFault
    ensures { NameRefused (Err (spec.unknown name.now)) result }
{
    match name.copy(alloc) {
        Ok(name) => NameFault::UnknownName(name),
        Err(_) => NameFault::Memory,
    }
}
