//! What `free` takes away.
ghost use Rattle.std.specs.Prelude.{◌≡◌, ℕ, ◌<◌, Some, Ok, length, MatchResult, IfOk};
ghost use Rattle.project_file.specs.Edits.{has_name};
ghost use Rattle.project_file.specs.Said.{said as said_project};
ghost use Rattle.manifest_file.specs.Said.{said as said_manifest, said_stanza};
ghost use Rattle.project_changes.specs.Stanzas as spec;
ghost use Rattle.project_changes.specs.Stanzas.{IsWithin};
ghost use Rattle.project_changes.specs.Faults.{Refuses, IsNotPinned};

use crate::fault::{ChangeFault, stanza_fault};
use crate::named::has;
use manifest_file::{Manifest, Origin, Stanza};
use package_names::stanza_named;
use pkg_world::{Duplicate, Name};
use project_file::Project;
use std::alloc::Global;
use uuid::Uuid;

/// What `free` takes away.
#[derive(Clone, Copy, Debug, PartialEq, Eq)]
pub enum Freed {
    /// The mark of the stanza at this place.
    Mark(usize),
    /// The origin of the package of this identifier: it is fixed no longer.
    Origin(Uuid),
}

/// What `free` takes away for a name: the mark of its stanza, where that is pinned, and else its origin, where that is a path
/// or a repository. (Pkg, `free`.)
///
/// Errors: NotInManifest exactly where no stanza has the name; AmbiguousName exactly where several have it; NotPinned exactly
/// where one has it that isn't pinned, and the project has a source for the name or the origin is neither a path nor a
/// repository; want of memory.
pub fn find_freed(
    alloc: Global,
    project: &Project,
    manifest: &Manifest,
    name: &Name,
) -> Result<Freed, ChangeFault>
    ensures told { MatchResult result
        (λ it. spec.freed (said_project project.now) (said_manifest manifest.now) name.now ≡ Ok it)
        (Refuses (spec.freed (said_project project.now) (said_manifest manifest.now) name.now)) }
    ensures within { IfOk result (IsWithin (length manifest.now.stanzas.items)) }
{
    match stanza_named(alloc, manifest, name) {
        Ok(place) => freed_at(
            alloc,
            project,
            &manifest.stanzas.items()[place],
            place,
            name,
        ),
        Err(fault) => Err(stanza_fault(fault)),
    }
}

/// What is taken away for the name of this stanza, which stands at the place.
fn freed_at(
    alloc: Global,
    project: &Project,
    stanza: &Stanza,
    place: usize,
    name: &Name,
) -> Result<Freed, ChangeFault>
    ensures told { MatchResult result
        (λ it. spec.freed_of (said_project project.now) name.now place (Some (said_stanza stanza.now)) ≡ Ok it)
        (Refuses (spec.freed_of (said_project project.now) name.now place (Some (said_stanza stanza.now)))) }
    ensures within { (count : ℕ) → place < count → IfOk result (IsWithin count) }
{
    if stanza.pinned {
        return Ok(Freed::Mark(place));
    }
    if has_source(project, name) || !fixes(&stanza.origin) {
        return Err(not_pinned(alloc, name));
    }
    Ok(Freed::Origin(stanza.uuid))
}

#[tactic(auto, unfolding(project_file::specs::Said::said))]
fn has_source(project: &Project, name: &Name) -> bool
    ensures { result ≡ has_name name.now (said_project project.now).sources }
{
    has(project.sources.items(), name)
}

/// Whether a package of that origin is fixed.
fn fixes(origin: &Origin) -> bool
    ensures { result ≡ spec.fixes origin.now }
{
    match origin {
        Origin::Path(_) => true,
        Origin::Repo { .. } => true,
        Origin::Tree(_) => false,
        Origin::Std => false,
    }
}

fn not_pinned(alloc: Global, name: &Name) -> ChangeFault
    ensures { IsNotPinned name.now result }
{
    match name.copy(alloc) {
        Ok(name) => ChangeFault::NotPinned(name),
        Err(_) => ChangeFault::Memory,
    }
}
