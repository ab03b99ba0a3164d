//! Marks of stanzas.
ghost use Rattle.std.specs.Prelude.{◌≡◌, ◌<◌, Ok, length, IfOk, MatchResult};
ghost use Rattle.std.specs.Option.{option_or};
ghost use Rattle.manifest_file.specs.Said.{said as said_manifest, said_stanza};
ghost use Rattle.project_changes.specs.Stanzas as spec;
ghost use Rattle.project_changes.specs.Faults.{Refuses};

use crate::fault::{ChangeFault, stanza_fault};
use crate::stanza_copies::{version_copy, with_mark};
use jl_versions::Version;
use manifest_file::{Manifest, Stanza};
use package_names::stanza_named;
use pkg_world::Name;
use std::alloc::{AllocError, Global};

/// The manifest in which the one stanza of the name is pinned: at the version that is given, or else at its own. (Pkg, `pin`.)
///
/// Errors: NotInManifest exactly where no stanza has the name; AmbiguousName exactly where several have it; want of memory.
pub fn pin(
    alloc: Global,
    manifest: Manifest,
    name: &Name,
    version: Option<Version>,
) -> Result<Manifest, ChangeFault>
    ensures { MatchResult result
        (λ after. spec.with_pin (said_manifest manifest) name.now version ≡ Ok (said_manifest after))
        (Refuses (spec.with_pin (said_manifest manifest) name.now version)) }
{
    match stanza_named(alloc, &manifest, name) {
        Ok(place) => Ok(pin_at(alloc, manifest, place, version)?),
        Err(fault) => Err(stanza_fault(fault)),
    }
}

fn pin_at(
    alloc: Global,
    manifest: Manifest,
    place: usize,
    version: Option<Version>,
) -> Result<Manifest, AllocError>
    requires { place < length manifest.stanzas.items }
    ensures { IfOk result (λ after. said_manifest after ≡ spec.changed_at (spec.pinned version) place (said_manifest manifest)) }
{
    let mut after = manifest;
    let stanza = pinned(alloc, &after.stanzas.items()[place], version)?;
    after.stanzas.set(place, stanza);
    Ok(after)
}

fn pinned(alloc: Global, stanza: &Stanza, given: Option<Version>) -> Result<Stanza, AllocError>
    ensures { IfOk result (λ other. said_stanza other ≡ spec.pinned given (said_stanza stanza.now)) }
{
    let version = given_or_own(alloc, given, &stanza.version)?;
    with_mark(alloc, stanza, true, version)
}

fn given_or_own(
    alloc: Global,
    given: Option<Version>,
    own: &Option<Version>,
) -> Result<Option<Version>, AllocError>
    ensures { IfOk result (λ version. version ≡ option_or given own.now) }
{
    match given {
        Some(version) => Ok(Some(version)),
        None => version_copy(alloc, own),
    }
}

/// The manifest in which the stanza at the place isn't pinned. The one error is want of memory.
pub fn without_mark(alloc: Global, manifest: Manifest, place: usize) -> Result<Manifest, AllocError>
    requires { place < length manifest.stanzas.items }
    ensures { IfOk result (λ after. said_manifest after ≡ spec.without_mark (said_manifest manifest) place) }
{
    let mut after = manifest;
    let stanza = unpinned(alloc, &after.stanzas.items()[place])?;
    after.stanzas.set(place, stanza);
    Ok(after)
}

fn unpinned(alloc: Global, stanza: &Stanza) -> Result<Stanza, AllocError>
    ensures { IfOk result (λ other. said_stanza other ≡ spec.unpinned (said_stanza stanza.now)) }
{
    let version = version_copy(alloc, &stanza.version)?;
    with_mark(alloc, stanza, false, version)
}
