//! Copies of stanzas.
ghost use Rattle.std.specs.Prelude.{◌≡◌, IfOk};
ghost use Rattle.manifest_file.specs.Said.{said_stanza};
ghost use Rattle.project_changes.specs.Stanzas as spec;

use jl_versions::Version;
use manifest_file::Stanza;
use pkg_world::Duplicate;
use std::alloc::{AllocError, Global};

/// A copy of the stanza with this mark and this version. The one error is want of memory.
pub(crate) fn with_mark(
    alloc: Global,
    stanza: &Stanza,
    pinned: bool,
    version: Option<Version>,
) -> Result<Stanza, AllocError>
    ensures { IfOk result (λ other. said_stanza other ≡ spec.with_mark pinned version (said_stanza stanza.now)) }
{
    Ok(Stanza {
        name: stanza.name.copy(alloc)?,
        uuid: stanza.uuid,
        version,
        origin: stanza.origin.copy(alloc)?,
        pinned,
        deps: stanza.deps.copy(alloc)?,
        weakdeps: stanza.weakdeps.copy(alloc)?,
        extensions: stanza.extensions.copy(alloc)?,
    })
}

/// An equal version, if there is one. The one error is want of memory.
pub(crate) fn version_copy(
    alloc: Global,
    version: &Option<Version>,
) -> Result<Option<Version>, AllocError>
    ensures { IfOk result (λ other. other ≡ version.now) }
{
    match version {
        Some(version) => Ok(Some(version.copy(alloc)?)),
        None => Ok(None),
    }
}
