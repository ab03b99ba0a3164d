//! Stanzas whose paths rise above the root.
ghost use Rattle.std.specs.Prelude.{◌≡◌, IfOk, map};
ghost use Rattle.std.specs.Option.{option_copied};
ghost use Rattle.manifest_file.specs.Said.{said_stanza};
ghost use Rattle.env_maps.specs.Maps as spec;
ghost use Rattle.project_places.specs.Files.{RefusesFile};
ghost use Rattle.pkg_world.specs.declared.cause.Cause.TheVariants.{BadShape};

use manifest_file::{Origin, Stanza};
use pkg_world::{Cause, Name, NormPath, PathFault, Text};
use project_places::{EnvFault, bad_file};
use std::alloc::{AllocError, Global};

/// The name of the first stanza whose path, taken from the manifest's folder, rises above the root.
pub(crate) fn first_escaping<'a>(
    alloc: Global,
    folder: &NormPath,
    stanzas: &'a [Stanza],
) -> Result<Option<&'a Name>, AllocError>
    ensures { IfOk result (λ name. option_copied name ≡ spec.first_escaping folder.now (map said_stanza stanzas.now)) }
{
    for stanza in stanzas {
        if escapes(alloc, folder, &stanza.origin)? {
            return Ok(Some(&stanza.name));
        }
    }
    Ok(None)
}

fn escapes(alloc: Global, folder: &NormPath, origin: &Origin) -> Result<bool, AllocError>
    ensures { IfOk result (λ escapes. escapes ≡ spec.escapes folder.now origin.now) }
{
    match origin {
        Origin::Path(text) => match NormPath::join(alloc, folder, text.as_str()) {
            Ok(_) => Ok(false),
            Err(PathFault::Escapes) => Ok(true),
            Err(PathFault::Memory) => Err(AllocError),
        },
        Origin::Tree(_) => Ok(false),
        Origin::Repo { .. } => Ok(false),
        Origin::Std => Ok(false),
    }
}

/// The refusal of the path of that stanza, or want of memory.
pub(crate) fn path_refused(alloc: Global, manifest: &NormPath, name: &Name) -> EnvFault
    ensures { RefusesFile manifest.now (BadShape (spec.path_keys name.now)) result }
{
    match path_keys(alloc, name) {
        Ok(keys) => bad_file(alloc, manifest, Cause::BadShape(keys)),
        Err(_) => EnvFault::Memory,
    }
}

fn path_keys(alloc: Global, name: &Name) -> Result<Text, AllocError>
    ensures { IfOk result (λ keys. keys ≡ spec.path_keys name.now) }
{
    let name = name.as_str();
    let keys = format!(in alloc; "deps.{name}.path")?;
    Text::of(alloc, keys.as_str())
}
