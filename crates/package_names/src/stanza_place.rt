//! The stanza that a name means.
ghost use Rattle.std.specs.Prelude.{◌≡◌, ◌<◌, Err, Ok, IfOk, IfSome, MatchResult, length, map};
ghost use Rattle.manifest_file.specs.Said.{said as said_manifest, said_stanza};
ghost use Rattle.package_names.specs.Refusals.{StanzaRefused};
ghost use Rattle.package_names.specs.Stanzas as spec;

use crate::fault::StanzaFault;
use crate::stanza_ids::stanza_ids;
use manifest_file::{Manifest, Stanza};
use pkg_world::{Duplicate, Name};
use std::alloc::Global;
use uuid::Uuid;

/// The place of the one stanza of a manifest that has the name. (Own rule.)
///
/// Errors: NotInManifest exactly where no stanza has it; AmbiguousName, with the two least identifiers, exactly where
/// stanzas of several identifiers have it, and no two stanzas of a manifest have one; want of memory.
pub fn stanza_named(alloc: Global, manifest: &Manifest, name: &Name) -> Result<usize, StanzaFault>
    ensures told { MatchResult result (λ place. spec.stanza_at (said_manifest manifest.now) name.now ≡ Ok place) (StanzaRefused (spec.stanza_at (said_manifest manifest.now) name.now)) }
    ensures within { IfOk result (λ place. place < length manifest.now.stanzas.items) }
{
    let stanzas = manifest.stanzas.items();
    match place_named(stanzas, name) {
        Some(place) => {
            let ids = stanza_ids(alloc, stanzas, name)?;
            unless_several(place, ids.items())
        }
        None => Err(not_in_manifest(alloc, name)),
    }
}

/// The place of the first stanza of the name.
fn place_named(stanzas: &[Stanza], name: &Name) -> Option<usize>
    ensures told { result ≡ spec.place_named name.now (map said_stanza stanzas.now) }
    ensures within { IfSome result (λ place. place < length stanzas.now) }
{
    let mut place = 0;
    'places: while place < stanzas.len() {
        if stanzas[place].name.as_str() == name.as_str() {
            return Some(place);
        }
        place += 1;
    }
    None
}

/// The place, unless there are several identifiers.
fn unless_several(place: usize, ids: &[Uuid]) -> Result<usize, StanzaFault>
    ensures told { MatchResult result (λ found. spec.unless_several place ids.now ≡ Ok found) (StanzaRefused (spec.unless_several place ids.now)) }
    ensures place { IfOk result (λ found. found ≡ place) }
{
    match ids {
        [least, next, ..] => Err(StanzaFault::AmbiguousName(*least, *next)),
        _ => Ok(place),
    }
}

fn not_in_manifest(alloc: Global, name: &Name) -> StanzaFault
    ensures { StanzaRefused (Err (spec.not_in_manifest name.now)) result }
{
    match name.copy(alloc) {
        Ok(name) => StanzaFault::NotInManifest(name),
        Err(_) => StanzaFault::Memory,
    }
}
