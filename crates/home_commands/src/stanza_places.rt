//! Where the stanza of an identifier stands.
ghost use Rattle.std.specs.Prelude.{◌≡◌, ℕ, List, Some, IfOk, OnOk, map, option_map, if◌then◌else◌};
ghost use Rattle.std.specs.Option.{option_copied};
ghost use Rattle.std.specs.Str.{bytes_eq};
ghost use Rattle.manifest_file.specs.Said.{said_stanza};
ghost use Rattle.home_commands.specs.StanzaPlaces as spec;
ghost use Rattle.home_commands.specs.StatusDue.{stanza_with as stanza_meant};

use manifest_file::Stanza;
use std::alloc::{AllocError, Global};
use std::collections::BTreeMap;
use uuid::Uuid;

/// For each identifier the place of its first stanza.
pub(crate) type Places = BTreeMap<Uuid, usize>;

/// For each identifier the place of its first stanza. The one error is want of memory.
pub(crate) fn places_of(alloc: Global, stanzas: &[Stanza]) -> Result<Places, AllocError>
    ensures { IfOk result (λ places. (q : List ℕ) → spec.stanza_at stanzas.now (spec.place_in places q) ≡ stanza_meant q (map said_stanza stanzas.now)) }
{
    let mut places = BTreeMap::new(alloc);
    let mut left = stanzas.len();
    while left > 0 {
        left -= 1;
        let stanza = &stanzas[left];
        add(&mut places, stanza.uuid, left)?;
    }
    Ok(places)
}

fn add(places: &mut Places, uuid: Uuid, place: usize) -> Result<(), AllocError>
    ensures { OnOk result ((q : List ℕ) → spec.place_in places.new q ≡ (if bytes_eq uuid q then Some place else spec.place_in places.old q)) }
{
    places.insert(uuid, place)?;
    Ok(())
}

/// The first stanza of an identifier, by its place.
pub(crate) fn stanza_with<'a>(
    places: &Places,
    uuid: &Uuid,
    stanzas: &'a [Stanza],
) -> Option<&'a Stanza>
    ensures { option_map said_stanza (option_copied result) ≡ spec.stanza_at stanzas.now (spec.place_in places.now uuid.now) }
{
    match places.get(uuid) {
        Some(place) => stanzas.get(*place),
        None => None,
    }
}
