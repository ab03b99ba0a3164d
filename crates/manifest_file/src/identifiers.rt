//! The identifiers of stanzas, none of which may stand twice.
ghost use Rattle.std.specs.Prelude.{◌≡◌, ◌++◌, map, IfOk, OnOk, not, ◌||◌, List, ℕ};
ghost use Rattle.manifest_file.specs.Saying.{uuids_of, first_same};
ghost use Rattle.std.specs.Str.{bytes_eq};
ghost use Rattle.manifest_file.specs.Steps.{IsFirstSame, has_id};

use crate::entry::Entry;
use crate::fault::ManifestFault;
use pkg_world::{Name, Values};
use std::alloc::{AllocError, Global};
use std::collections::BTreeSet;
use uuid::Uuid;

/// Refuses the first stanza whose identifier an earlier one has.
pub(crate) fn no_id_twice(
    alloc: Global,
    groups: &[(Name, Values<Entry>)],
) -> Result<(), ManifestFault>
    ensures { IsFirstSame (first_same groups.now) result }
{
    let ids = all_ids(alloc, groups)?;
    let mut earlier = BTreeSet::new(alloc);
    for id in ids.iter() {
        if !is_new(&mut earlier, *id)? {
            return Err(ManifestFault::SameUuid(*id));
        }
    }
    Ok(())
}

/// Whether an identifier is none of the earlier ones, to which it is added.
fn is_new(earlier: &mut BTreeSet<Uuid>, id: Uuid) -> Result<bool, AllocError>
    ensures new { IfOk result (λ new. new ≡ not (has_id earlier.old id)) }
    ensures added { OnOk result ((q : List ℕ) → has_id earlier.new q ≡ (bytes_eq id q || has_id earlier.old q)) }
{
    Ok(earlier.insert(id)?)
}

/// The identifiers of all stanzas.
fn all_ids(alloc: Global, groups: &[(Name, Values<Entry>)]) -> Result<Vec<Uuid>, AllocError>
    ensures { IfOk result (λ ids. ids.items ≡ uuids_of groups.now) }
{
    let mut ids = Vec::new(alloc);
    for group in groups {
        push_ids(&mut ids, group.1.items())?;
    }
    Ok(ids)
}

fn push_ids(ids: &mut Vec<Uuid>, list: &[Entry]) -> Result<(), AllocError>
    ensures { OnOk result (ids.new.items ≡ ids.old.items ++ map (λ entry. entry.uuid) list.now) }
{
    for entry in list {
        ids.push(entry.uuid)?;
    }
    Ok(())
}
