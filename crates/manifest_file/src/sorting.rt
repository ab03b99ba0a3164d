//! Names with identifiers in the order of the names.
ghost use Rattle.std.specs.Prelude.{◌≡◌, IfOk, OnOk};
ghost use Rattle.std.specs.Ordering.{nat_cmp};
ghost use Rattle.std.specs.Cmp.Lexicographic.{slice_cmp};
ghost use Rattle.std.specs.FinMap.Entries.{put as entry_put};
ghost use Rattle.manifest_file.specs.Saying as spec;
ghost use Rattle.manifest_file.specs.Sorting.{pairs_of};

use pkg_world::{Listed, Name, NameIds, Named};
use std::alloc::{AllocError, Global};
use std::collections::BTreeMap;
use uuid::Uuid;

/// The pairs in the order of their names, a name that stands twice once.
pub(crate) fn in_name_order(alloc: Global, pairs: &[(Name, Uuid)]) -> Result<NameIds, AllocError>
    ensures { IfOk result (λ ids. ids.items ≡ spec.in_name_order pairs.now) }
{
    let map = map_of(alloc, pairs)?;
    let list = listed(alloc, &map)?;
    Ok(Named::of(list))
}

fn map_of(alloc: Global, pairs: &[(Name, Uuid)]) -> Result<BTreeMap<String, Uuid>, AllocError>
    ensures { IfOk result (λ map. pairs_of map.entries ≡ spec.in_name_order pairs.now) }
{
    let mut map = BTreeMap::new(alloc);
    let mut left = pairs.len();
    while left > 0 {
        left -= 1;
        let (name, id) = &pairs[left];
        put(alloc, &mut map, name.as_str(), *id)?;
    }
    Ok(map)
}

fn put(
    alloc: Global,
    map: &mut BTreeMap<String, Uuid>,
    name: &str,
    id: Uuid,
) -> Result<(), AllocError>
    ensures { OnOk result (pairs_of map.new.entries ≡ entry_put (slice_cmp nat_cmp) name.now id (pairs_of map.old.entries)) }
{
    let key = String::from_str(alloc, name)?;
    map.insert(key, id)?;
    Ok(())
}

fn listed(alloc: Global, map: &BTreeMap<String, Uuid>) -> Result<Listed<(Name, Uuid)>, AllocError>
    ensures { IfOk result (λ list. list.items ≡ pairs_of map.now.entries) }
{
    let mut list = Listed::make(alloc);
    'entries: for (name, id) in map.iter() {
        list.push((Name::of(alloc, name.as_str())?, *id))?;
    }
    Ok(list)
}
