//! Lists of names, each of which means the one stanza of that name.
ghost use Rattle.std.specs.Prelude.{◌≡◌, ◌++◌, ◌∷◌, [], OnOk};
ghost use Rattle.manifest_file.specs.Saying as spec;
ghost use Rattle.manifest_file.specs.Sorting.{bearers_by};
ghost use Rattle.manifest_file.specs.Steps.{Reads};

use crate::bearers::{Bearers, Index, named};
use crate::fault::ManifestFault;
use crate::sorting::in_name_order;
use pkg_world::{Duplicate, Name, NameIds};
use std::alloc::{AllocError, Global};
use uuid::Uuid;

/// The names of a stanza's list with the identifiers that they mean, in the order of the names.
pub(crate) fn ids_of_names(
    alloc: Global,
    index: &Index,
    from: &Name,
    names: &[Name],
) -> Result<NameIds, ManifestFault>
    ensures { Reads (λ ids. ids.items) (spec.ids_of_names (bearers_by index.now) from.now names.now) result }
{
    let pairs = listed_ids(alloc, index, from, names)?;
    Ok(in_name_order(alloc, pairs.as_slice())?)
}

/// The identifiers in the order of the list.
fn listed_ids(
    alloc: Global,
    index: &Index,
    from: &Name,
    names: &[Name],
) -> Result<Vec<(Name, Uuid)>, ManifestFault>
    ensures { Reads (λ pairs. pairs.items) (spec.all_read (spec.listed_id (bearers_by index.now) from.now) names.now) result }
{
    let mut pairs = Vec::new(alloc);
    for name in names {
        match listed_id(alloc, index, from, name) {
            Ok(pair) => push_pair(&mut pairs, pair)?,
            Err(fault) => return Err(fault),
        }
    }
    Ok(pairs)
}

fn push_pair(pairs: &mut Vec<(Name, Uuid)>, pair: (Name, Uuid)) -> Result<(), AllocError>
    ensures { OnOk result (pairs.new.items ≡ pairs.old.items ++ pair ∷ []) }
{
    pairs.push(pair)?;
    Ok(())
}

fn listed_id(
    alloc: Global,
    index: &Index,
    from: &Name,
    name: &Name,
) -> Result<(Name, Uuid), ManifestFault>
    ensures { Reads (λ pair. pair) (spec.listed_id (bearers_by index.now) from.now name.now) result }
{
    let id = the_one(alloc, from, name, named(index, name.as_str()))?;
    Ok((name.copy(alloc)?, id))
}

/// The identifier of the one stanza that a listed name means.
fn the_one(alloc: Global, from: &Name, name: &Name, bearers: Bearers) -> Result<Uuid, ManifestFault>
    ensures { Reads (λ id. id) (spec.the_one from.now name.now bearers) result }
{
    match bearers {
        Bearers::Nobody => Err(ManifestFault::Dangling(from.copy(alloc)?, name.copy(alloc)?)),
        Bearers::One(id) => Ok(id),
        Bearers::Several => Err(ManifestFault::Unclear(from.copy(alloc)?, name.copy(alloc)?)),
    }
}
