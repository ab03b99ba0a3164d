//! Stanzas with their listed names resolved.
ghost use Rattle.std.specs.Prelude.{◌≡◌, ◌++◌, ◌∷◌, [], map, IfOk, OnOk};
ghost use Rattle.manifest_file.specs.Saying as spec;
ghost use Rattle.manifest_file.specs.Said.{said_stanza};
ghost use Rattle.manifest_file.specs.Sorting.{bearers_by};
ghost use Rattle.manifest_file.specs.Steps.{Reads, PushesStanzas};

use crate::bearers::{Index, index_of};
use crate::dependencies::Dependencies;
use crate::entry::Entry;
use crate::fault::ManifestFault;
use crate::listed::ids_of_names;
use crate::stanza::Stanza;
use jl_versions::Version;
use pkg_world::{Duplicate, Name, NameIds, Values};
use std::alloc::{AllocError, Global};

/// The stanzas by name, and then as they stand in the file. The first listed name that means no stanza, or several, is
/// refused.
pub(crate) fn all_resolved(
    alloc: Global,
    groups: &[(Name, Values<Entry>)],
) -> Result<Vec<Stanza>, ManifestFault>
    ensures { Reads (λ stanzas. map said_stanza stanzas.items) (spec.stanzas_of groups.now) result }
{
    let index = index_of(alloc, groups)?;
    resolved_by(alloc, &index, groups)
}

fn resolved_by(
    alloc: Global,
    index: &Index,
    groups: &[(Name, Values<Entry>)],
) -> Result<Vec<Stanza>, ManifestFault>
    ensures { Reads (λ stanzas. map said_stanza stanzas.items) (spec.stanzas_by (bearers_by index.now) groups.now) result }
{
    let mut stanzas = Vec::new(alloc);
    for group in groups {
        match push_stanzas(alloc, &mut stanzas, index, &group.0, group.1.items()) {
            Ok(()) => {}
            Err(fault) => return Err(fault),
        }
    }
    Ok(stanzas)
}

fn push_stanzas(
    alloc: Global,
    stanzas: &mut Vec<Stanza>,
    index: &Index,
    name: &Name,
    list: &[Entry],
) -> Result<(), ManifestFault>
    ensures { PushesStanzas stanzas.old.items stanzas.new.items (spec.all_read (spec.stanza_of (bearers_by index.now)) (map (λ entry. (name.now, entry)) list.now)) result }
{
    for entry in list {
        let stanza = resolved(alloc, index, name, entry)?;
        push_stanza(stanzas, stanza)?;
    }
    Ok(())
}

fn push_stanza(stanzas: &mut Vec<Stanza>, stanza: Stanza) -> Result<(), AllocError>
    ensures { OnOk result (stanzas.new.items ≡ stanzas.old.items ++ stanza ∷ []) }
{
    stanzas.push(stanza)?;
    Ok(())
}

fn resolved(
    alloc: Global,
    index: &Index,
    name: &Name,
    entry: &Entry,
) -> Result<Stanza, ManifestFault>
    ensures { Reads said_stanza (spec.stanza_of (bearers_by index.now) (name.now, entry.now)) result }
{
    let deps = ids_of(alloc, index, name, &entry.deps)?;
    let weakdeps = ids_of(alloc, index, name, &entry.weakdeps)?;
    Ok(stanza_with(alloc, name, entry, deps, weakdeps)?)
}

fn stanza_with(
    alloc: Global,
    name: &Name,
    entry: &Entry,
    deps: NameIds,
    weakdeps: NameIds,
) -> Result<Stanza, AllocError>
    ensures { IfOk result (λ stanza. said_stanza stanza ≡ spec.stanza_with name.now entry.now deps.items weakdeps.items) }
{
    Ok(Stanza {
        name: name.copy(alloc)?,
        uuid: entry.uuid,
        version: version_copy(alloc, &entry.version)?,
        origin: entry.origin.copy(alloc)?,
        pinned: entry.pinned,
        deps,
        weakdeps,
        extensions: entry.extensions.list_copy(alloc)?,
    })
}

fn version_copy(alloc: Global, version: &Option<Version>) -> Result<Option<Version>, AllocError>
    ensures { IfOk result (λ other. other ≡ version.now) }
{
    match version {
        None => Ok(None),
        Some(version) => Ok(Some(version.copy(alloc)?)),
    }
}

/// The dependencies with their identifiers, in the order of the names.
fn ids_of(
    alloc: Global,
    index: &Index,
    from: &Name,
    dependencies: &Dependencies,
) -> Result<NameIds, ManifestFault>
    ensures { Reads (λ ids. ids.items) (spec.ids_of (bearers_by index.now) from.now dependencies.now) result }
{
    match dependencies {
        Dependencies::Names(names) => ids_of_names(alloc, index, from, names.items()),
        Dependencies::Ids(ids) => Ok(ids.list_copy(alloc)?),
    }
}
