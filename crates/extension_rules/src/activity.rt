//! The extensions that are active.
ghost use Rattle.std.specs.Prelude.{◌≡◌, ◌++◌, ◌||◌, ℕ, List, IfOk, OnOk, map};
ghost use Rattle.std.specs.List.{list_any};
ghost use Rattle.std.specs.Option.{option_copied};
ghost use Rattle.std.specs.Str.{bytes_eq};
ghost use Rattle.manifest_file.specs.Said.{said, said_stanza};
ghost use Rattle.manifest_file.specs.Steps.{has_id};
ghost use Rattle.extension_rules.specs.Rules as spec;

use crate::trigger_ids::trigger_id;
use manifest_file::{Manifest, Stanza};
use pkg_world::{Duplicate, Ids, Listed, Name};
use std::alloc::{AllocError, Global};
use std::collections::BTreeSet;
use uuid::Uuid;

/// An extension that is active, with the identifier of the package that it extends.
#[derive(Debug, Drop)]
pub struct ActiveExtension {
    pub parent: Uuid,
    pub extension: Name,
}

/// Extensions that are active.
pub type ActiveList = Listed<ActiveExtension>;

/// A set of identifiers.
pub type IdSet = BTreeSet<Uuid>;

/// The extensions that are active where some packages are loaded: those whose parent and triggers are all among them, in
/// the order of the manifest's stanzas and then of the extensions' names. The one error is want of memory. (Julia manual,
/// Code Loading.)
pub fn active(alloc: Global, manifest: &Manifest, loaded: &Ids) -> Result<ActiveList, AllocError>
    ensures { IfOk result (λ list. list.items ≡ spec.active (spec.is_id_among loaded.now.items) (said manifest.now).stanzas) }
{
    let loaded = id_set(alloc, loaded.items())?;
    active_among(alloc, &loaded, manifest.stanzas.items())
}

/// The set of these identifiers. The one error is want of memory.
pub fn id_set(alloc: Global, ids: &[Uuid]) -> Result<IdSet, AllocError>
    ensures { IfOk result (λ set. (q : List ℕ) → has_id set q ≡ spec.is_id_among ids.now q) }
{
    let mut set = BTreeSet::new(alloc);
    for id in ids {
        put(&mut set, *id)?;
    }
    Ok(set)
}

fn put(set: &mut IdSet, id: Uuid) -> Result<(), AllocError>
    ensures { OnOk result ((q : List ℕ) → has_id set.new q ≡ (bytes_eq id q || has_id set.old q)) }
{
    set.insert(id)?;
    Ok(())
}

fn active_among(alloc: Global, loaded: &IdSet, stanzas: &[Stanza]) -> Result<ActiveList, AllocError>
    ensures { IfOk result (λ list. list.items ≡ spec.active (has_id loaded.now) (map said_stanza stanzas.now)) }
{
    let mut list = Listed::make(alloc);
    for stanza in stanzas {
        push_loaded(alloc, &mut list, loaded, stanza)?;
    }
    Ok(list)
}

/// Appends the active extensions of a package, where it is loaded.
fn push_loaded(
    alloc: Global,
    list: &mut ActiveList,
    loaded: &IdSet,
    stanza: &Stanza,
) -> Result<(), AllocError>
    ensures { OnOk result (list.new.items ≡ list.old.items ++ spec.active_of (has_id loaded.now) (said_stanza stanza.now)) }
{
    if !loaded.contains(&stanza.uuid) {
        return Ok(());
    }
    push_active(alloc, list, loaded, stanza)
}

fn push_active(
    alloc: Global,
    list: &mut ActiveList,
    loaded: &IdSet,
    stanza: &Stanza,
) -> Result<(), AllocError>
    ensures { OnOk result (list.new.items ≡ list.old.items ++ spec.active_named (has_id loaded.now) (said_stanza stanza.now) stanza.now.extensions.items) }
{
    for (name, triggers) in stanza.extensions.items() {
        if is_active(loaded, stanza, triggers.items()) {
            list.push(ActiveExtension {
                parent: stanza.uuid,
                extension: name.copy(alloc)?,
            })?;
        }
    }
    Ok(())
}

/// Whether an extension of a package is active where that package is: whether all its triggers have identifiers, by the
/// package's `weakdeps` and `deps`, that are loaded. It takes no memory.
pub fn is_active(loaded: &IdSet, parent: &Stanza, triggers: &[Name]) -> bool
    ensures { result ≡ spec.is_active (has_id loaded.now) (said_stanza parent.now) triggers.now }
{
    for name in triggers {
        if !is_loaded(
            loaded,
            trigger_id(parent.weakdeps.items(), parent.deps.items(), name),
        ) {
            return false;
        }
    }
    true
}

fn is_loaded(loaded: &IdSet, id: Option<&Uuid>) -> bool
    ensures { result ≡ spec.is_loaded (has_id loaded.now) (option_copied id.entry) }
{
    match id {
        Some(id) => loaded.contains(id),
        None => false,
    }
}
