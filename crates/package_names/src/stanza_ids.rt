//! The identifiers of a manifest's stanzas.
ghost use Rattle.std.specs.Prelude.{◌≡◌, map, IfOk};
ghost use Rattle.manifest_file.specs.Said.{said_stanza};
ghost use Rattle.package_names.specs.Names as spec;

use manifest_file::Stanza;
use pkg_world::{Ids, Listed, Name};
use std::alloc::{AllocError, Global};
use std::collections::BTreeSet;
use uuid::Uuid;

/// The identifiers of the stanzas of a name, in the order of their bytes and each once. The one error is want of memory.
pub(crate) fn stanza_ids(alloc: Global, stanzas: &[Stanza], name: &Name) -> Result<Ids, AllocError>
    ensures { IfOk result (λ ids. ids.items ≡ spec.stanza_ids name.now (map said_stanza stanzas.now)) }
{
    let mut ids = BTreeSet::new(alloc);
    for stanza in stanzas {
        if stanza.name.as_str() == name.as_str() {
            ids.insert(stanza.uuid)?;
        }
    }
    in_order(alloc, ids)
}

fn in_order(alloc: Global, ids: BTreeSet<Uuid>) -> Result<Ids, AllocError>
    ensures { IfOk result (λ list. list.items ≡ ids.keys) }
{
    let mut list = Listed::make(alloc);
    let mut left = ids;
    'ids: while let Some(uuid) = left.pop_first() {
        list.push(uuid)?;
    }
    Ok(list)
}

/// Whether a stanza has the name and the identifier. Takes no memory.
pub(crate) fn stanzas_have(stanzas: &[Stanza], name: &Name, uuid: &Uuid) -> bool
    ensures { result ≡ spec.stanzas_have (map said_stanza stanzas.now) name.now uuid.now }
{
    for stanza in stanzas {
        if stanza.name.as_str() == name.as_str() && *uuid == stanza.uuid {
            return true;
        }
    }
    false
}
