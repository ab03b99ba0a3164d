//! Who bears a name.
ghost use Rattle.std.specs.Prelude.{◌≡◌, List, ℕ, IfOk, OnOk, Some, cond, map, if◌then◌else◌};
ghost use Rattle.std.specs.Str.{bytes_eq};
ghost use Rattle.manifest_file.specs.Saying as spec;
ghost use Rattle.manifest_file.specs.Said.{said_stanza};
ghost use Rattle.manifest_file.specs.Sorting.{bearers_by};
ghost use Rattle.manifest_file.specs.Written.{bearers_among, one_more as spec_one_more};

use crate::entry::Entry;
use crate::stanza::Stanza;
use pkg_world::{Name, Values};
use std::alloc::{AllocError, Global};
use std::collections::BTreeMap;
use uuid::Uuid;

/// How many stanzas bear a name, with the identifier where it is one.
#[derive(Clone, Copy, Debug, PartialEq, Eq)]
pub(crate) enum Bearers {
    Nobody,
    One(Uuid),
    Several,
}

/// Who bears each name.
pub(crate) type Index = BTreeMap<String, Bearers>;

/// Who bears each name of a manifest.
pub(crate) fn index_of(alloc: Global, groups: &[(Name, Values<Entry>)]) -> Result<Index, AllocError>
    ensures { IfOk result (λ index. (q : List ℕ) → bearers_by index q ≡ spec.bearers_in groups.now q) }
{
    let mut index = BTreeMap::new(alloc);
    let mut left = groups.len();
    while left > 0 {
        left -= 1;
        let (name, list) = &groups[left];
        add(alloc, &mut index, name.as_str(), bearers_of(list.items()))?;
    }
    Ok(index)
}

fn add(alloc: Global, index: &mut Index, name: &str, bearers: Bearers) -> Result<(), AllocError>
    ensures { OnOk result ((q : List ℕ) → bearers_by index.new q ≡ (if bytes_eq name.now q then bearers else bearers_by index.old q)) }
{
    let key = String::from_str(alloc, name)?;
    index.insert(key, bearers)?;
    Ok(())
}

fn bearers_of(stanzas: &[Entry]) -> Bearers
    ensures { result ≡ spec.bearers_of stanzas.now }
{
    match stanzas {
        [] => Bearers::Nobody,
        [stanza] => Bearers::One(stanza.uuid),
        _ => Bearers::Several,
    }
}

/// Who bears each name among some stanzas.
pub(crate) fn index_of_stanzas(alloc: Global, stanzas: &[Stanza]) -> Result<Index, AllocError>
    ensures { IfOk result (λ index. (q : List ℕ) → bearers_by index q ≡ bearers_among (map said_stanza stanzas.now) q) }
{
    let mut index = BTreeMap::new(alloc);
    let mut left = stanzas.len();
    while left > 0 {
        left -= 1;
        let stanza = &stanzas[left];
        let name = stanza.name.as_str();
        let bearers = one_more(stanza.uuid, named(&index, name));
        add(alloc, &mut index, name, bearers)?;
    }
    Ok(index)
}

fn one_more(id: Uuid, bearers: Bearers) -> Bearers
    ensures { result ≡ spec_one_more id bearers }
{
    match bearers {
        Bearers::Nobody => Bearers::One(id),
        Bearers::One(_) => Bearers::Several,
        Bearers::Several => Bearers::Several,
    }
}

/// Who bears a name.
pub(crate) fn named(index: &Index, name: &str) -> Bearers
    ensures { result ≡ bearers_by index.now name.now }
{
    match index.get(name) {
        Some(found) => *found,
        None => Bearers::Nobody,
    }
}
