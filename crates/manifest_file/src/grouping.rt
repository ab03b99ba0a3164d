//! Stanzas of one name stand in one list.
ghost use Rattle.std.specs.Prelude.{◌≡◌, ◌++◌, ◌∷◌, [], ◌<◌, ◌≤◌, ◌-◌, true, false, map, take, drop, length, IfOk, OnOk, IsTrue, MatchBool};
ghost use Rattle.std.specs.Str.{bytes_eq};
ghost use Rattle.toml.specs.View.{view, table_view};
ghost use Rattle.manifest_file.specs.Said.{said_stanza};
ghost use Rattle.manifest_file.specs.Sorting.{bearers_by};
ghost use Rattle.manifest_file.specs.Written as spec;
ghost use Rattle.manifest_file.specs.ReadsBack.{StanzasBack};

use crate::bearers::Index;
use crate::put::put;
use crate::stanza::Stanza;
use crate::stanza_table::stanza_value;
use crate::written::{array_value, table_value};
use std::alloc::{AllocError, Global};
use toml_view::{Table, Value};

/// The table of stanzas by name.
#[tactic(auto, using(crate::proofs::Carried::stanzas_end))]
pub(crate) fn stanzas_value(
    alloc: Global,
    index: &Index,
    stanzas: &[Stanza],
) -> Result<Value, AllocError>
    requires { IsTrue (spec.are_by_name (map said_stanza stanzas.now)) }
    ensures data { IfOk result (λ value. view value ≡ spec.stanzas_data (bearers_by index.now) (map said_stanza stanzas.now)) }
    ensures back { IfOk result (λ value. StanzasBack (bearers_by index.now) (map said_stanza stanzas.now)) }
{
    let mut table = Table::new(alloc);
    let mut end = stanzas.len();
    while end > 0 {
        let start = run_start(stanzas, end);
        let value = group_value(alloc, index, &stanzas[start..end])?;
        put(alloc, &mut table, stanzas[start].name.as_str(), value)?;
        end = start;
    }
    Ok(table_value(table))
}

/// Where the stanzas begin that have the name of the last one before a place.
fn run_start(stanzas: &[Stanza], end: usize) -> usize
    requires within { end ≤ length stanzas.now }
    requires some { 0 < end }
    requires apart { spec.is_apart (spec.name_before end (map said_stanza stanzas.now)) (spec.grouped (map said_stanza (drop end stanzas.now))) ≡ true }
    ensures before { result < end }
    ensures run { spec.grouped (map said_stanza (drop result stanzas.now))
        ≡ spec.with_run (map said_stanza (take (end - result) (drop result stanzas.now))) (spec.grouped (map said_stanza (drop end stanzas.now))) }
    ensures apart { 0 < result → spec.is_apart (spec.name_before result (map said_stanza stanzas.now)) (spec.grouped (map said_stanza (drop result stanzas.now))) ≡ true }
{
    let mut start = end - 1;
    while is_run_longer(stanzas, start) {
        start -= 1;
    }
    start
}

/// Whether the stanza before a place has the name of the one there.
fn is_run_longer(stanzas: &[Stanza], start: usize) -> bool
    requires { start < length stanzas.now }
    ensures { MatchBool result
        ((0 < start) × (bytes_eq (spec.name_before start (map said_stanza stanzas.now)) (spec.name_at start (map said_stanza stanzas.now)) ≡ true))
        (0 < start → bytes_eq (spec.name_before start (map said_stanza stanzas.now)) (spec.name_at start (map said_stanza stanzas.now)) ≡ false) }
{
    if start == 0 {
        return false;
    }
    let before = &stanzas[start - 1];
    let here = &stanzas[start];
    before.name.as_str() == here.name.as_str()
}

fn group_value(alloc: Global, index: &Index, stanzas: &[Stanza]) -> Result<Value, AllocError>
    ensures data { IfOk result (λ value. view value ≡ spec.group_data (bearers_by index.now) (map said_stanza stanzas.now)) }
    ensures back { IfOk result (λ value. StanzasBack (bearers_by index.now) (map said_stanza stanzas.now)) }
{
    let mut list = Vec::new(alloc);
    for stanza in stanzas {
        let value = stanza_value(alloc, index, stanza)?;
        push_value(&mut list, value)?;
    }
    Ok(array_value(list))
}

fn push_value(list: &mut Vec<Value>, value: Value) -> Result<(), AllocError>
    ensures { OnOk result (map view list.new.items ≡ map view list.old.items ++ view value ∷ []) }
{
    list.push(value)?;
    Ok(())
}
