//! The values of a stanza's keys.
ghost use Rattle.std.specs.Prelude.{◌≡◌, ◌++◌, ◌∷◌, [], Some, map, IfOk, OnOk, IsTrue, option_map};
ghost use Rattle.toml.specs.Data.{string, array, table};
ghost use Rattle.toml.specs.View.{view, table_view, items_of};
ghost use Rattle.pkg_world.specs.ByName.{is_by_name};
ghost use Rattle.pkg_world.specs.TreeIds.{tree_text};
ghost use Rattle.manifest_file.specs.Sorting.{bearers_by};
ghost use Rattle.manifest_file.specs.Written as spec;
ghost use Rattle.manifest_file.specs.ReadsBack.{UuidBack, VersionBack, TreeBack, IdsBack, DependenciesBack};

use crate::bearers::{Bearers, Index, named};
use crate::put::put;
use jl_versions::Version;
use jl_versions::laws::text_means_one_version;
use pkg_world::{ExtList, Name, NameIds, TreeId};
use std::alloc::{AllocError, Global};
use toml_view::{Table, Value};
use uuid::Uuid;

pub(crate) fn uuid_value(alloc: Global, id: &Uuid) -> Result<Value, AllocError>
    ensures data { IfOk result (λ value. view value ≡ spec.uuid_data id.now) }
    ensures back { IfOk result (λ value. UuidBack id.now) }
{
    let mut buffer = Uuid::encode_buffer();
    let text = id.hyphenated().encode_lower(&mut buffer);
    Value::string(alloc, text)
}

pub(crate) fn version_value(
    alloc: Global,
    version: &Option<Version>,
) -> Result<Option<Value>, AllocError>
    ensures data { IfOk result (λ value. option_map view value ≡ option_map spec.version_data version.now) }
    ensures back { IfOk result (λ value. VersionBack version.now) }
{
    match version {
        Some(version) => Ok(Some(printed_value(alloc, version)?)),
        None => Ok(None),
    }
}

fn printed_value(alloc: Global, version: &Version) -> Result<Value, AllocError>
    ensures data { IfOk result (λ value. view value ≡ spec.version_data version.now) }
    ensures back { IfOk result (λ value. VersionBack (Some version.now)) }
{
    text_means_one_version();
    let text = version.print(alloc)?;
    Value::string(alloc, text.as_str())
}

pub(crate) fn tree_value(alloc: Global, tree: &TreeId) -> Result<Value, AllocError>
    ensures data { IfOk result (λ value. view value ≡ string (tree_text tree.now)) }
    ensures back { IfOk result (λ value. TreeBack tree.now) }
{
    digits_read_back(tree);
    let text = tree.text(alloc)?;
    Value::string(alloc, text.as_str())
}

/// The digits of a tree's identifier mean that tree.
fn digits_read_back(tree: &TreeId)
    ensures { TreeBack tree.now }
{
    let _ = tree.print();
}

pub(crate) fn name_value(alloc: Global, name: &Name) -> Result<Value, AllocError>
    ensures { IfOk result (λ value. view value ≡ string name.now) }
{
    Value::string(alloc, name.as_str())
}

pub(crate) fn name_or_none(alloc: Global, name: &Option<Name>) -> Result<Option<Value>, AllocError>
    ensures { IfOk result (λ value. option_map view value ≡ option_map string name.now) }
{
    match name {
        Some(name) => Ok(Some(name_value(alloc, name)?)),
        None => Ok(None),
    }
}

fn push_name(alloc: Global, list: &mut Vec<Value>, name: &Name) -> Result<(), AllocError>
    ensures { OnOk result (map view list.new.items ≡ map view list.old.items ++ string name.now ∷ []) }
{
    let value = name_value(alloc, name)?;
    list.push(value)?;
    Ok(())
}

pub(crate) fn array_value(list: Vec<Value>) -> Value
    ensures { view result ≡ array (items_of (map view list.items)) }
{
    Value::Array(list)
}

pub(crate) fn table_value(members: Table) -> Value
    ensures { view result ≡ table (table_view members) }
{
    Value::Table(members)
}

/// The names alone.
fn names_value(alloc: Global, ids: &[(Name, Uuid)]) -> Result<Value, AllocError>
    ensures { IfOk result (λ value. view value ≡ spec.names_data (map (λ pair. pair.0) ids.now)) }
{
    let mut list = Vec::new(alloc);
    for pair in ids {
        push_name(alloc, &mut list, &pair.0)?;
    }
    Ok(array_value(list))
}

fn triggers_value(alloc: Global, names: &[Name]) -> Result<Value, AllocError>
    ensures { IfOk result (λ value. view value ≡ spec.names_data names.now) }
{
    let mut list = Vec::new(alloc);
    for name in names {
        push_name(alloc, &mut list, name)?;
    }
    Ok(array_value(list))
}

#[tactic(auto, using(crate::proofs::Carried::ids_end))]
fn ids_value(alloc: Global, ids: &[(Name, Uuid)]) -> Result<Value, AllocError>
    requires { IsTrue (is_by_name ids.now) }
    ensures data { IfOk result (λ value. view value ≡ spec.ids_data ids.now) }
    ensures back { IfOk result (λ value. IdsBack ids.now) }
{
    let mut table = Table::new(alloc);
    let mut left = ids.len();
    while left > 0 {
        left -= 1;
        let (name, id) = &ids[left];
        let value = uuid_value(alloc, id)?;
        put(alloc, &mut table, name.as_str(), value)?;
    }
    Ok(table_value(table))
}

/// Dependencies: a list of names where that says the identifiers, else a table; None where there are none.
pub(crate) fn dependencies_value(
    alloc: Global,
    index: &Index,
    ids: &NameIds,
) -> Result<Option<Value>, AllocError>
    ensures data { IfOk result (λ value. option_map view value ≡ spec.dependencies_data (bearers_by index.now) ids.now.items) }
    ensures back { IfOk result (λ value. DependenciesBack (bearers_by index.now) ids.now.items) }
{
    let ids = ids.items();
    if ids.is_empty() {
        Ok(None)
    } else if are_listable(index, ids) {
        Ok(Some(names_value(alloc, ids)?))
    } else {
        Ok(Some(ids_value(alloc, ids)?))
    }
}

fn are_listable(index: &Index, ids: &[(Name, Uuid)]) -> bool
    ensures { result ≡ spec.are_listable (bearers_by index.now) ids.now }
{
    for pair in ids {
        if !is_the_one(named(index, pair.0.as_str()), &pair.1) {
            return false;
        }
    }
    true
}

fn is_the_one(bearers: Bearers, uuid: &Uuid) -> bool
    ensures { result ≡ spec.is_the_one bearers uuid.now }
{
    match bearers {
        Bearers::One(id) => id == *uuid,
        Bearers::Nobody => false,
        Bearers::Several => false,
    }
}

/// Extensions with the lists of their triggers; None where there are none.
pub(crate) fn extensions_value(
    alloc: Global,
    extensions: &ExtList,
) -> Result<Option<Value>, AllocError>
    ensures { IfOk result (λ value. option_map view value ≡ spec.extensions_data extensions.now.items) }
{
    let extensions = extensions.items();
    if extensions.is_empty() {
        return Ok(None);
    }
    let mut table = Table::new(alloc);
    let mut left = extensions.len();
    while left > 0 {
        left -= 1;
        let (name, triggers) = &extensions[left];
        let value = triggers_value(alloc, triggers.items())?;
        put(alloc, &mut table, name.as_str(), value)?;
    }
    Ok(Some(table_value(table)))
}
