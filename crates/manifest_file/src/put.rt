//! Keys that are put into a table, the last one first.
ghost use Rattle.std.specs.Prelude.{◌≡◌, ◌∷◌, Some, OnOk, IsTrue, option_map};
ghost use Rattle.toml.specs.View.{view, table_view};
ghost use Rattle.pkg_world.specs.ByName.{is_by_name};
ghost use Rattle.manifest_file.specs.Written.{Puts, members_opt};

use std::alloc::{AllocError, Global};
use toml_view::{Table, Value};

/// Puts a value at a key that comes before the others.
pub(crate) fn put(
    alloc: Global,
    table: &mut Table,
    key: &str,
    value: Value,
) -> Result<(), AllocError>
    ensures { (puts : Puts) → table_view table.old ≡ members_opt puts → IsTrue (is_by_name ((key.now, Some (view value)) ∷ puts))
        → OnOk result (table_view table.new ≡ members_opt ((key.now, Some (view value)) ∷ puts)) }
{
    let key = String::from_str(alloc, key)?;
    table.insert(key, value)?;
    Ok(())
}

/// Puts a value, where there is one, at a key that comes before the others.
pub(crate) fn put_some(
    alloc: Global,
    table: &mut Table,
    key: &str,
    value: Option<Value>,
) -> Result<(), AllocError>
    ensures { (puts : Puts) → table_view table.old ≡ members_opt puts → IsTrue (is_by_name ((key.now, option_map view value) ∷ puts))
        → OnOk result (table_view table.new ≡ members_opt ((key.now, option_map view value) ∷ puts)) }
{
    match value {
        Some(value) => put(alloc, table, key, value),
        None => Ok(()),
    }
}
