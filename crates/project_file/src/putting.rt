//! Putting values into a table.
ghost use Rattle.std.specs.Prelude.{◌≡◌, ◌≤◌, true, Ok, Some, IfOk, OnOk, IsTrue, option_map};
ghost use Rattle.toml.specs.Data.{string, table as as_data, members_depth, members_have_valid_dates};
ghost use Rattle.toml.specs.View.{view, table_view};
ghost use Rattle.toml_view.specs.Reading.{each, opt_at};
ghost use Rattle.pkg_world.specs.ByName.{is_by_name};
ghost use Rattle.project_file.specs.Putting.{put as with_put, put_some, Puts, each_at};

use crate::writes::Writes;
use pkg_world::Name;
use std::alloc::{AllocError, Global};
use toml_view::{Table, Value};

/// Puts the value at the key.
pub(crate) fn put(
    alloc: Global,
    table: &mut Table,
    key: &str,
    value: Value,
) -> Result<(), AllocError>
    ensures { OnOk result (table_view table.new ≡ with_put key.now (view value) (table_view table.old)) }
{
    let key = String::from_str(alloc, key)?;
    drop(table.insert(key, value)?);
    Ok(())
}

/// Puts the text at the key, and leaves the table where there is none.
pub(crate) fn put_text(
    alloc: Global,
    table: &mut Table,
    key: &str,
    text: &Option<Name>,
) -> Result<(), AllocError>
    ensures { OnOk result (table_view table.new ≡ put_some key.now (option_map (λ t. string t) text.now) (table_view table.old)) }
{
    match text {
        None => Ok(()),
        Some(text) => {
            let value = Value::string(alloc, text.as_str())?;
            put(alloc, table, key, value)?;
            Ok(())
        }
    }
}

/// Puts what is there at the key, and leaves the table where there is nothing.
pub(crate) fn put_one<T: Writes>(
    alloc: Global,
    table: &mut Table,
    key: &str,
    found: &Option<T>,
) -> Result<(), AllocError>
    ensures { OnOk result (Puts (opt_at T.gives key.now) key.now found.now (table_view table.old) (table_view table.new)) }
{
    match found {
        None => Ok(()),
        Some(value) => put_value(alloc, table, key, value),
    }
}

/// Puts the written value at the key.
fn put_value<T: Writes>(
    alloc: Global,
    table: &mut Table,
    key: &str,
    value: &T,
) -> Result<(), AllocError>
    ensures { OnOk result (Puts (opt_at T.gives key.now) key.now (Some value.now) (table_view table.old) (table_view table.new)) }
{
    let written = value.write(alloc)?;
    put(alloc, table, key, written)?;
    Ok(())
}

/// Puts the table of the items at the key, and leaves the table where there are none.
pub(crate) fn put_each<T: Writes>(
    alloc: Global,
    table: &mut Table,
    key: &str,
    items: &[(Name, T)],
) -> Result<(), AllocError>
    requires { IsTrue (is_by_name items.now) }
    ensures { OnOk result (Puts (each_at T.gives key.now) key.now items.now (table_view table.old) (table_view table.new)) }
{
    if items.is_empty() {
        return Ok(());
    }
    let pairs = table_of(alloc, items)?;
    put_table(alloc, table, key, pairs)?;
    Ok(())
}

/// Puts the table at the key.
fn put_table(alloc: Global, table: &mut Table, key: &str, inner: Table) -> Result<(), AllocError>
    ensures { OnOk result (table_view table.new ≡ with_put key.now (as_data (table_view inner)) (table_view table.old)) }
{
    put(alloc, table, key, Value::Table(inner))
}

/// The table of the items, which are in the order of their names.
fn table_of<T: Writes>(alloc: Global, items: &[(Name, T)]) -> Result<Table, AllocError>
    requires { IsTrue (is_by_name items.now) }
    ensures back { IfOk result (λ table. each T.gives (table_view table) ≡ Ok items.now) }
    ensures flat { IfOk result (λ table. members_depth (table_view table) ≤ 1) }
    ensures dated { IfOk result (λ table. members_have_valid_dates (table_view table) ≡ true) }
{
    let mut table = Table::new(alloc);
    for (name, value) in items {
        let written = value.write(alloc)?;
        put(alloc, &mut table, name.as_str(), written)?;
    }
    Ok(table)
}
