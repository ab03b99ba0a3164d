//! How deep tables and lists nest.
ghost use Rattle.std.specs.Prelude.{◌≡◌, nat_le};
ghost use Rattle.toml.specs.Data.{depth, items_depth, members_depth};
ghost use Rattle.toml.specs.View.{view, array_view, table_view};
ghost use Rattle.toml_view.specs.Document.{nesting, nesting_limit};

use toml::value::Array;
use toml::{Table, Value};

/// Whether the nesting of the table of a file keeps within the limit.
pub(crate) fn is_within_limit(table: &Table) -> bool
    ensures { result ≡ nat_le (nesting (table_view table.now)) nesting_limit }
{
    members_fit(table, 63)
}

#[cycle(nesting)]
fn fits(value: &Value, room: u8) -> bool
    ensures { result ≡ nat_le (depth (view value.now)) room }
{
    match value {
        Value::Array(array) => room > 0 && items_fit(array, room - 1),
        Value::Table(table) => room > 0 && members_fit(table, room - 1),
        _ => true,
    }
}

#[cycle(nesting)]
fn items_fit(array: &Array, room: u8) -> bool
    ensures { result ≡ nat_le (items_depth (array_view array.now)) room }
{
    'items: for item in array {
        if !fits(item, room) {
            return false;
        }
    }
    true
}

#[cycle(nesting)]
fn members_fit(table: &Table, room: u8) -> bool
    ensures { result ≡ nat_le (members_depth (table_view table.now)) room }
{
    'members: for (_key, member) in table.iter() {
        if !fits(member, room) {
            return false;
        }
    }
    true
}
