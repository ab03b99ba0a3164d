//! Printing a table as a file's bytes.
ghost use Rattle.std.specs.Prelude.{◌≡◌, ◌≤◌, ◌↔◌, false, Ok, Err, IfOk, string_bytes};
ghost use Rattle.toml.specs.Data.{members_have_valid_dates};
ghost use Rattle.toml.specs.View.{table_view};
ghost use Rattle.toml_view.specs.Document.{viewed, nesting, nesting_limit};

use pkg_world::{Bytes, Listed};
use std::alloc::Global;
use thiserror::Error;
use toml::Table;

/// Why a table isn't printed.
#[derive(Debug, Drop, Error)]
pub enum PrintFault {
    /// A date or time in it has a part out of its range, or is none of TOML's four forms.
    #[error("a date that TOML has no text for")]
    BadDate,
    #[error("no memory")]
    Memory,
}

/// The bytes of a table, which read again to the same table. The caller's table nests at most 64 deep. It is refused
/// as BadDate exactly where a date or time in it is none that a TOML text can write (TOML 1.0, Offset Date-Time and the
/// sections after it).
pub fn print_table(alloc: Global, table: &Table) -> Result<Bytes, PrintFault>
    requires { nesting (table_view table.now) ≤ nesting_limit }
    ensures read { IfOk result (λ bytes. viewed bytes.items ≡ Ok (table_view table.now)) }
    ensures date { (result ≡ Err PrintFault.BadDate) ↔ (members_have_valid_dates (table_view table.now) ≡ false) }
{
    match toml::ser::table_to_string(alloc, table) {
        Ok(text) => Ok(bytes_of(text)),
        Err(toml::ser::Error::DateInvalid) => Err(PrintFault::BadDate),
        Err(toml::ser::Error::OutOfMemory) => Err(PrintFault::Memory),
    }
}

/// The bytes of a text.
fn bytes_of(text: String) -> Bytes
    ensures { result.items ≡ string_bytes text }
{
    Listed::of_vec(text.into_bytes())
}
