//! The table of a file's bytes.
ghost use Rattle.std.specs.Prelude.{◌≡◌, ◌≤◌, IfOk};
ghost use Rattle.toml.specs.View.{table_view};
ghost use Rattle.toml_view.specs.Document.{viewed, nesting, nesting_limit};
ghost use Rattle.toml_view.specs.Answers.{GivesView};

use crate::nesting::is_within_limit;
use std::alloc::Global;
use thiserror::Error;
use toml::Table;

/// Why bytes have no table.
#[derive(Debug, Drop, Error)]
pub enum ViewFault {
    /// The bytes aren't UTF-8, or no TOML text.
    #[error("no TOML text")]
    BadToml,
    /// The nesting of the tables and lists passes 64.
    #[error("nested deeper than 64")]
    Deep,
    #[error("no memory")]
    Memory,
}

/// The table of a file's bytes. It is refused as BadToml exactly where the bytes aren't UTF-8 or the text isn't TOML,
/// and else as Deep exactly where the nesting of its tables and lists, the file's own table counted, passes 64
/// (a rule of this program's own).
pub fn view(alloc: Global, bytes: &[u8]) -> Result<Table, ViewFault>
    ensures told { GivesView result bytes.now }
    ensures within { IfOk result (λ table. nesting (table_view table) ≤ nesting_limit) }
{
    match toml::de::table_from_slice(alloc, bytes) {
        Ok(table) => {
            if is_within_limit(&table) {
                Ok(table)
            } else {
                Err(ViewFault::Deep)
            }
        }
        Err(error) => {
            if error.is_memory() {
                Err(ViewFault::Memory)
            } else {
                Err(ViewFault::BadToml)
            }
        }
    }
}
