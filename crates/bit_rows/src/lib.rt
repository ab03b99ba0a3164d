//! Rows of truth values that are worked on many at a time, and tables of such rows. Contracts see a row as a
//! plain list.
#![tactic(auto)]

mod lanes;
mod row;
mod table;
mod words;

pub use row::{BitRow, count};
pub use table::BitTable;
