//! TOML files as tables: the table of a file's bytes, and the values at its keys, each refusal with its key path.
#![tactic(auto)]

mod document;
mod halt;
mod keys;
mod nesting;
mod print;
mod reader;
mod readers;
mod refusal;
mod values;
mod versions;

pub use document::{ViewFault, view};
pub use halt::{Halt, halted, unviewed};
pub use keys::{KeyFault, has_key, need_text, opt_text, text_or_list, uuid_table};
pub use print::{PrintFault, print_table};
pub use reader::{Reader, need, opt, other_shape, read_at, stop_at};
pub use readers::{
    Each, FlagReader, ListOf, NameReader, NamesReader, TextReader, TextsReader, TreeReader,
    UuidReader, identifier, table_at, texts_at,
};
pub use refusal::{Flaw, Refusal, Stop};
pub use toml::{Table, Value};
pub use values::NamedValues;
pub use versions::VersionReader;
