//! The values at a table's keys.
ghost use Rattle.std.specs.Prelude.{◌≡◌, Some, Ok, MatchResult, option_map};
ghost use Rattle.std.specs.Option.{option_copied};
ghost use Rattle.toml.specs.Data.{get_member};
ghost use Rattle.toml.specs.View.{view, table_view};
ghost use Rattle.toml_view.specs.Reading.{at, has_key, opt, need, text_of, uuid_of, table_at, texts_at};
ghost use Rattle.toml_view.specs.Answers.{RefusesKey, IsShapeFault, IsKeyFault, HasPath, HasShape};

use crate::readers::{UuidReader, table_at, texts_at};
use crate::refusal::{Flaw, Refusal, Stop};
use pkg_world::{NameIds, Text, TextList};
use std::alloc::Global;
use thiserror::Error;
use toml::{Table, Value};

/// Why a key has no value of the wanted kind.
#[derive(Debug, Drop, Error)]
pub enum KeyFault {
    /// The value at this key path, the keys joined by dots, has another kind, or a needed key is absent.
    #[error("another shape at {0}")]
    BadShape(Text),
    #[error("no memory")]
    Memory,
}

/// The value at a key.
pub(crate) fn member<'a>(table: &'a Table, key: &str) -> Option<&'a Value>
    ensures { option_map (λ v. view v.now) result ≡ get_member key.now (table_view table.now) }
{
    table.get(key)
}

/// Whether the table has that key.
pub fn has_key(table: &Table, key: &str) -> bool
    ensures { result ≡ has_key key.now (table_view table.now) }
{
    match member(table, key) {
        Some(_) => true,
        None => false,
    }
}

/// The text at a key that may be absent. It is refused as BadShape of the key exactly where the value is no text.
pub fn opt_text<'a>(alloc: Global, table: &'a Table, key: &str) -> Result<Option<&'a str>, KeyFault>
    ensures { MatchResult result
        (λ found. opt text_of key.now (table_view table.now) ≡ Ok (option_copied found))
        (λ fault. RefusesKey fault (opt text_of key.now (table_view table.now))) }
{
    match member(table, key) {
        None => Ok(None),
        Some(value) => match text_at(alloc, key, value) {
            Ok(text) => Ok(Some(text)),
            Err(fault) => Err(fault),
        },
    }
}

/// The text at a needed key. It is refused as BadShape of the key exactly where the key is absent or its value is no text.
pub fn need_text<'a>(alloc: Global, table: &'a Table, key: &str) -> Result<&'a str, KeyFault>
    ensures { MatchResult result
        (λ found. need text_of key.now (table_view table.now) ≡ Ok found.now)
        (λ fault. RefusesKey fault (need text_of key.now (table_view table.now))) }
{
    match member(table, key) {
        None => Err(shape_fault(alloc, key)),
        Some(value) => text_at(alloc, key, value),
    }
}

/// The text that stands at that key.
fn text_at<'a>(alloc: Global, key: &str, value: &'a Value) -> Result<&'a str, KeyFault>
    ensures { MatchResult result
        (λ text. at key.now (text_of (view value.now)) ≡ Ok text.now)
        (λ fault. RefusesKey fault (at key.now (text_of (view value.now)))) }
{
    if let Some(text) = value.as_str() {
        Ok(text)
    } else {
        Err(shape_fault(alloc, key))
    }
}

/// The refusal of that key, or want of memory.
fn shape_fault(alloc: Global, key: &str) -> KeyFault
    ensures { IsShapeFault key.now result }
{
    match Text::of(alloc, key) {
        Ok(path) => KeyFault::BadShape(path),
        Err(_) => KeyFault::Memory,
    }
}

/// The table of names to identifiers at a key; an absent one is empty. It is refused as BadShape of the key where the
/// value is no table, and as BadShape of the key, a dot and the first name by its bytes whose identifier is no text that
/// the crate `uuid` reads.
pub fn uuid_table(alloc: Global, table: &Table, key: &str) -> Result<NameIds, KeyFault>
    ensures { MatchResult result
        (λ ids. table_at uuid_of key.now (table_view table.now) ≡ Ok ids.items)
        (λ fault. RefusesKey fault (table_at uuid_of key.now (table_view table.now))) }
{
    match table_at(alloc, UuidReader, table, key) {
        Ok(found) => Ok(found.into_list()),
        Err(stop) => Err(key_fault(stop)),
    }
}

/// The texts at a key: a text alone, or a list of texts; an absent key has none. It is refused as BadShape of the key
/// exactly where the value is neither, as for a list with a member that is no text.
pub fn text_or_list(alloc: Global, table: &Table, key: &str) -> Result<TextList, KeyFault>
    ensures { MatchResult result
        (λ texts. texts_at key.now (table_view table.now) ≡ Ok texts.items)
        (λ fault. RefusesKey fault (texts_at key.now (table_view table.now))) }
{
    match texts_at(alloc, table, key) {
        Ok(found) => Ok(found.into_list()),
        Err(stop) => Err(key_fault(stop)),
    }
}

/// The fault of a stop at a key.
fn key_fault(stop: Stop) -> KeyFault
    requires path { HasPath stop }
    requires shape { HasShape stop }
    ensures { IsKeyFault result stop }
{
    match stop {
        Stop::Memory => KeyFault::Memory,
        Stop::Refused(refusal) => {
            let Refusal { path, flaw } = refusal;
            match flaw {
                Flaw::Shape => match path {
                    Some(path) => KeyFault::BadShape(path),
                    None => unreachable!(),
                },
                Flaw::Version(_) => unreachable!(),
                Flaw::Spec(_) => unreachable!(),
            }
        }
    }
}
