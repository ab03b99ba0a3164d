//! Values at the keys of a table of TOML, each refusal with its key path.
use std::alloc::{AllocError, AllocFailed, Global};
use toml::{Table, Value};

/// Why a case file gives no case.
#[derive(Debug, Drop)]
pub enum Stop {
    /// The bytes are no TOML text.
    NoToml,
    /// The key path of what breaks the format, and how it does.
    Malformed(String, &'static str),
    Memory,
}

impl From<AllocError> for Stop {
    fn from(_none: AllocError) -> Stop {
        Stop::Memory
    }
}

impl<T: Drop> From<AllocFailed<T>> for Stop {
    fn from(_none: AllocFailed<T>) -> Stop {
        Stop::Memory
    }
}

/// The refusal of what stands at a key, or want of memory for the key's text.
pub fn malformed(alloc: Global, key: &str, how: &'static str) -> Stop {
    match String::from_str(alloc, key) {
        Ok(keys) => Stop::Malformed(keys, how),
        Err(_) => Stop::Memory,
    }
}

/// What was read in a table, its refusal with the path seen from the table above, which has it at that key.
pub fn under<T: Drop>(alloc: Global, key: &str, read: Result<T, Stop>) -> Result<T, Stop> {
    match read {
        Ok(value) => Ok(value),
        Err(stop) => Err(raised(alloc, key, stop)),
    }
}

fn raised(alloc: Global, key: &str, stop: Stop) -> Stop {
    match stop {
        Stop::Malformed(keys, how) => match format!(in alloc; "{key}.{keys}") {
            Ok(keys) => Stop::Malformed(keys, how),
            Err(_) => Stop::Memory,
        },
        other => other,
    }
}

/// Refuses a table with another key than these.
pub fn only(alloc: Global, table: &Table, keys: &[&str]) -> Result<(), Stop> {
    for key in table.keys() {
        if !is_among(keys, key.as_str()) {
            return Err(malformed(alloc, key.as_str(), "is no key of this format"));
        }
    }
    Ok(())
}

fn is_among(keys: &[&str], key: &str) -> bool {
    keys.iter().any(|known| *known == key)
}

fn text_of(alloc: Global, key: &str, value: &Value) -> Result<String, Stop> {
    match value.as_str() {
        Some(text) => Ok(String::from_str(alloc, text)?),
        None => Err(malformed(alloc, key, "is no text")),
    }
}

/// The value at a key that must be there.
pub fn need<'a>(alloc: Global, table: &'a Table, key: &str) -> Result<&'a Value, Stop> {
    match table.get(key) {
        Some(value) => Ok(value),
        None => Err(malformed(alloc, key, "is missing")),
    }
}

/// The text at a key that must be there.
pub fn need_text(alloc: Global, table: &Table, key: &str) -> Result<String, Stop> {
    text_of(alloc, key, need(alloc, table, key)?)
}

/// The text at a key, or another where the key is absent.
pub fn text_or(alloc: Global, table: &Table, key: &str, other: &str) -> Result<String, Stop> {
    match table.get(key) {
        Some(value) => text_of(alloc, key, value),
        None => Ok(String::from_str(alloc, other)?),
    }
}

/// The text at a key, or the other, if any, where the key is absent.
pub fn opt_text_or(
    alloc: Global,
    table: &Table,
    key: &str,
    other: &Option<String>,
) -> Result<Option<String>, Stop> {
    match table.get(key) {
        Some(value) => Ok(Some(text_of(alloc, key, value)?)),
        None => Ok(copy_text(other)?),
    }
}

fn copy_text(text: &Option<String>) -> Result<Option<String>, AllocError> {
    match text {
        Some(text) => Ok(Some(text.clone()?)),
        None => Ok(None),
    }
}

/// The texts of a list; an absent key has none.
pub fn texts_at(alloc: Global, table: &Table, key: &str) -> Result<Vec<String>, Stop> {
    match table.get(key) {
        Some(value) => texts_of(alloc, key, value),
        None => Ok(Vec::new(alloc)),
    }
}

/// The texts of a list.
pub fn texts_of(alloc: Global, key: &str, value: &Value) -> Result<Vec<String>, Stop> {
    match value.as_array() {
        Some(list) => {
            let mut texts = Vec::new(alloc);
            for item in list.iter() {
                texts.push(text_of(alloc, key, item)?)?;
            }
            Ok(texts)
        }
        None => Err(malformed(alloc, key, "is no list of texts")),
    }
}

fn number_of(alloc: Global, key: &str, value: &Value) -> Result<u64, Stop> {
    match value.as_integer() {
        Some(number) => match u64::try_from(number) {
            Ok(number) => Ok(number),
            Err(_) => Err(malformed(alloc, key, "is below 0")),
        },
        None => Err(malformed(alloc, key, "is no whole number")),
    }
}

/// The number from 0 on at a key that must be there.
pub fn need_number(alloc: Global, table: &Table, key: &str) -> Result<u64, Stop> {
    number_of(alloc, key, need(alloc, table, key)?)
}

/// The exit code at a key that must be there.
pub fn need_code(alloc: Global, table: &Table, key: &str) -> Result<u8, Stop> {
    code_of(alloc, key, need_number(alloc, table, key)?)
}

fn code_of(alloc: Global, key: &str, number: u64) -> Result<u8, Stop> {
    match u8::try_from(number) {
        Ok(code) => Ok(code),
        Err(_) => Err(malformed(alloc, key, "is over 255")),
    }
}

/// The numbers from 0 on in a list; an absent key has none.
pub fn numbers_at(alloc: Global, table: &Table, key: &str) -> Result<Vec<u64>, Stop> {
    match table.get(key) {
        Some(value) => numbers_of(alloc, key, value),
        None => Ok(Vec::new(alloc)),
    }
}

fn numbers_of(alloc: Global, key: &str, value: &Value) -> Result<Vec<u64>, Stop> {
    match value.as_array() {
        Some(list) => {
            let mut numbers = Vec::new(alloc);
            for item in list.iter() {
                numbers.push(number_of(alloc, key, item)?)?;
            }
            Ok(numbers)
        }
        None => Err(malformed(alloc, key, "is no list of numbers")),
    }
}

/// The exit codes in a list that must be there.
pub fn need_codes(alloc: Global, table: &Table, key: &str) -> Result<Vec<u8>, Stop> {
    let mut codes = Vec::new(alloc);
    for number in numbers_at(alloc, table, key)? {
        codes.push(code_of(alloc, key, number)?)?;
    }
    if codes.is_empty() {
        return Err(malformed(alloc, key, "lists no code"));
    }
    Ok(codes)
}

/// The table at a key, if there is one.
pub fn table_at<'a>(alloc: Global, table: &'a Table, key: &str) -> Result<Option<&'a Table>, Stop> {
    match table.get(key) {
        Some(value) => match value.as_table() {
            Some(inner) => Ok(Some(inner)),
            None => Err(malformed(alloc, key, "is no table")),
        },
        None => Ok(None),
    }
}
