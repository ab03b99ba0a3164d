//! Reads which calls of the outside fail in a step, and the families that stand beside it.
use crate::case::{Family, Faults, Files};
use crate::keys::{
    Stop, malformed, need_codes, need_number, need_text, numbers_at, only, table_at, texts_at,
    under,
};
use crate::paths::path_text;
use pkg_world::{PutFail, StoreCall};
use std::alloc::Global;
use toml::Table;

const METHOD_KEYS: [&str; 4] = ["read", "kind", "list", "replace"];

const METHODS: [StoreCall; 4] = [
    StoreCall::Read,
    StoreCall::Kind,
    StoreCall::List,
    StoreCall::Replace,
];

/// The calls that fail in a step.
pub fn faults_in(alloc: Global, table: &Table) -> Result<Faults, Stop> {
    Ok(Faults {
        calls: calls_at(alloc, table)?,
        out: put_at(alloc, table, "put_fails")?,
        err: put_at(alloc, table, "err_fails")?,
    })
}

fn calls_at(alloc: Global, table: &Table) -> Result<Vec<(StoreCall, u64)>, Stop> {
    match table_at(alloc, table, "fails")? {
        Some(inner) => under(alloc, "fails", calls_in(alloc, inner)),
        None => Ok(Vec::new(alloc)),
    }
}

fn calls_in(alloc: Global, table: &Table) -> Result<Vec<(StoreCall, u64)>, Stop> {
    only(alloc, table, METHOD_KEYS.as_slice())?;
    let mut calls = Vec::new(alloc);
    for (key, call) in METHOD_KEYS.into_iter().zip(METHODS) {
        for nth in numbers_at(alloc, table, key)? {
            calls.push((call, nth))?;
        }
    }
    Ok(calls)
}

fn put_at(alloc: Global, table: &Table, key: &str) -> Result<Option<PutFail>, Stop> {
    match table_at(alloc, table, key)? {
        Some(inner) => Ok(Some(under(alloc, key, put_in(alloc, inner))?)),
        None => Ok(None),
    }
}

fn put_in(alloc: Global, table: &Table) -> Result<PutFail, Stop> {
    only(alloc, table, ["nth", "keeps"].as_slice())?;
    Ok(PutFail {
        nth: need_number(alloc, table, "nth")?,
        keep: need_number(alloc, table, "keeps")?,
    })
}

/// The families of a step over those files.
pub fn families_in(alloc: Global, table: &Table, files: &Files) -> Result<Vec<Family>, Stop> {
    let mut families = Vec::new(alloc);
    if let Some(inner) = table_at(alloc, table, "each_fails")? {
        under(
            alloc,
            "each_fails",
            add_each_fails(alloc, inner, &mut families),
        )?;
    }
    if let Some(inner) = table_at(alloc, table, "cut")? {
        families.push(under(alloc, "cut", cut_in(alloc, inner, files))?)?;
    }
    Ok(families)
}

fn add_each_fails(alloc: Global, table: &Table, families: &mut Vec<Family>) -> Result<(), Stop> {
    only(alloc, table, METHOD_KEYS.as_slice())?;
    for (key, call) in METHOD_KEYS.into_iter().zip(METHODS) {
        if table.contains_key(key) {
            families.push(Family::EachFails(call, texts_at(alloc, table, key)?))?;
        }
    }
    Ok(())
}

fn cut_in(alloc: Global, table: &Table, files: &Files) -> Result<Family, Stop> {
    only(alloc, table, ["file", "statuses"].as_slice())?;
    let text = need_text(alloc, table, "file")?;
    let path = path_text(alloc, "file", text.as_str())?;
    if !files.contains_key(path.as_str()) {
        return Err(malformed(alloc, "file", "names no file of the step"));
    }
    Ok(Family::Cut(path, need_codes(alloc, table, "statuses")?))
}
