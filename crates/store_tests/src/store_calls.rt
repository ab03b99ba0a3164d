//! What a store tells at each call.
use crate::files::at;
use pkg_world::{
    KindAnswer, ListAnswer, NormPath, PathFault, ReadAnswer, Store, StoreCall, WriteAnswer,
};
use std::alloc::{AllocError, Global};

/// A call on a path, and what it tells. A replacement puts the text `new` there.
pub(crate) type Row = (StoreCall, &'static str, &'static str);

/// What reading a path tells: its text, or a word.
pub(crate) fn read<S: Store>(
    alloc: Global,
    store: &mut S,
    path: &NormPath,
) -> Result<String, AllocError> {
    match store.read(alloc, path) {
        ReadAnswer::Bytes(found) => {
            let text = std::str::from_utf8(found.items()).unwrap_or("no text");
            String::from_str(alloc, text)
        }
        ReadAnswer::Missing => String::from_str(alloc, "missing"),
        ReadAnswer::Folder => String::from_str(alloc, "folder"),
        ReadAnswer::Failed => String::from_str(alloc, "failed"),
        ReadAnswer::Memory => Err(AllocError),
    }
}

fn kind<S: Store>(alloc: Global, store: &mut S, path: &NormPath) -> Result<String, AllocError> {
    match store.kind(alloc, path) {
        KindAnswer::File => String::from_str(alloc, "file"),
        KindAnswer::Folder => String::from_str(alloc, "folder"),
        KindAnswer::Missing => String::from_str(alloc, "missing"),
        KindAnswer::Failed => String::from_str(alloc, "failed"),
        KindAnswer::Memory => Err(AllocError),
    }
}

/// What listing a path tells: the names, each with a space behind it, or a word.
fn list<S: Store>(alloc: Global, store: &mut S, path: &NormPath) -> Result<String, AllocError> {
    match store.list(alloc, path) {
        ListAnswer::Names(found) => {
            let mut names = String::new(alloc);
            for name in found.items() {
                names.push_str(name.as_str())?;
                names.push(' ')?;
            }
            Ok(names)
        }
        ListAnswer::Missing => String::from_str(alloc, "missing"),
        ListAnswer::File => String::from_str(alloc, "file"),
        ListAnswer::Failed => String::from_str(alloc, "failed"),
        ListAnswer::Memory => Err(AllocError),
    }
}

fn replace<S: Store>(alloc: Global, store: &mut S, path: &NormPath) -> Result<String, AllocError> {
    match store.replace(alloc, path, b"new") {
        WriteAnswer::Done => String::from_str(alloc, "done"),
        WriteAnswer::Blocked => String::from_str(alloc, "blocked"),
        WriteAnswer::Failed => String::from_str(alloc, "failed"),
        WriteAnswer::Memory => Err(AllocError),
    }
}

fn call<S: Store>(
    alloc: Global,
    store: &mut S,
    call: StoreCall,
    path: &NormPath,
) -> Result<String, AllocError> {
    match call {
        StoreCall::Read => read(alloc, store, path),
        StoreCall::Kind => kind(alloc, store, path),
        StoreCall::List => list(alloc, store, path),
        StoreCall::Replace => replace(alloc, store, path),
    }
}

/// The first row whose call tells something else.
pub(crate) fn first_wrong<S: Store>(
    alloc: Global,
    store: &mut S,
    rows: &[Row],
) -> Result<Option<Row>, PathFault> {
    for row in rows {
        let path = at(alloc, row.1)?;
        let told = call(alloc, store, row.0, &path)?;
        if told.as_str() != row.2 {
            return Ok(Some(*row));
        }
    }
    Ok(None)
}
