//! A store that remembers, over a store in memory whose calls fail.
use crate::store_calls::{Row, first_wrong};
use pkg_world::{MemStore, PathFault, StoreCall};
use read_once::ReadOnce;
use std::alloc::{AllocError, Global};
use std::test::Fail;

/// The second, fourth, sixth and ninth read of the store that is asked fail, and the second kind and list. A folder and a
/// file that are named as TOML are asked for once, the file in that folder each time.
const ROWS: [Row; 19] = [
    (StoreCall::Replace, "/a.toml", "done"),
    (StoreCall::Read, "/a.toml", "new"),
    (StoreCall::Read, "/a.toml", "new"),
    (StoreCall::Read, "/x.toml", "failed"),
    (StoreCall::Read, "/x.toml", "missing"),
    (StoreCall::Read, "/x.toml", "missing"),
    (StoreCall::Replace, "/f.toml/g", "done"),
    (StoreCall::Read, "/f.toml", "failed"),
    (StoreCall::Read, "/f.toml", "folder"),
    (StoreCall::Read, "/f.toml", "folder"),
    (StoreCall::Read, "/f.toml/g", "failed"),
    (StoreCall::Read, "/f.toml/g", "new"),
    (StoreCall::Kind, "/a.toml", "file"),
    (StoreCall::Kind, "/a.toml", "failed"),
    (StoreCall::List, "/f.toml", "g "),
    (StoreCall::List, "/f.toml", "failed"),
    (StoreCall::Replace, "/a.toml", "done"),
    (StoreCall::Read, "/f.toml", "folder"),
    (StoreCall::Read, "/f.toml/g", "failed"),
];

fn failing(alloc: Global) -> Result<MemStore, AllocError> {
    let mut store = MemStore::make(alloc)?;
    for nth in [2, 4, 6, 9] {
        store.fail_at(alloc, StoreCall::Read, nth)?;
    }
    store.fail_at(alloc, StoreCall::Kind, 2)?;
    store.fail_at(alloc, StoreCall::List, 2)?;
    Ok(store)
}

fn first_wrong_of_once(alloc: Global) -> Result<Option<Row>, PathFault> {
    let mut once = ReadOnce::over(alloc, failing(alloc)?);
    first_wrong(alloc, &mut once, ROWS.as_slice())
}

#[test]
fn what_was_said_is_not_asked_again(rt: HostRuntime) -> Result<(), Fail> {
    assert_eq!(rt; first_wrong_of_once(rt.alloc())?, None);
    Ok(())
}
