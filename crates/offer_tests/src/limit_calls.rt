//! Books of as many packages as there are numbers, and of one more.
use crate::shown::fault_text;
use crate::worlds::{Lost, book_in};
use pkg_world::{Ids, MemStore, Store};
use std::alloc::{AllocError, Global};
use std::test::Fail;
use store_tests::files::{at, filled};
use uuid::Uuid;

/// How many roots or extra packages there are, and what becomes of the book.
const COUNTS: [(u32, &str); 2] = [(4096, "4096 packages"), (4097, "Limit Packages 4097")];

/// How many packages the book of the project in `/p` has, or why there is none.
fn told(alloc: Global, store: &mut MemStore, extra: &Ids) -> Result<String, Lost> {
    match book_in(alloc, store, extra) {
        Ok(book) => {
            let count = book.packages();
            Ok(format!(in alloc; "{count} packages")?)
        }
        Err(Lost::Book(fault)) => Ok(fault_text(alloc, &fault)?),
        Err(lost) => Err(lost),
    }
}

/// So many identifiers that nothing offers.
fn many(alloc: Global, count: u32) -> Result<Ids, AllocError> {
    let mut ids = Ids::make(alloc);
    for number in 0..count {
        ids.push(Uuid::from_u128(number as u128))?;
    }
    Ok(ids)
}

fn with_extra(alloc: Global, count: u32) -> Result<String, Lost> {
    let extra = many(alloc, count)?;
    let mut store = filled(alloc, &[("/p/Project.toml", "")])?;
    told(alloc, &mut store, &extra)
}

#[test]
fn extra_packages_have_4096_numbers(rt: HostRuntime) -> Result<(), Fail> {
    for (count, want) in COUNTS {
        let text = with_extra(rt.alloc(), count)?;
        assert_eq!(rt; text.as_str(), want);
    }
    Ok(())
}

/// A standard library of that number.
fn put_library(alloc: Global, store: &mut MemStore, number: u32) -> Result<(), Lost> {
    let path = format!(in alloc; "/s/L{number:05}/Project.toml")?;
    let text = format!(in alloc;
        "name = \"L{number:05}\"\nuuid = \"00000000-0000-4000-8000-0000000{number:05}\"\n"
    )?;
    let _ = store.replace(alloc, &at(alloc, path.as_str())?, text.as_bytes());
    Ok(())
}

fn put_root(alloc: Global, text: &mut String, number: u32) -> Result<(), AllocError> {
    let line = format!(in alloc;
        "L{number:05} = \"00000000-0000-4000-8000-0000000{number:05}\"\n"
    )?;
    text.push_str(line.as_str())?;
    Ok(())
}

/// A project whose roots are so many standard libraries.
fn many_roots(alloc: Global, count: u32) -> Result<MemStore, Lost> {
    let mut store = MemStore::make(alloc)?;
    let mut project = String::from_str(alloc, "[deps]\n")?;
    for number in 0..count {
        put_library(alloc, &mut store, number)?;
        put_root(alloc, &mut project, number)?;
    }
    let _ = store.replace(alloc, &at(alloc, "/p/Project.toml")?, project.as_bytes());
    Ok(store)
}

fn with_roots(alloc: Global, count: u32) -> Result<String, Lost> {
    let mut store = many_roots(alloc, count)?;
    told(alloc, &mut store, &Ids::make(alloc))
}

#[test]
fn roots_have_4096_numbers(rt: HostRuntime) -> Result<(), Fail> {
    for (count, want) in COUNTS {
        let text = with_roots(rt.alloc(), count)?;
        assert_eq!(rt; text.as_str(), want);
    }
    Ok(())
}
