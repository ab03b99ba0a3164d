//! Books whose files are missing, are refused or can't be read, one after the other, and books of too many packages.
use crate::book_calls::{FOLDER, IN_EXTRAS, LIBRARY, SECOND, told};
use crate::worlds::{Lost, REGISTRY};
use pkg_world::{Ids, MemStore, StoreCall};
use std::alloc::Global;
use std::test::Fail;
use store_tests::files::{File, fill};

/// Two registries, a standard library, a developed folder and a project.
const WORLD: [&[File]; 5] = [REGISTRY, SECOND, LIBRARY, FOLDER, IN_EXTRAS];

/// The book of the world as it is.
const BOOK: &str =
    "A | 1.0.0 tree +C :5 | 2.0.0 tree +C :5 | 3.0.0 tree +D; C | 0.3.0 path +D :6 :62; D | 1.0.0 tree; ";

/// A file that isn't there, a file that is no TOML, and what becomes of the book.
const CHANGES: &[(&str, &str, &str)] = &[
    ("", "", BOOK),
    (
        "/d/registries/R/Registry.toml",
        "",
        "Aa | 1.0.0 tree +D | 3.0.0 tree +D; D -; ",
    ),
    (
        "",
        "/d/registries/R/Registry.toml",
        "BadFile /d/registries/R/Registry.toml BadToml",
    ),
    (
        "/e/registries/S/Registry.toml",
        "",
        "A | 1.0.0 tree +C :5 | 2.0.0 tree +C :5; C | 0.3.0 path +D :6 :62; D | 1.0.0 tree; ",
    ),
    (
        "",
        "/e/registries/S/Registry.toml",
        "BadFile /e/registries/S/Registry.toml BadToml",
    ),
    ("/s/C/Project.toml", "", BOOK),
    ("", "/s/C/Project.toml", "BadFile /s/C/Project.toml BadToml"),
    ("/c/Project.toml", "", "MissingFile /c/Project.toml"),
    ("", "/c/Project.toml", "BadFile /c/Project.toml BadToml"),
    (
        "/d/registries/R/A/Package.toml",
        "",
        "MissingFile /d/registries/R/A/Package.toml",
    ),
    (
        "",
        "/d/registries/R/A/Package.toml",
        "BadFile /d/registries/R/A/Package.toml BadToml",
    ),
    (
        "/e/registries/S/Aa/Package.toml",
        "",
        "MissingFile /e/registries/S/Aa/Package.toml",
    ),
    (
        "",
        "/e/registries/S/Aa/Package.toml",
        "BadFile /e/registries/S/Aa/Package.toml BadToml",
    ),
    (
        "/d/registries/R/D/Package.toml",
        "",
        "MissingFile /d/registries/R/D/Package.toml",
    ),
    (
        "",
        "/d/registries/R/D/Package.toml",
        "BadFile /d/registries/R/D/Package.toml BadToml",
    ),
    (
        "/d/registries/R/A/Versions.toml",
        "",
        "MissingFile /d/registries/R/A/Versions.toml",
    ),
    (
        "",
        "/d/registries/R/A/Versions.toml",
        "BadFile /d/registries/R/A/Versions.toml BadToml",
    ),
    (
        "/e/registries/S/Aa/Versions.toml",
        "",
        "MissingFile /e/registries/S/Aa/Versions.toml",
    ),
    (
        "",
        "/e/registries/S/Aa/Versions.toml",
        "BadFile /e/registries/S/Aa/Versions.toml BadToml",
    ),
    (
        "/d/registries/R/D/Versions.toml",
        "",
        "MissingFile /d/registries/R/D/Versions.toml",
    ),
    (
        "",
        "/d/registries/R/D/Versions.toml",
        "BadFile /d/registries/R/D/Versions.toml BadToml",
    ),
    (
        "/d/registries/R/A/Deps.toml",
        "",
        "A | 1.0.0 tree | 2.0.0 tree | 3.0.0 tree +D; D | 1.0.0 tree; ",
    ),
    (
        "/d/registries/R/A/Compat.toml",
        "",
        "A | 1.0.0 tree +C | 2.0.0 tree +C | 3.0.0 tree +D; C | 0.3.0 path +D :6 :62; D | 1.0.0 tree; ",
    ),
    (
        "",
        "/d/registries/R/A/Deps.toml",
        "BadFile /d/registries/R/A/Deps.toml BadToml",
    ),
    (
        "",
        "/d/registries/R/A/Compat.toml",
        "BadFile /d/registries/R/A/Compat.toml BadToml",
    ),
    (
        "",
        "/d/registries/R/A/WeakDeps.toml",
        "BadFile /d/registries/R/A/WeakDeps.toml BadToml",
    ),
    (
        "",
        "/d/registries/R/A/WeakCompat.toml",
        "BadFile /d/registries/R/A/WeakCompat.toml BadToml",
    ),
    (
        "/c/Project.toml",
        "/d/registries/R/Registry.toml",
        "BadFile /d/registries/R/Registry.toml BadToml",
    ),
    (
        "/c/Project.toml",
        "/s/C/Project.toml",
        "BadFile /s/C/Project.toml BadToml",
    ),
    (
        "/d/registries/R/A/Package.toml",
        "/c/Project.toml",
        "BadFile /c/Project.toml BadToml",
    ),
    (
        "/d/registries/R/A/Versions.toml",
        "/d/registries/R/A/Deps.toml",
        "MissingFile /d/registries/R/A/Versions.toml",
    ),
    (
        "/d/registries/R/D/Package.toml",
        "/e/registries/S/Aa/Deps.toml",
        "BadFile /e/registries/S/Aa/Deps.toml BadToml",
    ),
];

/// A call of the store that fails, by its number, and what becomes of the book.
const FAILS: &[(StoreCall, u64, &str)] = &[
    (
        StoreCall::Read,
        3,
        "ReadFault /d/registries/R/Registry.toml",
    ),
    (
        StoreCall::Read,
        4,
        "ReadFault /e/registries/S/Registry.toml",
    ),
    (StoreCall::Read, 5, "ReadFault /s/C/Project.toml"),
    (StoreCall::Read, 6, "ReadFault /c/Project.toml"),
    (
        StoreCall::Read,
        7,
        "ReadFault /d/registries/R/A/Package.toml",
    ),
    (
        StoreCall::Read,
        8,
        "ReadFault /d/registries/R/A/Versions.toml",
    ),
    (StoreCall::Read, 9, "ReadFault /d/registries/R/A/Deps.toml"),
    (
        StoreCall::Read,
        10,
        "ReadFault /d/registries/R/A/Compat.toml",
    ),
    (
        StoreCall::Read,
        11,
        "ReadFault /d/registries/R/A/WeakDeps.toml",
    ),
    (
        StoreCall::Read,
        12,
        "ReadFault /d/registries/R/A/WeakCompat.toml",
    ),
    (
        StoreCall::Read,
        13,
        "ReadFault /e/registries/S/Aa/Package.toml",
    ),
    (
        StoreCall::Read,
        14,
        "ReadFault /e/registries/S/Aa/Versions.toml",
    ),
    (
        StoreCall::Read,
        15,
        "ReadFault /e/registries/S/Aa/Deps.toml",
    ),
    (
        StoreCall::Read,
        16,
        "ReadFault /e/registries/S/Aa/Compat.toml",
    ),
    (
        StoreCall::Read,
        17,
        "ReadFault /e/registries/S/Aa/WeakDeps.toml",
    ),
    (
        StoreCall::Read,
        18,
        "ReadFault /e/registries/S/Aa/WeakCompat.toml",
    ),
    (
        StoreCall::Read,
        19,
        "ReadFault /d/registries/R/D/Package.toml",
    ),
    (
        StoreCall::Read,
        20,
        "ReadFault /d/registries/R/D/Versions.toml",
    ),
    (StoreCall::Read, 21, "ReadFault /d/registries/R/D/Deps.toml"),
    (
        StoreCall::Read,
        22,
        "ReadFault /d/registries/R/D/Compat.toml",
    ),
    (
        StoreCall::Read,
        23,
        "ReadFault /d/registries/R/D/WeakDeps.toml",
    ),
    (
        StoreCall::Read,
        24,
        "ReadFault /d/registries/R/D/WeakCompat.toml",
    ),
    (StoreCall::Read, 25, BOOK),
    (StoreCall::List, 1, "ReadFault /d/registries"),
    (StoreCall::List, 2, "ReadFault /e/registries"),
    (StoreCall::List, 3, "ReadFault /s"),
    (StoreCall::List, 4, BOOK),
    (
        StoreCall::Kind,
        1,
        "ReadFault /d/registries/R/Registry.toml",
    ),
    (
        StoreCall::Kind,
        2,
        "ReadFault /e/registries/S/Registry.toml",
    ),
    (StoreCall::Kind, 3, "ReadFault /s/C/JuliaProject.toml"),
    (StoreCall::Kind, 4, "ReadFault /c/JuliaProject.toml"),
    (StoreCall::Kind, 5, BOOK),
];

/// Puts files into a store, but for that of one path.
fn fill_but(alloc: Global, store: &mut MemStore, files: &[File], gone: &str) -> Result<(), Lost> {
    for file in files {
        if file.0 != gone {
            fill(alloc, store, &[*file])?;
        }
    }
    Ok(())
}

fn world(alloc: Global, gone: &str) -> Result<MemStore, Lost> {
    let mut store = MemStore::make(alloc)?;
    for files in WORLD {
        fill_but(alloc, &mut store, files, gone)?;
    }
    Ok(store)
}

/// Makes a file no TOML.
fn spoil(alloc: Global, store: &mut MemStore, bad: &'static str) -> Result<(), Lost> {
    if !bad.is_empty() {
        fill(alloc, store, &[(bad, "=")])?;
    }
    Ok(())
}

fn changed(alloc: Global, gone: &str, bad: &'static str) -> Result<String, Lost> {
    let mut store = world(alloc, gone)?;
    spoil(alloc, &mut store, bad)?;
    told(alloc, &mut store, &Ids::make(alloc))
}

#[test]
fn a_missing_or_refused_file_is_named(rt: HostRuntime) -> Result<(), Fail> {
    for (gone, bad, want) in CHANGES {
        let text = changed(rt.alloc(), gone, bad)?;
        assert_eq!(rt; text.as_str(), *want, "{gone} {bad}");
    }
    Ok(())
}

fn failing(alloc: Global, call: StoreCall, nth: u64) -> Result<String, Lost> {
    let mut store = world(alloc, "")?;
    store.fail_at(alloc, call, nth)?;
    told(alloc, &mut store, &Ids::make(alloc))
}

#[test]
fn a_call_that_fails_is_named(rt: HostRuntime) -> Result<(), Fail> {
    for (call, nth, want) in FAILS {
        let text = failing(rt.alloc(), *call, *nth)?;
        assert_eq!(rt; text.as_str(), *want, "{call:?} {nth}");
    }
    Ok(())
}
