//! Registries that are asked for by name alone: commands pass over a folder without the registry's file.
use pkg_world::{MemStore, NormPath, PathFault, StoreCall};
use registry_tables::{RegFault, Registry};
use std::alloc::{AllocError, Global};
use std::process::Abort;
use std::test::Fail;
use store_tests::files::{at, filled};

/// The name of a registry, or what its refusal tells.
fn told(alloc: Global, loaded: Result<Registry, RegFault>) -> Result<String, AllocError> {
    match loaded {
        Ok(registry) => String::from_str(alloc, registry.name.as_str()),
        Err(RegFault::ReadFault(path)) => named(alloc, "ReadFault", &path),
        Err(RegFault::MissingFile(path)) => named(alloc, "MissingFile", &path),
        Err(RegFault::BadFile(path, _)) => named(alloc, "BadFile", &path),
        Err(RegFault::Memory) => Err(AllocError),
    }
}

fn named(alloc: Global, word: &str, path: &NormPath) -> Result<String, AllocError> {
    let path = path.as_str();
    format!(in alloc; "{word} {path}")
}

fn told_of(alloc: Global, store: &mut MemStore, folder: &str) -> Result<String, Fail> {
    let path = at(alloc, folder)?;
    let loaded = Registry::load(alloc, store, &path);
    Ok(told(alloc, loaded)?)
}

/// A store with a folder in place of the registry's file, whose second read fails.
fn failing(alloc: Global) -> Result<MemStore, PathFault> {
    let mut store = filled(alloc, [("/r/Registry.toml/x", "")].as_slice())?;
    store.fail_at(alloc, StoreCall::Read, 2)?;
    Ok(store)
}

fn names_its_file(rt: &impl Abort, alloc: Global, store: &mut MemStore) -> Result<(), Fail> {
    for (folder, want) in [
        ("/r", "MissingFile /r/Registry.toml"),
        ("/r", "ReadFault /r/Registry.toml"),
        ("/none", "MissingFile /none/Registry.toml"),
    ] {
        assert_eq!(rt; told_of(alloc, store, folder)?.as_str(), want);
    }
    Ok(())
}

#[test]
fn a_file_that_is_missing_or_fails_is_named(rt: HostRuntime) -> Result<(), Fail> {
    let mut store = failing(rt.alloc())?;
    names_its_file(&rt, rt.alloc(), &mut store)
}
