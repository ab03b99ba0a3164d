//! Paths and stores in memory for the tests.
use pkg_world::{MemStore, NormPath, NormPaths, PathFault, Store};
use std::alloc::Global;

/// A path and the text of the file there.
pub type File = (&'static str, &'static str);

/// The path that a text means from the root.
pub fn at(alloc: Global, text: &str) -> Result<NormPath, PathFault> {
    NormPath::join(alloc, &NormPath::root(alloc), text)
}

/// The paths that texts mean from the root.
pub fn paths(alloc: Global, texts: &[&str]) -> Result<NormPaths, PathFault> {
    let mut paths = NormPaths::make(alloc);
    for text in texts {
        paths.push(at(alloc, text)?)?;
    }
    Ok(paths)
}

/// Puts files into a store.
pub fn fill<S: Store>(alloc: Global, store: &mut S, files: &[File]) -> Result<(), PathFault> {
    for (path, text) in files {
        let path = at(alloc, path)?;
        let _ = store.replace(alloc, &path, text.as_bytes());
    }
    Ok(())
}

/// A store with these files.
pub fn filled(alloc: Global, files: &[File]) -> Result<MemStore, PathFault> {
    let mut store = MemStore::make(alloc)?;
    fill(alloc, &mut store, files)?;
    Ok(store)
}
