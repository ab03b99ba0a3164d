//! Paths in a case file.
use crate::keys::{Stop, malformed};
use pkg_world::{NormPath, PathFault};
use std::alloc::Global;

/// The path that a text means from a folder, refused at that key where it rises above the root.
pub fn path_at(alloc: Global, key: &str, folder: &NormPath, text: &str) -> Result<NormPath, Stop> {
    match NormPath::join(alloc, folder, text) {
        Ok(path) => Ok(path),
        Err(PathFault::Escapes) => Err(malformed(alloc, key, "has a path above the root")),
        Err(PathFault::Memory) => Err(Stop::Memory),
    }
}

/// The path from the root on that a text means.
pub fn root_path(alloc: Global, key: &str, text: &str) -> Result<NormPath, Stop> {
    path_at(alloc, key, &NormPath::root(alloc), text)
}

/// The text of the path that a text means, without `.`, `..` and empty parts. The text must begin at the root.
pub fn path_text(alloc: Global, key: &str, text: &str) -> Result<String, Stop> {
    if !text.starts_with('/') {
        return Err(malformed(alloc, key, "has a path that does not begin with /"));
    }
    let path = root_path(alloc, key, text)?;
    Ok(String::from_str(alloc, path.as_str())?)
}
