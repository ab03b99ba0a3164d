//! How a command ends when no refusal is due before its files are replaced.
use crate::status::Status;
use pkg_world::{Bytes, Listed, NormPath};

/// A file that is to be replaced, and by which bytes.
#[derive(Debug, Drop)]
pub struct Write {
    pub path: NormPath,
    pub bytes: Bytes,
}

/// Files that are to be replaced, in this order.
pub type Writes = Listed<Write>;

/// How a command ends: the files that it replaces, and then the line that it prints, or the refusal that it tells. (A
/// refusal that replaces a file is that of `resolve --proof`; every other one comes before anything is replaced.)
#[derive(Debug, Drop)]
pub struct Ending {
    pub writes: Writes,
    pub told: Result<String, Status>,
}
