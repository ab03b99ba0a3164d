//! What an import gives.
use env_maps::Id;
use pkg_world::NormPath;

/// What an import gives (Julia manual, Code Loading).
#[derive(Debug, Drop)]
pub enum ImportAnswer {
    /// The identity, and its entry path, which is a file.
    Found(Id, NormPath),
    /// The name has no identity from that context.
    NoIdentity,
    /// The identity has no entry path, or that isn't a file.
    NoSource(Id),
}
