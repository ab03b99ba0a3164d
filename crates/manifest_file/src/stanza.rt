//! Stanzas of a manifest.
use crate::origin::Origin;
use jl_versions::Version;
use pkg_world::{ExtList, Listed, Name, NameIds};
use uuid::Uuid;

/// What a manifest says of one package.
#[derive(Drop)]
pub struct Stanza {
    pub name: Name,
    pub uuid: Uuid,
    pub version: Option<Version>,
    pub origin: Origin,
    pub pinned: bool,
    /// The dependencies, each with the identifier of its package.
    pub deps: NameIds,
    /// The dependencies that are optional.
    pub weakdeps: NameIds,
    /// The extensions, each with the names of its triggers.
    pub extensions: ExtList,
}

/// Stanzas.
pub type Stanzas = Listed<Stanza>;
