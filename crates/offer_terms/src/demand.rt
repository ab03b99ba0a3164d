//! What is demanded of a selection.
use crate::fixed::FixedList;
use compat_spec::Spec;
use jl_versions::Version;
use pkg_world::{Listed, NameIds};
use uuid::Uuid;

/// What a project allows of a package.
#[derive(Drop)]
pub struct SpecId {
    pub uuid: Uuid,
    pub spec: Spec,
}

/// What a project allows of packages.
pub type SpecIds = Listed<SpecId>;

/// A version of a package.
#[derive(Drop)]
pub struct VersionPair {
    pub uuid: Uuid,
    pub version: Version,
}

/// Versions of packages.
pub type VersionPairs = Listed<VersionPair>;

/// What is demanded of a selection: by a project, its manifest and a command (Pkg, Project.toml and Manifest.toml).
#[derive(Drop)]
pub struct Demand {
    /// The packages that are to be selected, by name.
    pub roots: NameIds,
    /// The project's own identifier, where it has one.
    pub own: Option<Uuid>,
    /// The project's compat.
    pub compat: SpecIds,
    /// The versions that packages are pinned to.
    pub pins: VersionPairs,
    /// The versions that packages are to keep.
    pub held: VersionPairs,
    /// The packages whose one version is given.
    pub fixed: FixedList,
    /// Julia's version.
    pub julia: [u32; 3],
}
