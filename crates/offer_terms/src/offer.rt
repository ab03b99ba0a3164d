//! Offers of packages.
use compat_spec::Allowed;
use jl_versions::Version;
use manifest_file::Origin;
use pkg_world::{ExtList, Listed, NameIds};
use uuid::Uuid;

/// Identifiers with what is allowed of their packages; Julia's identifier stands for Julia itself.
pub type CompatIds = Listed<(Uuid, Allowed)>;

/// One version that is offered of a package (Pkg, registries, standard libraries and developed packages). Neither Julia nor
/// the project's own package is among the dependencies, and none is both a dependency and a weak one.
#[derive(Drop)]
pub struct Offer {
    /// The package's number in its book.
    pub package: u32,
    pub version: Version,
    /// The dependencies, each with the identifier of its package.
    pub deps: NameIds,
    /// The dependencies that are optional.
    pub weak: NameIds,
    /// What is allowed of dependencies of either kind, and of Julia.
    pub compat: CompatIds,
    /// Where the version comes from.
    pub origin: Origin,
    /// The extensions, each with the names of its triggers.
    pub extensions: ExtList,
}
