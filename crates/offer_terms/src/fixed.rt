//! Packages whose one version is given.
use crate::by_id::{ById, Identified};
use jl_versions::Version;
use manifest_file::Origin;
use pkg_world::{ExtList, Name, NameIds};
use project_file::SpecList;
use uuid::Uuid;

/// A package whose one version is given, as by a folder or a repository.
#[derive(Drop)]
pub struct Fixed {
    pub uuid: Uuid,
    pub name: Name,
    pub version: Version,
    /// The dependencies, each with the identifier of its package.
    pub deps: NameIds,
    /// The dependencies that are optional.
    pub weak: NameIds,
    /// What it allows, by the names of packages.
    pub compat: SpecList,
    /// Where it comes from.
    pub origin: Origin,
    /// The extensions, each with the names of its triggers.
    pub extensions: ExtList,
}

impl Identified for Fixed {
    ghost id_of = { λ it. it.uuid };

    fn uuid(&self) -> &Uuid {
        &self.uuid
    }
}

/// Fixed packages in the order of their identifiers, each once.
pub type FixedList = ById<Fixed>;
