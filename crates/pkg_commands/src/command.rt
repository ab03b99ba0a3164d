//! Commands on a project.
use jl_versions::Version;
use pkg_world::{Listed, Name, Names, NormPath};
use project_file::Project;
use uuid::Uuid;

/// Names, each with the identifier of the package that it is to mean, if one is given.
pub type WordList = Listed<(Name, Option<Uuid>)>;

/// What is to be done with a project before its packages are chosen (Pkg).
#[derive(Drop)]
pub enum Command {
    /// Nothing: the project stays as it is.
    Resolve,
    /// Packages are added as dependencies.
    Add(WordList),
    /// Dependencies are taken out.
    Rm(Names),
    /// A package is pinned, at this version or at the one that it has.
    Pin(Name, Option<Version>),
    /// A package's mark, or its path or repository, is taken away.
    Free(Name),
    /// The package of a folder is developed there: the folder's path, and what its project file says.
    Develop(NormPath, Project),
}
