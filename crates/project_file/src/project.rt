//! Projects.
ghost use Rattle.std.specs.Prelude.{◌≡◌, ◌≤◌, Ok, IsTrue};
ghost use Rattle.toml.specs.Data.{no_members};
ghost use Rattle.toml.specs.View.{table_view};
ghost use Rattle.toml_view.specs.Document.{nesting, nesting_limit};
ghost use Rattle.project_file.specs.Keys.{names_none};
ghost use Rattle.project_file.specs.Said.{said};
ghost use Rattle.project_file.specs.Projects.{project_of};

use crate::source::Source;
use crate::spec_text::SpecText;
use jl_versions::Version;
use pkg_world::{ExtList, Name, NameIds, Named};
use std::alloc::Global;
use toml_view::Table;
use uuid::Uuid;

/// Names with compatibility texts.
pub type SpecList = Named<SpecText>;

/// Names with the sources of their packages.
pub type SourceList = Named<Source>;

/// What a project file says (Pkg, Project.toml). Every list goes by the bytes of its names.
#[derive(Drop)]
pub struct Project {
    /// The name, identifier and version of the package that the project is.
    pub name: Option<Name>,
    pub uuid: Option<Uuid>,
    pub version: Option<Version>,
    /// The dependencies, the weak ones, and those that only further targets have.
    pub deps: NameIds,
    pub weakdeps: NameIds,
    /// The extensions, each with its triggers.
    pub extensions: ExtList,
    pub compat: SpecList,
    pub extras: NameIds,
    pub sources: SourceList,
    /// The path of the manifest.
    pub manifest: Option<Name>,
    /// All other keys of the file, as they stand.
    pub rest: Table,
}

impl Project {
    /// The project of a file without any key, which is that of a missing one. Takes no memory.
    #[tactic(auto, unfolding(crate::specs::Said::said, crate::specs::Projects::project_of))]
    pub fn empty(alloc: Global) -> Project
        ensures said { project_of no_members ≡ Ok (said result) }
        ensures plain { IsTrue (names_none (table_view result.rest)) }
        ensures nested { nesting (table_view result.rest) ≤ nesting_limit }
    {
        Project {
            name: None,
            uuid: None,
            version: None,
            deps: NameIds::make(alloc),
            weakdeps: NameIds::make(alloc),
            extensions: ExtList::make(alloc),
            compat: SpecList::make(alloc),
            extras: NameIds::make(alloc),
            sources: SourceList::make(alloc),
            manifest: None,
            rest: Table::new(alloc),
        }
    }
}
