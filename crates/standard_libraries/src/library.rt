//! A standard library.
ghost use Rattle.std.specs.Prelude.{◌≡◌, unwrap_or};
ghost use Rattle.jl_versions.specs.Triple.{release};
ghost use Rattle.project_file.specs.Said.{said as said_project};
ghost use Rattle.standard_libraries.specs.Libraries as spec;

use jl_versions::Version;
use pkg_world::{ExtList, Name, NameIds};
use project_file::Project;
use std::alloc::Global;
use std::marker::Model;
use uuid::Uuid;

/// A standard library: the name and the identifier that the project file of its folder has, its version, which is Julia's
/// where the file has none, and the dependencies, weak dependencies and extensions as they stand in the file.
#[derive(Drop)]
pub struct Library {
    uuid: Uuid,
    name: Name,
    version: Version,
    deps: NameIds,
    weak: NameIds,
    extensions: ExtList,
}

impl Model for Library {
    ghost use Rattle.standard_libraries.specs.SaidLibrary.{SaidLibrary};

    ghost Value = { SaidLibrary };

    ghost view = { λ a. record { uuid = a.uuid; name = a.name; version = a.version; deps = a.deps.items; weak = a.weak.items; extensions = a.extensions.items } };
}

impl Library {
    /// The identifier.
    pub fn uuid(&self) -> Uuid
        ensures { result ≡ self.now.uuid }
    {
        self.uuid
    }

    /// The name.
    pub fn name(&self) -> &Name
        ensures { result.now ≡ self.now.name }
    {
        &self.name
    }

    /// The version.
    pub fn version(&self) -> &Version
        ensures { result.now ≡ self.now.version }
    {
        &self.version
    }

    /// The dependencies as they stand in the file: one that is weak too is among them.
    pub fn deps(&self) -> &NameIds
        ensures { result.now.items ≡ self.now.deps }
    {
        &self.deps
    }

    /// The weak dependencies.
    pub fn weak(&self) -> &NameIds
        ensures { result.now.items ≡ self.now.weak }
    {
        &self.weak
    }

    /// The extensions, each with its triggers.
    pub fn extensions(&self) -> &ExtList
        ensures { result.now.items ≡ self.now.extensions }
    {
        &self.extensions
    }
}

/// The library of a project file; one without a name or an identifier makes none. The rest of the file is let go.
#[tactic(auto, unfolding(project_file::specs::Said::said))]
pub(crate) fn library_of(alloc: Global, julia: &[u32; 3], project: Project) -> Option<Library>
    ensures { result ≡ spec.library_of julia.now (said_project project) }
{
    let Project {
        name,
        uuid,
        version,
        deps,
        weakdeps,
        extensions,
        ..
    } = project;
    match name {
        None => None,
        Some(name) => match uuid {
            None => None,
            Some(uuid) => Some(Library {
                uuid,
                name,
                version: version_or(alloc, version, julia),
                deps,
                weak: weakdeps,
                extensions,
            }),
        },
    }
}

/// The version, which is Julia's where there is none.
fn version_or(alloc: Global, version: Option<Version>, julia: &[u32; 3]) -> Version
    ensures { result ≡ unwrap_or version (release julia.now) }
{
    match version {
        Some(version) => version,
        None => Version::of(alloc, *julia),
    }
}
