//! What a fixed package says.
ghost use Rattle.std.specs.Prelude.{◌≡◌, IfOk, unwrap_or};
ghost use Rattle.project_file.specs.Said.{said as said_project};
ghost use Rattle.manifest_file.specs.Said.{said_stanza};
ghost use Rattle.fixed_packages.specs.Given as spec;

use jl_versions::Version;
use manifest_file::{Origin, Stanza};
use pkg_world::{Duplicate, ExtList, Name, NameIds};
use project_file::{Project, SpecList};
use std::alloc::{AllocError, Global};
use std::marker::Model;

/// The parts of what a fixed package says.
#[derive(Drop)]
pub struct GivenParts {
    pub name: Name,
    pub version: Version,
    /// The dependencies as they stand in the file: one that is weak too is among them.
    pub deps: NameIds,
    pub weak: NameIds,
    /// The compat of its project file; that of a repository has none.
    pub compat: SpecList,
    /// Where it comes from. The path of a folder that the project names is absolute; that of a stanza is as it stands there.
    pub origin: Origin,
    pub extensions: ExtList,
}

/// What a fixed package says, seen without the spare room of its lists.
#[derive(Drop)]
pub struct Given {
    parts: GivenParts,
}

impl Model for Given {
    ghost use Rattle.fixed_packages.specs.SaidGiven.{SaidGiven};

    ghost Value = { SaidGiven };

    ghost view = { λ a. record {
      name = a.parts.name;
      version = a.parts.version;
      deps = a.parts.deps.items;
      weak = a.parts.weak.items;
      compat = a.parts.compat.items;
      origin = a.parts.origin;
      extensions = a.parts.extensions.items;
    } };
}

impl Given {
    /// What is said by these parts.
    pub(crate) fn of(parts: GivenParts) -> Given
        ensures { result ≡ spec.said_parts parts }
    {
        Given { parts }
    }

    /// The version.
    pub fn version(&self) -> &Version
        ensures { result.now ≡ self.now.version }
    {
        &self.parts.version
    }

    /// The parts.
    pub fn into_parts(self) -> GivenParts
        ensures { spec.said_parts result ≡ self }
    {
        let Self { parts } = self;
        parts
    }
}

/// What the project file of a fixed package says, under the name that it is fixed by; the rest of the file is let go.
#[tactic(auto, unfolding(project_file::specs::Said::said))]
pub(crate) fn of_project(alloc: Global, name: Name, origin: Origin, project: Project) -> Given
    ensures { result ≡ spec.of_project name origin (said_project project) }
{
    let Project {
        version,
        deps,
        weakdeps,
        extensions,
        compat,
        ..
    } = project;
    Given::of(GivenParts {
        name,
        version: version_or_zero(alloc, version),
        deps,
        weak: weakdeps,
        compat,
        origin,
        extensions,
    })
}

/// What the stanza of a repository says. The one error is want of memory.
pub(crate) fn of_stanza(alloc: Global, stanza: &Stanza) -> Result<Given, AllocError>
    ensures { IfOk result (λ given. given ≡ spec.of_stanza (said_stanza stanza.now)) }
{
    let version = version_copy(alloc, &stanza.version)?;
    Ok(Given::of(GivenParts {
        name: stanza.name.copy(alloc)?,
        version: version_or_zero(alloc, version),
        deps: stanza.deps.copy(alloc)?,
        weak: stanza.weakdeps.copy(alloc)?,
        compat: SpecList::make(alloc),
        origin: stanza.origin.copy(alloc)?,
        extensions: stanza.extensions.copy(alloc)?,
    }))
}

fn version_copy(alloc: Global, version: &Option<Version>) -> Result<Option<Version>, AllocError>
    ensures { IfOk result (λ other. other ≡ version.now) }
{
    match version {
        Some(version) => Ok(Some(version.copy(alloc)?)),
        None => Ok(None),
    }
}

/// The version, which is 0.0.0 where there is none.
fn version_or_zero(alloc: Global, version: Option<Version>) -> Version
    ensures { result ≡ unwrap_or version spec.zero_version }
{
    match version {
        Some(version) => version,
        None => Version::of(alloc, [0, 0, 0]),
    }
}
