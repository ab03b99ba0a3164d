//! What is kept of a project file.
ghost use Rattle.std.specs.Prelude.{◌≡◌};

use crate::uses::Uses;
use pkg_world::Name;
use project_file::Project;
use uuid::Uuid;

/// The name and the identifier of the package that a project is, and what it uses.
#[derive(Drop)]
pub(crate) struct Parts {
    pub name: Option<Name>,
    pub uuid: Option<Uuid>,
    pub uses: Uses,
}

/// Those parts of a project; the rest of it is let go.
pub(crate) fn parts_of(project: Project) -> Parts
    ensures { result ≡ record { name = project.name; uuid = project.uuid; uses = record { deps = project.deps.items; weakdeps = project.weakdeps.items; extensions = project.extensions.items } } }
{
    let Project {
        name,
        uuid,
        deps,
        weakdeps,
        extensions,
        ..
    } = project;
    let uses = Uses {
        deps,
        weakdeps,
        extensions,
    };
    Parts { name, uuid, uses }
}
