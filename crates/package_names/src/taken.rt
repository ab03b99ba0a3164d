//! Names that are taken.
ghost use Rattle.std.specs.Prelude.{◌≡◌, IsTrue};
ghost use Rattle.std.specs.Option.{option_and_then, option_copied};
ghost use Rattle.pkg_world.specs.ByName.{is_by_name};
ghost use Rattle.project_file.specs.Said.{said as said_project};
ghost use Rattle.package_names.specs.Taken as spec;

use crate::named::value_named;
use pkg_world::Name;
use project_file::Project;
use uuid::Uuid;

/// What a project has under a name already, so that no package can be put there: the identifier in `deps`, where another one
/// is given; else the project's own identifier, if it has one, where the name is the project's own; else the identifier in
/// `weakdeps`. `None` where the name is free. Takes no memory. (Own rule.)
#[tactic(auto, unfolding(project_file::specs::Said::said))]
pub fn taken_by(project: &Project, name: &Name, given: &Option<Uuid>) -> Option<Option<Uuid>>
    ensures { result ≡ spec.taken (said_project project.now) name.now given.now }
{
    match other_dep(project.deps.items(), name, given) {
        Some(uuid) => Some(Some(uuid)),
        None => own_or_weak(project, name),
    }
}

/// The identifier that some dependencies have at the name, where another one is given.
fn other_dep(deps: &[(Name, Uuid)], name: &Name, given: &Option<Uuid>) -> Option<Uuid>
    requires { IsTrue (is_by_name deps.now) }
    ensures { result ≡ spec.other_dep deps.now name.now given.now }
{
    match given {
        Some(given) => unless_given(given, value_named(deps, name.as_str())),
        None => None,
    }
}

fn unless_given(given: &Uuid, found: Option<&Uuid>) -> Option<Uuid>
    ensures { result ≡ option_and_then (spec.unless_given given.now) (option_copied found.entry) }
{
    match found {
        Some(found) if *given != *found => Some(*found),
        _ => None,
    }
}

/// The project's identifier, where the name is its own, or else that of the name in `weakdeps`.
#[tactic(auto, unfolding(project_file::specs::Said::said))]
fn own_or_weak(project: &Project, name: &Name) -> Option<Option<Uuid>>
    ensures { result ≡ spec.own_or_weak (said_project project.now) name.now }
{
    if is_name(name, &project.name) {
        return Some(project.uuid);
    }
    match value_named(project.weakdeps.items(), name.as_str()) {
        Some(uuid) => Some(Some(*uuid)),
        None => None,
    }
}

fn is_name(name: &Name, found: &Option<Name>) -> bool
    ensures { result ≡ spec.is_this name.now found.now }
{
    match found {
        Some(found) => name.as_str() == found.as_str(),
        None => false,
    }
}
