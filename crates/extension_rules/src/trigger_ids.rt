//! The packages that trigger an extension.
ghost use Rattle.std.specs.Prelude.{◌≡◌, IfOk, option_map};
ghost use Rattle.std.specs.Option.{option_copied};
ghost use Rattle.extension_rules.specs.Rules as spec;

use crate::by_name::found_at;
use pkg_world::{ExtList, Ids, Listed, Name, NameIds};
use std::alloc::{AllocError, Global};
use uuid::Uuid;

/// The identifiers of the packages that trigger an extension, in the order in which a stanza or a project names them; its
/// `weakdeps` counts before its `deps`. None exactly where `extensions` hasn't the name, or a trigger is in neither of the
/// other two. The one error is want of memory. (Pkg, Project.toml.)
pub fn triggers(
    alloc: Global,
    extensions: &ExtList,
    weakdeps: &NameIds,
    deps: &NameIds,
    name: &Name,
) -> Result<Option<Ids>, AllocError>
    ensures { IfOk result (λ ids. option_map (λ list. list.items) ids ≡ spec.triggers extensions.now.items weakdeps.now.items deps.now.items name.now) }
{
    match found_at(extensions.items(), name) {
        Some(names) => ids_of(alloc, weakdeps.items(), deps.items(), names.items()),
        None => Ok(None),
    }
}

/// The identifiers of some triggers; None where one has none.
fn ids_of(
    alloc: Global,
    weakdeps: &[(Name, Uuid)],
    deps: &[(Name, Uuid)],
    names: &[Name],
) -> Result<Option<Ids>, AllocError>
    ensures { IfOk result (λ ids. option_map (λ list. list.items) ids ≡ spec.trigger_ids weakdeps.now deps.now names.now) }
{
    let mut ids = Listed::make(alloc);
    for name in names {
        match trigger_id(weakdeps, deps, name) {
            Some(id) => ids.push(*id)?,
            None => return Ok(None),
        }
    }
    Ok(Some(ids))
}

/// The identifier of a trigger: that of the optional dependency of its name, else of the dependency.
pub(crate) fn trigger_id<'a>(
    weakdeps: &'a [(Name, Uuid)],
    deps: &'a [(Name, Uuid)],
    name: &Name,
) -> Option<&'a Uuid>
    ensures { option_copied result ≡ spec.trigger_id weakdeps.now deps.now name.now }
{
    match found_at(weakdeps, name) {
        Some(id) => Some(id),
        None => found_at(deps, name),
    }
}
