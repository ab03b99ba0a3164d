//! The identifiers of a project's names.
ghost use Rattle.std.specs.Prelude.{◌≡◌, IfOk, OnOk};
ghost use Rattle.project_file.specs.Said.{said as said_project};
ghost use Rattle.fixed_packages.specs.Candidates as spec;
ghost use Rattle.fixed_packages.specs.Firsts.{put_new, put_pairs};

use crate::name_key::NameKey;
use pkg_world::{Duplicate, Name};
use project_file::Project;
use std::alloc::{AllocError, Global};
use std::collections::BTreeMap;
use uuid::Uuid;

/// Identifiers by names.
pub(crate) type NamedIds = BTreeMap<NameKey, Uuid>;

/// The identifiers of a project's names: that of `deps`, else of `weakdeps`, else of `extras`.
#[tactic(auto, unfolding(project_file::specs::Said::said))]
pub(crate) fn ids_of(alloc: Global, project: &Project) -> Result<NamedIds, AllocError>
    ensures { IfOk result (λ ids. ids.entries ≡ spec.ids_of (said_project project.now)) }
{
    let mut ids = BTreeMap::new(alloc);
    put_ids(alloc, &mut ids, project.deps.items())?;
    put_ids(alloc, &mut ids, project.weakdeps.items())?;
    put_ids(alloc, &mut ids, project.extras.items())?;
    Ok(ids)
}

fn put_ids(alloc: Global, ids: &mut NamedIds, pairs: &[(Name, Uuid)]) -> Result<(), AllocError>
    ensures { OnOk result (ids.new.entries ≡ put_pairs ids.old.entries pairs.now) }
{
    for (name, uuid) in pairs {
        put_id(alloc, ids, name, *uuid)?;
    }
    Ok(())
}

/// Puts a name, unless it is there.
fn put_id(alloc: Global, ids: &mut NamedIds, name: &Name, uuid: Uuid) -> Result<(), AllocError>
    ensures { OnOk result (ids.new.entries ≡ put_new ids.old.entries name.now uuid) }
{
    let key = NameKey::of(name.copy(alloc)?);
    if ids.contains_key(&key) {
        return Ok(());
    }
    ids.insert(key, uuid)?;
    Ok(())
}
