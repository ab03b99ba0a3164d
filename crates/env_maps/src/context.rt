//! What is seen from a context.
ghost use Rattle.std.specs.Prelude.{◌≡◌, ◌≤◌, if◌then◌else◌, Some, None, IfSome, IfOk, IfErr, option_map};
ghost use Rattle.std.specs.Option.{option_and_then};
ghost use Rattle.project_places.specs.Active.{or_next};
ghost use Rattle.project_places.specs.Faults.{OnlyReadFault};
ghost use Rattle.extension_rules.specs.ByName.{is_among as is_name_among};
ghost use Rattle.env_maps.specs.Contexts as spec;
ghost use Rattle.env_maps.specs.Maps.{dep_of, dep_answer};

use crate::id::{Context, DepAnswer, Id, is_uuid};
use crate::uses::UsesRef;
use entry_files::extension_entry;
use extension_rules::{extension_id, found_at, is_among};
use pkg_world::{Duplicate, Name, NormPath, Store};
use project_places::EnvFault;
use std::alloc::{AllocError, Global};
use uuid::Uuid;

/// The identity of a package with that identifier. The one error is want of memory.
pub(crate) fn package_id(alloc: Global, uuid: &Uuid, name: &Name) -> Result<Id, AllocError>
    ensures { IfOk result (λ id. id ≡ spec.package_id uuid.now name.now) }
{
    let name = name.copy(alloc)?;
    Ok(Id {
        uuid: Some(*uuid),
        name,
    })
}

/// The identity of an extension of the package with that identifier. The one error is want of memory. (Own rule, after
/// Julia's loader.)
pub fn extension_of(alloc: Global, uuid: &Uuid, extension: &Name) -> Result<Id, AllocError>
    ensures { IfOk result (λ id. id ≡ spec.extension_of uuid.now extension.now) }
{
    package_id(alloc, &extension_id(uuid, extension), extension)
}

/// Whether an identity is that of an extension of the package with that identifier.
fn is_extension(uuid: &Uuid, extension: &Name, id: &Id) -> bool
    ensures { result ≡ spec.is_extension uuid.now extension.now id.now }
{
    extension.as_str() == id.name.as_str() && is_uuid(&id.uuid, &extension_id(uuid, extension))
}

/// The package whose files hold an identity's entry: for the extension from which is asked its parent, else itself.
pub(crate) fn base_of(alloc: Global, context: &Context, id: &Id) -> Result<Id, AllocError>
    ensures { IfOk result (λ base. base ≡ spec.base_of context.now id.now) }
{
    match context {
        Context::Top => id.copy(alloc),
        Context::Package(_) => id.copy(alloc),
        Context::Extension(uuid, parent, extension) => {
            if is_extension(uuid, extension, id) {
                package_id(alloc, uuid, parent)
            } else {
                id.copy(alloc)
            }
        }
    }
}

/// What a package's dependencies say of a name; a package that isn't there is no context.
pub(crate) fn dep_from_package(
    alloc: Global,
    uses: Option<UsesRef<'_>>,
    name: &Name,
) -> Result<DepAnswer, AllocError>
    ensures { IfOk result (λ answer. answer ≡ dep_answer name.now (option_map (λ u. u.deps) uses.entry)) }
{
    match uses {
        Some(uses) => dep_among(alloc, uses.deps, name),
        None => Ok(DepAnswer::NotMine),
    }
}

/// What an extension of a package says of a name; where the package isn't there or names no such extension, it is no
/// context.
pub(crate) fn dep_from_extension(
    alloc: Global,
    uses: Option<UsesRef<'_>>,
    uuid: &Uuid,
    parent: &Name,
    extension: &Name,
    name: &Name,
) -> Result<DepAnswer, AllocError>
    ensures { IfOk result (λ answer. answer ≡ dep_answer name.now (option_and_then (spec.extension_deps uuid.now parent.now extension.now) uses.entry)) }
{
    let Some(uses) = uses else {
        return Ok(DepAnswer::NotMine);
    };
    match found_at(uses.extensions, extension) {
        Some(triggers) => dep_by_triggers(alloc, &uses, uuid, parent, triggers.items(), name),
        None => Ok(DepAnswer::NotMine),
    }
}

/// What the extension with these triggers says of a name.
fn dep_by_triggers(
    alloc: Global,
    uses: &UsesRef<'_>,
    uuid: &Uuid,
    parent: &Name,
    triggers: &[Name],
    name: &Name,
) -> Result<DepAnswer, AllocError>
    ensures { IfOk result (λ answer. answer ≡ dep_answer name.now (Some (spec.seen_by uuid.now parent.now uses.now triggers.now))) }
{
    match seen_by(alloc, uses, uuid, parent, triggers, name)? {
        Some(id) => Ok(DepAnswer::Found(id)),
        None => Ok(DepAnswer::NoName),
    }
}

/// What the extension with these triggers sees under a name: the package that it extends, then its triggers, then that
/// package's dependencies.
#[tactic(auto, using(crate::proofs::Seen::seen_other))]
fn seen_by(
    alloc: Global,
    uses: &UsesRef<'_>,
    uuid: &Uuid,
    parent: &Name,
    triggers: &[Name],
    name: &Name,
) -> Result<Option<Id>, AllocError>
    ensures { IfOk result (λ id. id ≡ dep_of name.now (spec.seen_by uuid.now parent.now uses.now triggers.now)) }
{
    if parent.as_str() == name.as_str() {
        return Ok(Some(package_id(alloc, uuid, name)?));
    }
    dependency_seen(alloc, uses, triggers, name)
}

/// The trigger of that name, else the dependency.
fn dependency_seen(
    alloc: Global,
    uses: &UsesRef<'_>,
    triggers: &[Name],
    name: &Name,
) -> Result<Option<Id>, AllocError>
    ensures { IfOk result (λ id. id ≡ or_next (if is_name_among name.now triggers.now then dep_of name.now uses.now.weakdeps else None) (dep_of name.now uses.now.deps)) }
{
    match trigger_among(alloc, uses.weakdeps, triggers, name)? {
        Some(id) => Ok(Some(id)),
        None => dependency_among(alloc, uses.deps, name),
    }
}

/// The optional dependency of that name, where it is a trigger.
fn trigger_among(
    alloc: Global,
    weakdeps: &[(Name, Uuid)],
    triggers: &[Name],
    name: &Name,
) -> Result<Option<Id>, AllocError>
    ensures { IfOk result (λ id. id ≡ (if is_name_among name.now triggers.now then dep_of name.now weakdeps.now else None)) }
{
    if is_among(triggers, name) {
        dependency_among(alloc, weakdeps, name)
    } else {
        Ok(None)
    }
}

/// What a context's dependencies say of a name.
fn dep_among(alloc: Global, deps: &[(Name, Uuid)], name: &Name) -> Result<DepAnswer, AllocError>
    ensures { IfOk result (λ answer. answer ≡ dep_answer name.now (Some deps.now)) }
{
    match dependency_among(alloc, deps, name)? {
        Some(id) => Ok(DepAnswer::Found(id)),
        None => Ok(DepAnswer::NoName),
    }
}

/// The identity of the dependency of that name.
pub(crate) fn dependency_among(
    alloc: Global,
    deps: &[(Name, Uuid)],
    name: &Name,
) -> Result<Option<Id>, AllocError>
    ensures { IfOk result (λ id. id ≡ dep_of name.now deps.now) }
{
    for (key, uuid) in deps {
        if key.as_str() == name.as_str() {
            return Ok(Some(package_id(alloc, uuid, name)?));
        }
    }
    Ok(None)
}

fn names_extension(uses: &Option<UsesRef<'_>>, extension: &Name) -> bool
    ensures { result ≡ spec.names_extension extension.now uses.now }
{
    match uses {
        Some(uses) => found_at(uses.extensions, extension).is_some(),
        None => false,
    }
}

/// The entry path of an identity from a context, by what its base uses and by its base's entry.
///
/// Errors: ReadFault, where the store can't tell what is there; want of memory.
pub(crate) fn entry_from<S: Store>(
    alloc: Global,
    store: &mut S,
    context: &Context,
    id: &Id,
    uses: Option<UsesRef<'_>>,
    entry: Option<NormPath>,
) -> Result<Option<NormPath>, EnvFault>
    ensures path { IfSome (S.files store.old) (λ all. IfOk result (λ path. path ≡ spec.path_by all context.now id.now uses.entry entry)) }
    ensures refused { IfErr result (OnlyReadFault (S.read_faults store.old) (S.read_faults store.new)) }
    ensures files { S.files store.new ≡ S.files store.old }
    ensures later { S.read_faults store.old ≤ S.read_faults store.new }
    ensures other { S.write_faults store.new ≡ S.write_faults store.old }
{
    match context {
        Context::Top => Ok(entry),
        Context::Package(_) => Ok(entry),
        Context::Extension(uuid, parent, extension) => {
            if is_extension(uuid, extension, id) {
                extension_path(alloc, store, parent, extension, uses, entry)
            } else {
                Ok(entry)
            }
        }
    }
}

/// The entry path of an extension, by what its parent uses and by its parent's entry.
fn extension_path<S: Store>(
    alloc: Global,
    store: &mut S,
    parent: &Name,
    extension: &Name,
    uses: Option<UsesRef<'_>>,
    entry: Option<NormPath>,
) -> Result<Option<NormPath>, EnvFault>
    ensures path { IfSome (S.files store.old) (λ all. IfOk result (λ path. path ≡ spec.extension_path all parent.now extension.now uses.entry entry)) }
    ensures refused { IfErr result (OnlyReadFault (S.read_faults store.old) (S.read_faults store.new)) }
    ensures files { S.files store.new ≡ S.files store.old }
    ensures later { S.read_faults store.old ≤ S.read_faults store.new }
    ensures other { S.write_faults store.new ≡ S.write_faults store.old }
{
    if !names_extension(&uses, extension) {
        return Ok(None);
    }
    match entry {
        Some(entry) => extension_entry(alloc, store, &entry, parent, extension),
        None => Ok(None),
    }
}
