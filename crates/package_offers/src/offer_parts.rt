//! The dependencies and the compat of an offer, from the row of its version.
ghost use Rattle.std.specs.Prelude.{◌≡◌, ◌++◌, not, map, filter, IsTrue, IfOk, OnOk, option_map};
ghost use Rattle.std.specs.List.{list_any};
ghost use Rattle.std.specs.Option.{option_copied, option_to_list};
ghost use Rattle.std.specs.Str.{bytes_eq};
ghost use Rattle.pkg_world.specs.ByName.{is_by_name};
ghost use Rattle.package_tables.specs.Row.{by_bytes, value_of};
ghost use Rattle.offer_terms.specs.Offered.{allows, allowing};
ghost use Rattle.package_offers.specs.RegistryOffers as spec;

use compat_spec::Allowed;
use offer_terms::{CompatIds, julia_uuid};
use pkg_world::{Duplicate, Listed, Name, NameIds, Named};
use std::alloc::{AllocError, Global};
use std::cmp::Ordering;
use uuid::Uuid;

/// The dependencies on other packages than the project's own. The list itself where the own one isn't among them.
pub(crate) fn others(alloc: Global, own: Option<&Uuid>, ids: NameIds) -> Result<NameIds, AllocError>
    ensures { IfOk result (λ kept. kept.items ≡ spec.others (option_copied own.entry) ids.items) }
{
    match own {
        Some(own) => without(alloc, own, ids),
        None => Ok(ids),
    }
}

fn without(alloc: Global, own: &Uuid, ids: NameIds) -> Result<NameIds, AllocError>
    ensures { IfOk result (λ kept. kept.items ≡ filter (λ p. not (bytes_eq own.now p.1)) ids.items) }
{
    if has_id(own, ids.items()) {
        without_own(alloc, own, ids.items())
    } else {
        Ok(ids)
    }
}

fn has_id(own: &Uuid, ids: &[(Name, Uuid)]) -> bool
    ensures { result ≡ list_any (λ p. bytes_eq own.now p.1) ids.now }
{
    ids.iter().any(|pair| *own == pair.1)
}

fn without_own(alloc: Global, own: &Uuid, ids: &[(Name, Uuid)]) -> Result<NameIds, AllocError>
    requires { IsTrue (is_by_name ids.now) }
    ensures { IfOk result (λ kept. kept.items ≡ filter (λ p. not (bytes_eq own.now p.1)) ids.now) }
{
    let mut kept = Listed::make(alloc);
    for (name, id) in ids {
        if *own != *id {
            kept.push((name.copy(alloc)?, *id))?;
        }
    }
    Ok(Named::of(kept))
}

/// Compat by identifiers: of each name the dependency that has it, and of `julia` Julia. Any other name is passed over.
pub(crate) fn compat_ids(
    alloc: Global,
    deps: &NameIds,
    weak: &NameIds,
    list: &[(Name, Allowed)],
) -> Result<CompatIds, AllocError>
    ensures { IfOk result (λ ids. map allowing ids.items ≡ spec.made_compat deps.now.items weak.now.items list.now) }
{
    let mut ids = Listed::make(alloc);
    for (name, allowed) in list {
        push_compat(alloc, &mut ids, compat_on(deps, weak, name), allowed)?;
    }
    Ok(ids)
}

/// Appends what is allowed, where it is on some package.
fn push_compat(
    alloc: Global,
    ids: &mut CompatIds,
    on: Option<Uuid>,
    allowed: &Allowed,
) -> Result<(), AllocError>
    ensures { OnOk result (map allowing ids.new.items ≡ map allowing ids.old.items ++ option_to_list (option_map (λ id. (id, allows allowed.now)) on)) }
{
    if let Some(id) = on {
        ids.push((id, allowed.copy(alloc)?))?;
    }
    Ok(())
}

/// What compat on a name speaks of.
pub(crate) fn compat_on(deps: &NameIds, weak: &NameIds, name: &Name) -> Option<Uuid>
    ensures { result ≡ spec.compat_on deps.now.items weak.now.items name.now }
{
    if name.as_str() == "julia" {
        return Some(julia_uuid());
    }
    match id_named(deps.items(), name.as_str()) {
        Some(id) => Some(id),
        None => id_named(weak.items(), name.as_str()),
    }
}

/// The identifier of a name, by halving.
pub(crate) fn id_named(ids: &[(Name, Uuid)], name: &str) -> Option<Uuid>
    requires { IsTrue (is_by_name ids.now) }
    ensures { result ≡ value_of name.now ids.now }
{
    match ids.binary_search_by(|pair| against(pair, name)) {
        Ok(place) => Some(ids[place].1),
        Err(_) => None,
    }
}

fn against(pair: &(Name, Uuid), name: &str) -> Ordering
    ensures { result ≡ by_bytes pair.now.0 name.now }
{
    pair.0.as_str().as_bytes().cmp(name.as_bytes())
}
