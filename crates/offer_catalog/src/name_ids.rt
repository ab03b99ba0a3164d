//! The identifiers that a catalog has under a name.
ghost use Rattle.std.specs.Prelude.{◌≡◌, fold, map, IfOk, OnOk};
ghost use Rattle.offer_terms.specs.Demanded.{fixed_said};
ghost use Rattle.offer_catalog.specs.Named as spec;

use crate::catalog::Catalog;
use offer_terms::Fixed;
use pkg_world::{Ids, Listed, Name};
use registered_offers::LoadedRegistry;
use registry_tables::Package;
use standard_libraries::Libraries;
use std::alloc::{AllocError, Global};
use std::collections::BTreeSet;
use uuid::Uuid;

impl Catalog {
    /// The identifiers that the catalog has under a name: those of packages that a registry lists, of standard libraries and
    /// of fixed packages, in the order of their bytes and each once. The one error is want of memory.
    pub fn ids(&self, alloc: Global, name: &Name) -> Result<Ids, AllocError>
        ensures { IfOk result (λ ids. ids.items ≡ spec.ids_named self.now name.now) }
    {
        let mut ids = BTreeSet::new(alloc);
        put_registries(&mut ids, name.as_str(), self.registries())?;
        put_libraries(&mut ids, name.as_str(), self.libraries())?;
        put_fixed(&mut ids, name.as_str(), self.fixed().items())?;
        in_order(alloc, ids)
    }
}

fn put_registries(
    ids: &mut BTreeSet<Uuid>,
    name: &str,
    registries: &[LoadedRegistry],
) -> Result<(), AllocError>
    ensures { OnOk result (ids.new.keys ≡ fold (spec.put_registry name.now) ids.old.keys registries.now) }
{
    for registry in registries {
        put_packages(ids, name, registry.packages())?;
    }
    Ok(())
}

fn put_packages(
    ids: &mut BTreeSet<Uuid>,
    name: &str,
    packages: &[Package],
) -> Result<(), AllocError>
    ensures { OnOk result (ids.new.keys ≡ spec.put_ids ids.old.keys (spec.listed_ids name.now packages.now)) }
{
    for listed in packages {
        if listed.name.as_str() == name {
            ids.insert(listed.uuid)?;
        }
    }
    Ok(())
}

fn put_libraries(
    ids: &mut BTreeSet<Uuid>,
    name: &str,
    libraries: &Libraries,
) -> Result<(), AllocError>
    ensures { OnOk result (ids.new.keys ≡ spec.put_ids ids.old.keys (spec.library_ids name.now libraries.now.entries)) }
{
    'libraries: for (uuid, library) in libraries.iter() {
        if library.name().as_str() == name {
            ids.insert(*uuid)?;
        }
    }
    Ok(())
}

fn put_fixed(ids: &mut BTreeSet<Uuid>, name: &str, fixed: &[Fixed]) -> Result<(), AllocError>
    ensures { OnOk result (ids.new.keys ≡ spec.put_ids ids.old.keys (spec.fixed_ids name.now (map fixed_said fixed.now))) }
{
    for given in fixed {
        if given.name.as_str() == name {
            ids.insert(given.uuid)?;
        }
    }
    Ok(())
}

fn in_order(alloc: Global, ids: BTreeSet<Uuid>) -> Result<Ids, AllocError>
    ensures { IfOk result (λ list. list.items ≡ ids.keys) }
{
    let mut list = Listed::make(alloc);
    let mut left = ids;
    'ids: while let Some(uuid) = left.pop_first() {
        list.push(uuid)?;
    }
    Ok(list)
}
