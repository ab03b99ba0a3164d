//! The selection that a manifest says.
ghost use Rattle.std.specs.Prelude.{◌≡◌, map, option_copied, IfOk, OnOk};
ghost use Rattle.package_tables.specs.Row.{by_bytes, put_to};
ghost use Rattle.manifest_file.specs.Said.{said as said_manifest, said_stanza};
ghost use Rattle.offer_catalog.specs.Selected as spec;

use crate::catalog::Catalog;
use jl_versions::Version;
use manifest_file::{Manifest, Stanza};
use offer_terms::{Selection, julia_uuid};
use pkg_world::Listed;
use std::alloc::{AllocError, Global};
use std::collections::BTreeMap;
use uuid::Uuid;

/// Versions by the identifiers of their packages.
type Versions = BTreeMap<Uuid, Version>;

impl Catalog {
    /// The selection that a manifest says: each stanza's version, but not Julia's nor the project's own, whose identifier
    /// is `own`. A stanza without a version has that of the fixed package of its identifier, else that of the standard
    /// library, else 0.0.0. Of two stanzas of one identifier, which `Manifest::read` refuses, the later one counts. (Own
    /// rules.) The one error is want of memory.
    pub fn selection(
        &self,
        alloc: Global,
        manifest: &Manifest,
        own: Option<Uuid>,
    ) -> Result<Selection, AllocError>
        ensures { IfOk result (λ selection. selection.items ≡ spec.selected_by self.now own (said_manifest manifest.now)) }
    {
        let versions = versions_of(alloc, self, manifest.stanzas.items(), &own)?;
        selection_of(alloc, versions)
    }
}

fn versions_of(
    alloc: Global,
    catalog: &Catalog,
    stanzas: &[Stanza],
    own: &Option<Uuid>,
) -> Result<Versions, AllocError>
    ensures { IfOk result (λ versions. versions.entries ≡ spec.selected_of catalog.now own.now (map said_stanza stanzas.now)) }
{
    let mut versions = BTreeMap::new(alloc);
    for stanza in stanzas {
        if counts(&stanza.uuid, own) {
            put_version(alloc, &mut versions, catalog, stanza)?;
        }
    }
    Ok(versions)
}

fn put_version(
    alloc: Global,
    versions: &mut Versions,
    catalog: &Catalog,
    stanza: &Stanza,
) -> Result<(), AllocError>
    ensures { OnOk result (versions.new.entries ≡ spec.put_stanza catalog.now versions.old.entries (said_stanza stanza.now)) }
{
    let version = version_of(alloc, catalog, stanza)?;
    versions.insert(stanza.uuid, version)?;
    Ok(())
}

/// Whether a package's stanza counts: it is neither Julia's nor the project's own.
fn counts(uuid: &Uuid, own: &Option<Uuid>) -> bool
    ensures { result ≡ spec.counts own.now uuid.now }
{
    *uuid != julia_uuid() && is_other(uuid, own)
}

fn is_other(uuid: &Uuid, own: &Option<Uuid>) -> bool
    ensures { result ≡ spec.is_other own.now uuid.now }
{
    match own {
        Some(own) => *uuid != *own,
        None => true,
    }
}

/// The version that a stanza says.
fn version_of(alloc: Global, catalog: &Catalog, stanza: &Stanza) -> Result<Version, AllocError>
    ensures { IfOk result (λ version. version ≡ spec.version_of catalog.now (said_stanza stanza.now)) }
{
    match &stanza.version {
        Some(version) => version.copy(alloc),
        None => given_version(alloc, catalog, &stanza.uuid),
    }
}

/// The version that a fixed package gives, else a standard library, else 0.0.0.
fn given_version(alloc: Global, catalog: &Catalog, uuid: &Uuid) -> Result<Version, AllocError>
    ensures { IfOk result (λ version. version ≡ spec.given_version catalog.now uuid.now) }
{
    match fixed_version(catalog, uuid) {
        Some(version) => version.copy(alloc),
        None => match catalog.standard(uuid) {
            Some(version) => version.copy(alloc),
            None => Ok(Version::of(alloc, [0, 0, 0])),
        },
    }
}

fn fixed_version<'a>(catalog: &'a Catalog, uuid: &Uuid) -> Option<&'a Version>
    ensures { option_copied result ≡ spec.fixed_version catalog.now.fixed uuid.now }
{
    let list = catalog.fixed();
    match list.get(uuid) {
        Some(fixed) => Some(&fixed.version),
        None => None,
    }
}

fn selection_of(alloc: Global, versions: Versions) -> Result<Selection, AllocError>
    ensures { IfOk result (λ selection. selection.items ≡ versions.entries) }
{
    let mut list = Listed::make(alloc);
    // The call tells the proof that the identifiers rise.
    let _count = versions.len();
    let mut left = versions;
    'versions: while let Some(entry) = left.pop_first() {
        list.push(entry)?;
    }
    Ok(Selection::of(list))
}
