//! What registries offer of a package.
ghost use Rattle.std.specs.Prelude.{◌≡◌, ◌++◌, ◌∷◌, [], IfOk, OnOk, map, filter};
ghost use Rattle.std.specs.BTreeMap.{is_at};
ghost use Rattle.std.specs.List.{list_any};
ghost use Rattle.std.specs.Map.{values_of};
ghost use Rattle.std.specs.Option.{option_copied};
ghost use Rattle.jl_versions.specs.Order.{version_cmp};
ghost use Rattle.offer_terms.specs.Demanded.{version_entry};
ghost use Rattle.offer_terms.specs.Kept.{AreNumbered, DoRise};
ghost use Rattle.offer_terms.specs.Offered.{offering, allowing};
ghost use Rattle.package_offers.specs.RegistryOffers as spec;

use crate::offer_parts::{compat_ids, others};
use crate::tree_extensions::{TreeExtensions, extensions_of};
use jl_versions::Version;
use manifest_file::Origin;
use offer_terms::{CompatIds, Offer, VersionPair};
use pkg_world::{Listed, NameIds};
use registered_offers::{ListedVersion, ListedVersions, PackageTables, merged};
use registry_tables::VersionRow;
use std::alloc::{AllocError, Global};
use uuid::Uuid;

/// The offers of a package, from its tables in the registries that list it, in rising order of their versions (Pkg,
/// registries). Of a version that several registries list the first one's row counts, and a yanked one is offered only
/// where it is pinned. A name in both kinds of dependency is weak; Julia and the project's own package are no dependencies.
/// Compat stands on the dependencies of either kind and on Julia, and any other is ignored. The extensions are those that
/// are known of the version's tree, else there are none.
///
/// `number` is the package's number, which each offer carries. The one error is want of memory.
pub fn registry_offers(
    alloc: Global,
    number: u32,
    uuid: &Uuid,
    tables: &[PackageTables],
    own: Option<&Uuid>,
    pins: &[VersionPair],
    known: Option<&TreeExtensions>,
) -> Result<Listed<Offer>, AllocError>
    ensures offers { IfOk result (λ offers. map offering offers.items ≡ spec.registry_offers uuid.now (option_copied own.entry) (map version_entry pins.now) (option_copied known.entry) tables.now) }
    ensures numbered { IfOk result (λ offers. AreNumbered number offers.items) }
    ensures rising { IfOk result (λ offers. DoRise offers.items) }
{
    let pinned = pinned_of(alloc, uuid, pins)?;
    let versions = merged(alloc, tables)?;
    all_offers(alloc, number, versions, pinned.as_slice(), own, known)
}

/// The offers of these versions.
fn all_offers<'a>(
    alloc: Global,
    number: u32,
    mut versions: ListedVersions<'a>,
    pinned: &[&Version],
    own: Option<&Uuid>,
    known: Option<&TreeExtensions>,
) -> Result<Listed<Offer>, AllocError>
    ensures offers { IfOk result (λ offers. map offering offers.items ≡ map (spec.offering_of (option_copied own.entry) (option_copied known.entry))
        (filter (λ listed. spec.is_offered (map (λ v. v.now) pinned.now) listed.0) (values_of versions.entry.entries))) }
    ensures numbered { IfOk result (λ offers. AreNumbered number offers.items) }
{
    let mut offers = Listed::make(alloc);
    'versions: while let Some((_, listed)) = versions.pop_first() {
        if is_offered(pinned, listed.row()) {
            push_offer(alloc, &mut offers, number, &listed, own, known)?;
        }
    }
    Ok(offers)
}

/// Appends what is offered of a listed version.
fn push_offer<'a>(
    alloc: Global,
    offers: &mut Listed<Offer>,
    number: u32,
    listed: &ListedVersion<'a>,
    own: Option<&Uuid>,
    known: Option<&TreeExtensions>,
) -> Result<(), AllocError>
    requires { AreNumbered number offers.old.items }
    ensures offers { OnOk result (map offering offers.new.items ≡ map offering offers.old.items ++ spec.offering_of (option_copied own.entry) (option_copied known.entry) listed.now ∷ []) }
    ensures numbered { OnOk result (AreNumbered number offers.new.items) }
{
    let offer = offer_of(alloc, number, listed, own, known)?;
    offers.push(offer)
}

/// The versions that a package is pinned to.
fn pinned_of<'a>(
    alloc: Global,
    uuid: &Uuid,
    pins: &'a [VersionPair],
) -> Result<Vec<&'a Version>, AllocError>
    ensures { IfOk result (λ versions. map (λ v. v.now) versions.items ≡ spec.pinned_of uuid.now (map version_entry pins.now)) }
{
    let mut versions = Vec::new(alloc);
    for pin in pins {
        if pin.uuid == *uuid {
            versions.push(&pin.version)?;
        }
    }
    Ok(versions)
}

/// Whether a listed version is offered.
fn is_offered(pinned: &[&Version], row: &VersionRow) -> bool
    ensures { result ≡ spec.is_offered (map (λ v. v.now) pinned.now) row.now }
{
    !row.yanked || is_pinned(pinned, &row.version)
}

fn is_pinned(pinned: &[&Version], version: &Version) -> bool
    ensures { result ≡ list_any (is_at (version_cmp version.now)) (map (λ v. v.now) pinned.now) }
{
    for pin in pinned {
        if version.cmp(*pin).is_eq() {
            return true;
        }
    }
    false
}

/// What is offered of a listed version.
fn offer_of<'a>(
    alloc: Global,
    number: u32,
    listed: &ListedVersion<'a>,
    own: Option<&Uuid>,
    known: Option<&TreeExtensions>,
) -> Result<Offer, AllocError>
    ensures offered { IfOk result (λ offer. offering offer ≡ spec.offering_of (option_copied own.entry) (option_copied known.entry) listed.now) }
    ensures numbered { IfOk result (λ offer. offer.package ≡ number) }
{
    let version = listed.row();
    let row = listed.tables().row(alloc, &version.version)?;
    let deps = others(alloc, own, row.deps)?;
    let weak = others(alloc, own, row.weak)?;
    let compat = compat_ids(alloc, &deps, &weak, row.compat.items())?;
    offer_with(alloc, number, version, deps, weak, compat, known)
}

/// The offer that has these dependencies and this compat.
fn offer_with(
    alloc: Global,
    number: u32,
    row: &VersionRow,
    deps: NameIds,
    weak: NameIds,
    compat: CompatIds,
    known: Option<&TreeExtensions>,
) -> Result<Offer, AllocError>
    ensures offered { IfOk result (λ offer. offering offer ≡ record {
      version = row.now.version;
      deps = deps.items;
      weak = weak.items;
      compat = map allowing compat.items;
      origin = Origin.Tree row.now.tree;
      extensions = spec.extensions_of (option_copied known.entry) row.now.tree;
    }) }
    ensures numbered { IfOk result (λ offer. offer.package ≡ number) }
{
    Ok(Offer {
        package: number,
        version: row.version.copy(alloc)?,
        deps,
        weak,
        compat,
        origin: Origin::Tree(row.tree),
        extensions: extensions_of(alloc, known, &row.tree)?,
    })
}
