//! What a project demands of a selection.
ghost use Rattle.std.specs.Prelude.{◌≡◌, ◌&&◌, ◌++◌, map, IsTrue, IfOk, OnOk, option_map};
ghost use Rattle.std.specs.Option.{option_copied, option_to_list};
ghost use Rattle.pkg_world.specs.ByName.{is_by_name};
ghost use Rattle.package_tables.specs.Row.{value_of, is_absent};
ghost use Rattle.project_file.specs.Said.{said as said_project};
ghost use Rattle.manifest_file.specs.Said.{said as said_manifest, said_stanza};
ghost use Rattle.offer_terms.specs.Demanded.{wanted, fixed_said, spec_entry, version_entry};
ghost use Rattle.package_offers.specs.GivenOffers.{strong_deps, may_be_needed};
ghost use Rattle.package_offers.specs.RegistryOffers.{is_other};
ghost use Rattle.pkg_commands.specs.Changes.{changed_to};
ghost use Rattle.pkg_commands.specs.Demand as spec;

use compat_spec::Spec;
use manifest_file::{Manifest, Stanza};
use offer_catalog::Catalog;
use offer_terms::{
    Demand, FixedList, Selection, SpecId, SpecIds, VersionPair, VersionPairs, julia_uuid,
};
use package_names::value_named;
use pkg_world::{Duplicate, Listed, Name, NameIds, Named, Place};
use project_file::{Project, SpecText};
use std::alloc::{AllocError, Global};
use uuid::Uuid;

/// The demand of a changed project, its manifest and the fixed packages, by the catalog and a place. The one error is want of
/// memory.
#[tactic(auto, unfolding(project_file::specs::Said::said))]
pub(crate) fn demand_of(
    alloc: Global,
    project: &Project,
    manifest: &Manifest,
    fixed: FixedList,
    catalog: &Catalog,
    place: &Place,
) -> Result<Demand, AllocError>
    ensures { IfOk result (λ demand. wanted demand ≡ spec.demand_of catalog.now place.now (changed_to (said_project project.now) (said_manifest manifest.now) (map fixed_said fixed.items))) }
{
    let own = project.uuid;
    let selection = catalog.selection(alloc, manifest, own)?;
    Ok(Demand {
        roots: roots_of(alloc, &own, project.weakdeps.items(), project.deps.items())?,
        own,
        compat: compat_of(alloc, project)?,
        pins: pins_of(alloc, &selection, manifest.stanzas.items())?,
        held: Listed::make(alloc),
        fixed,
        julia: place.julia,
    })
}

/// The names of `deps` that aren't weak, but for Julia and the project's own package.
fn roots_of(
    alloc: Global,
    own: &Option<Uuid>,
    weak: &[(Name, Uuid)],
    deps: &[(Name, Uuid)],
) -> Result<NameIds, AllocError>
    requires weak { IsTrue (is_by_name weak.now) }
    requires deps { IsTrue (is_by_name deps.now) }
    ensures { IfOk result (λ kept. kept.items ≡ strong_deps own.now weak.now deps.now) }
{
    let mut kept = Listed::make(alloc);
    for (name, id) in deps {
        if is_root(own, weak, name, id) {
            kept.push((name.copy(alloc)?, *id))?;
        }
    }
    Ok(Named::of(kept))
}

fn is_root(own: &Option<Uuid>, weak: &[(Name, Uuid)], name: &Name, id: &Uuid) -> bool
    requires { IsTrue (is_by_name weak.now) }
    ensures { result ≡ (is_absent (value_of name.now weak.now) && may_be_needed own.now id.now) }
{
    match value_named(weak, name.as_str()) {
        Some(_) => false,
        None => may_be_needed(own, id),
    }
}

/// Whether a package may be depended on: it is neither Julia nor the project's own.
fn may_be_needed(own: &Option<Uuid>, id: &Uuid) -> bool
    ensures { result ≡ may_be_needed own.now id.now }
{
    *id != julia_uuid() && is_other(own, id)
}

fn is_other(own: &Option<Uuid>, id: &Uuid) -> bool
    ensures { result ≡ is_other own.now id.now }
{
    match own {
        Some(own) => *own != *id,
        None => true,
    }
}

/// The project's compat on its dependencies and on its weak ones, by their identifiers.
#[tactic(auto, unfolding(project_file::specs::Said::said))]
fn compat_of(alloc: Global, project: &Project) -> Result<SpecIds, AllocError>
    ensures { IfOk result (λ specs. map spec_entry specs.items ≡ spec.compat_of (said_project project.now)) }
{
    let compat = project.compat.items();
    let mut specs = Listed::make(alloc);
    push_compat(alloc, &mut specs, compat, project.deps.items())?;
    push_compat(alloc, &mut specs, compat, project.weakdeps.items())?;
    Ok(specs)
}

/// Appends the compat on some dependencies.
fn push_compat(
    alloc: Global,
    specs: &mut SpecIds,
    compat: &[(Name, SpecText)],
    deps: &[(Name, Uuid)],
) -> Result<(), AllocError>
    requires { IsTrue (is_by_name compat.now) }
    ensures { OnOk result (map spec_entry specs.new.items ≡ map spec_entry specs.old.items ++ spec.compat_on compat.now deps.now) }
{
    for (name, id) in deps {
        push_spec(alloc, specs, *id, spec_on(compat, name))?;
    }
    Ok(())
}

/// Appends what is said of a package, where something is.
fn push_spec(
    alloc: Global,
    specs: &mut SpecIds,
    uuid: Uuid,
    on: Option<&Spec>,
) -> Result<(), AllocError>
    ensures { OnOk result (map spec_entry specs.new.items ≡ map spec_entry specs.old.items ++ option_to_list (option_map (λ parts. (uuid, parts)) (option_copied on.entry))) }
{
    if let Some(spec) = on {
        let spec = spec.copy(alloc)?;
        specs.push(SpecId { uuid, spec })?;
    }
    Ok(())
}

/// What compat says of a name, which isn't `julia`: that is Julia's alone.
fn spec_on<'a>(compat: &'a [(Name, SpecText)], name: &Name) -> Option<&'a Spec>
    requires { IsTrue (is_by_name compat.now) }
    ensures { option_copied result ≡ spec.parts_on compat.now name.now }
{
    if name.as_str() == "julia" {
        return None;
    }
    match value_named(compat, name.as_str()) {
        Some(spelled) => Some(spelled.spec()),
        None => None,
    }
}

/// The selected versions of pinned stanzas.
fn pins_of(
    alloc: Global,
    selection: &Selection,
    stanzas: &[Stanza],
) -> Result<VersionPairs, AllocError>
    ensures { IfOk result (λ pins. map version_entry pins.items ≡ spec.pins_of selection.now.items (map said_stanza stanzas.now)) }
{
    let mut pins = Listed::make(alloc);
    for stanza in stanzas {
        if stanza.pinned {
            push_pin(alloc, &mut pins, selection, &stanza.uuid)?;
        }
    }
    Ok(pins)
}

fn push_pin(
    alloc: Global,
    pins: &mut VersionPairs,
    selection: &Selection,
    uuid: &Uuid,
) -> Result<(), AllocError>
    ensures { OnOk result (map version_entry pins.new.items ≡ map version_entry pins.old.items ++ option_to_list (spec.pin_on selection.now.items uuid.now)) }
{
    if let Some(version) = selection.version_of(uuid) {
        let version = version.copy(alloc)?;
        pins.push(VersionPair {
            uuid: *uuid,
            version,
        })?;
    }
    Ok(())
}
