//! The one offer of a package whose version is given.
ghost use Rattle.std.specs.Prelude.{◌≡◌, ◌++◌, ◌&&◌, [], map, IsTrue, IfOk, OnOk, option_map};
ghost use Rattle.std.specs.Option.{option_copied, option_to_list};
ghost use Rattle.pkg_world.specs.ByName.{is_by_name};
ghost use Rattle.manifest_file.specs.declared.origin.Origin.TheVariants.{Std};
ghost use Rattle.package_tables.specs.Row.{value_of, is_absent};
ghost use Rattle.offer_terms.specs.Demanded.{fixed_said};
ghost use Rattle.offer_terms.specs.Offered.{of_parts, allowing, offering};
ghost use Rattle.package_offers.specs.GivenOffers as spec;
ghost use Rattle.package_offers.specs.RegistryOffers.{is_other, compat_on};

use crate::offer_parts::{compat_on, id_named};
use compat_spec::Allowed;
use manifest_file::Origin;
use offer_terms::{CompatIds, Fixed, Offer, julia_uuid};
use pkg_world::{Duplicate, Listed, Name, NameIds, Named};
use project_file::SpecText;
use standard_libraries::Library;
use std::alloc::{AllocError, Global};
use uuid::Uuid;

/// The one offer of a fixed package (Pkg, developed packages). A name in both kinds of dependency is weak; Julia and the
/// project's own package, whose identifier is `own`, are no dependencies. Compat stands on the dependencies of either kind
/// and on Julia, and any other is ignored.
///
/// `number` is the package's number, which the offer carries. The one error is want of memory.
pub fn fixed_offer(
    alloc: Global,
    number: u32,
    own: Option<&Uuid>,
    fixed: &Fixed,
) -> Result<Offer, AllocError>
    ensures offered { IfOk result (λ offer. offering offer ≡ spec.given_offering (option_copied own.entry) (fixed_said fixed.now)) }
    ensures numbered { IfOk result (λ offer. offer.package ≡ number) }
{
    let weak_listed = fixed.weak.items();
    let deps_listed = fixed.deps.items();
    let compat_listed = fixed.compat.items();
    let deps = strong_deps(alloc, own, weak_listed, deps_listed)?;
    let weak = weak_deps(alloc, own, weak_listed)?;
    let compat = spec_compat(alloc, &deps, &weak, compat_listed)?;
    fixed_with(alloc, number, fixed, deps, weak, compat)
}

/// The offer of a fixed package that has these dependencies and this compat.
fn fixed_with(
    alloc: Global,
    number: u32,
    fixed: &Fixed,
    deps: NameIds,
    weak: NameIds,
    compat: CompatIds,
) -> Result<Offer, AllocError>
    ensures offered { IfOk result (λ offer. offering offer ≡ record {
      version = fixed.now.version;
      deps = deps.items;
      weak = weak.items;
      compat = map allowing compat.items;
      origin = fixed.now.origin;
      extensions = fixed.now.extensions.items;
    }) }
    ensures numbered { IfOk result (λ offer. offer.package ≡ number) }
{
    Ok(Offer {
        package: number,
        version: fixed.version.copy(alloc)?,
        deps,
        weak,
        compat,
        origin: fixed.origin.copy(alloc)?,
        extensions: fixed.extensions.copy(alloc)?,
    })
}

/// The one offer of a standard library, which allows every version of what it needs. Its dependencies are told as
/// `fixed_offer` tells those of a fixed package. The one error is want of memory.
pub fn library_offer(
    alloc: Global,
    number: u32,
    own: Option<&Uuid>,
    library: &Library,
) -> Result<Offer, AllocError>
    ensures offered { IfOk result (λ offer. offering offer ≡ spec.library_offering (option_copied own.entry) library.now) }
    ensures numbered { IfOk result (λ offer. offer.package ≡ number) }
{
    let weak_listed = library.weak().items();
    let deps_listed = library.deps().items();
    let deps = strong_deps(alloc, own, weak_listed, deps_listed)?;
    let weak = weak_deps(alloc, own, weak_listed)?;
    library_with(alloc, number, library, deps, weak)
}

/// The offer of a standard library that has these dependencies.
fn library_with(
    alloc: Global,
    number: u32,
    library: &Library,
    deps: NameIds,
    weak: NameIds,
) -> Result<Offer, AllocError>
    ensures offered { IfOk result (λ offer. offering offer ≡ record {
      version = library.now.version;
      deps = deps.items;
      weak = weak.items;
      compat = [];
      origin = Std;
      extensions = library.now.extensions;
    }) }
    ensures numbered { IfOk result (λ offer. offer.package ≡ number) }
{
    Ok(Offer {
        package: number,
        version: library.version().copy(alloc)?,
        deps,
        weak,
        compat: Listed::make(alloc),
        origin: Origin::Std,
        extensions: library.extensions().copy(alloc)?,
    })
}

/// The dependencies on other packages than Julia and the project's own that aren't weak.
fn strong_deps(
    alloc: Global,
    own: Option<&Uuid>,
    weak: &[(Name, Uuid)],
    deps: &[(Name, Uuid)],
) -> Result<NameIds, AllocError>
    requires weak { IsTrue (is_by_name weak.now) }
    requires deps { IsTrue (is_by_name deps.now) }
    ensures { IfOk result (λ kept. kept.items ≡ spec.strong_deps (option_copied own.entry) weak.now deps.now) }
{
    let mut kept = Listed::make(alloc);
    for (name, id) in deps {
        if is_strong(own, weak, name, id) {
            kept.push((name.copy(alloc)?, *id))?;
        }
    }
    Ok(Named::of(kept))
}

/// The weak dependencies on other packages than Julia and the project's own.
fn weak_deps(
    alloc: Global,
    own: Option<&Uuid>,
    weak: &[(Name, Uuid)],
) -> Result<NameIds, AllocError>
    requires { IsTrue (is_by_name weak.now) }
    ensures { IfOk result (λ kept. kept.items ≡ spec.weak_deps (option_copied own.entry) weak.now) }
{
    let mut kept = Listed::make(alloc);
    for (name, id) in weak {
        if may_be_needed(own, id) {
            kept.push((name.copy(alloc)?, *id))?;
        }
    }
    Ok(Named::of(kept))
}

fn is_strong(own: Option<&Uuid>, weak: &[(Name, Uuid)], name: &Name, id: &Uuid) -> bool
    requires { IsTrue (is_by_name weak.now) }
    ensures { result ≡ (is_absent (value_of name.now weak.now) && spec.may_be_needed (option_copied own.entry) id.now) }
{
    match id_named(weak, name.as_str()) {
        Some(_) => false,
        None => may_be_needed(own, id),
    }
}

/// Whether a package may be depended on: it is neither Julia nor the project's own.
fn may_be_needed(own: Option<&Uuid>, id: &Uuid) -> bool
    ensures { result ≡ spec.may_be_needed (option_copied own.entry) id.now }
{
    *id != julia_uuid() && is_other(own, id)
}

fn is_other(own: Option<&Uuid>, id: &Uuid) -> bool
    ensures { result ≡ is_other (option_copied own.entry) id.now }
{
    match own {
        Some(own) => *own != *id,
        None => true,
    }
}

/// Compat by identifiers, from that of a project file.
fn spec_compat(
    alloc: Global,
    deps: &NameIds,
    weak: &NameIds,
    entries: &[(Name, SpecText)],
) -> Result<CompatIds, AllocError>
    ensures { IfOk result (λ ids. map allowing ids.items ≡ spec.spec_compat deps.now.items weak.now.items entries.now) }
{
    let mut ids = Listed::make(alloc);
    for (name, text) in entries {
        push_spec(alloc, &mut ids, compat_on(deps, weak, name), text)?;
    }
    Ok(ids)
}

/// Appends what a specifier allows, where it is on some package.
fn push_spec(
    alloc: Global,
    ids: &mut CompatIds,
    on: Option<Uuid>,
    text: &SpecText,
) -> Result<(), AllocError>
    ensures { OnOk result (map allowing ids.new.items ≡ map allowing ids.old.items ++ option_to_list (option_map (λ id. (id, of_parts text.now.parts)) on)) }
{
    if let Some(id) = on {
        ids.push((id, Allowed::Spec(text.spec().copy(alloc)?)))?;
    }
    Ok(())
}
