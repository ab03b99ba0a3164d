//! The row of a version.
ghost use Rattle.std.specs.Prelude.{◌≡◌, ◌&&◌, ◌∷◌, ◌++◌, [], true, false, not, map, filter, IfOk, OnOk, IsTrue};
ghost use Rattle.package_tables.specs.Row as spec;

use crate::kept_ranges::KeptRanges;
use crate::name_ref::NameRef;
use crate::package_rows::{Entry, PackageRows, RangeEntry};
use compat_spec::Allowed;
use jl_versions::Version;
use pkg_world::{Duplicate, Listed, Name, NameIds, Named};
use std::alloc::{AllocError, Global};
use std::collections::BTreeMap;
use uuid::Uuid;

/// Names and what is allowed of each.
pub type CompatList = Listed<(Name, Allowed)>;

/// What a registry says of one version: its dependencies, its weak dependencies, and its compat.
#[derive(Drop)]
pub struct Row {
    pub deps: NameIds,
    pub weak: NameIds,
    pub compat: CompatList,
}

/// Names with something for each.
type NameMap<'a, T> = BTreeMap<NameRef<'a>, T>;

/// Names, each with the table of its entry, and the ranges there.
type SpotMap<'a> = BTreeMap<(NameRef<'a>, bool), KeptRanges>;

/// Julia's own identifier.
const JULIA: [u8; 16] = [
    0x12, 0x22, 0xc4, 0xb2, 0x21, 0x14, 0x5b, 0xfd, 0xae, 0xef, 0x88, 0xe4, 0x69, 0x2b, 0xbb, 0x3e,
];

/// The row of a version: what the sections whose ranges hold it say (Pkg, registries). Equal values count once. A name in
/// both kinds of dependency is weak, with the identifier of the weak ones; then a dependency on Julia is dropped. Compat
/// counts on `julia` and on the names of dependencies of either kind, and is ignored on any other name. Each list is in
/// the order of the names' bytes; where both compat tables have a name, both entries stand there, Compat's first.
///
/// The version is one of the listed ones. Tables that `rows` answers give a version no name with two values; where others
/// do, the last one counts. The one error is want of memory.
pub fn expand(alloc: Global, rows: &PackageRows, version: &Version) -> Result<Row, AllocError>
    ensures { IfOk result (spec.IsRow rows.now version.now) }
{
    let strong = held(alloc, rows.deps.items(), version)?;
    let weak = held(alloc, rows.weakdeps.items(), version)?;
    let compat = compat_of(alloc, rows, version, &strong, &weak)?;
    Ok(Row {
        deps: strong_ids(alloc, strong, &weak)?,
        weak: weak_ids(alloc, weak)?,
        compat,
    })
}

/// The names and values of the entries whose sections hold the version.
fn held<'a, T: Duplicate + Drop>(
    alloc: Global,
    entries: &'a [Entry<T>],
    version: &Version,
) -> Result<NameMap<'a, T>, AllocError>
    ensures { IfOk result (λ names. names.entries ≡ spec.by_name (spec.held version.now entries.now)) }
{
    let mut names = BTreeMap::new(alloc);
    for entry in entries {
        if entry.section.holds(version) {
            put(&mut names, &entry.name, entry.value.copy(alloc)?)?;
        }
    }
    Ok(names)
}

/// Puts a name; one that is there takes the value.
fn put<'a, T: Drop>(names: &mut NameMap<'a, T>, name: &'a Name, value: T) -> Result<(), AllocError>
    ensures { OnOk result (names.new.entries ≡ spec.put_to spec.by_bytes names.old.entries ((name.now, value) ∷ [])) }
{
    names.insert(NameRef::of(name), value)?;
    Ok(())
}

/// The dependencies that are neither weak nor Julia.
fn strong_ids<'a>(
    alloc: Global,
    mut strong: NameMap<'a, Uuid>,
    weak: &NameMap<'a, Uuid>,
) -> Result<NameIds, AllocError>
    ensures { IfOk result (λ ids. ids.items ≡ filter (λ p. spec.is_absent (spec.value_of p.0 weak.now.entries) && spec.is_package p.1) strong.entry.entries) }
{
    let mut ids = Listed::make(alloc);
    let _count = strong.len();
    while let Some((key, id)) = strong.pop_first() {
        if weak.get(&key).is_none() && is_package(&id) {
            ids.push((key.to_name(alloc)?, id))?;
        }
    }
    Ok(Named::of(ids))
}

/// The weak dependencies that aren't Julia.
fn weak_ids<'a>(alloc: Global, mut weak: NameMap<'a, Uuid>) -> Result<NameIds, AllocError>
    ensures { IfOk result (λ ids. ids.items ≡ filter (λ p. spec.is_package p.1) weak.entry.entries) }
{
    let mut ids = Listed::make(alloc);
    let _count = weak.len();
    while let Some((key, id)) = weak.pop_first() {
        if is_package(&id) {
            ids.push((key.to_name(alloc)?, id))?;
        }
    }
    Ok(Named::of(ids))
}

/// Whether an identifier is another than Julia's.
fn is_package(id: &Uuid) -> bool
    ensures { result ≡ spec.is_package id.now }
{
    *id != Uuid::from_bytes(JULIA)
}

/// The compat of the version, by names.
fn compat_of<'a>(
    alloc: Global,
    rows: &'a PackageRows,
    version: &Version,
    strong: &NameMap<'a, Uuid>,
    weak: &NameMap<'a, Uuid>,
) -> Result<CompatList, AllocError>
    ensures { IfOk result (λ list. map spec.allowed_in list.items ≡ map spec.some_ranges (map (λ p. (p.0.0, p.1)) (spec.put_to spec.by_spot [] (
        spec.counting strong.now.entries weak.now.entries version.now false rows.now.compat.items
        ++ spec.counting strong.now.entries weak.now.entries version.now true rows.now.weakcompat.items)))) }
{
    let mut spots = BTreeMap::new(alloc);
    let first = rows.compat.items();
    put_counting(alloc, &mut spots, first, version, false, strong, weak)?;
    let second = rows.weakcompat.items();
    put_counting(alloc, &mut spots, second, version, true, strong, weak)?;
    listed(alloc, spots)
}

/// Puts the entries that count for the version.
fn put_counting<'a>(
    alloc: Global,
    spots: &mut SpotMap<'a>,
    entries: &'a [RangeEntry],
    version: &Version,
    kind: bool,
    strong: &NameMap<'a, Uuid>,
    weak: &NameMap<'a, Uuid>,
) -> Result<(), AllocError>
    ensures { OnOk result (spots.new.entries ≡ spec.put_to spec.by_spot spots.old.entries (spec.counting strong.now.entries weak.now.entries version.now kind entries.now)) }
{
    for entry in entries {
        if entry.section.holds(version) {
            put_if_counting(alloc, spots, entry, kind, strong, weak)?;
        }
    }
    Ok(())
}

/// Puts an entry of the version, where compat on its name counts.
fn put_if_counting<'a>(
    alloc: Global,
    spots: &mut SpotMap<'a>,
    entry: &'a RangeEntry,
    kind: bool,
    strong: &NameMap<'a, Uuid>,
    weak: &NameMap<'a, Uuid>,
) -> Result<(), AllocError>
    ensures { OnOk result (spots.new.entries ≡ spec.put_to spec.by_spot spots.old.entries (map (spec.spotted kind) (filter (λ e. spec.counts strong.now.entries weak.now.entries e.name) (entry.now ∷ [])))) }
{
    let key = NameRef::of(&entry.name);
    if counts(&key, strong, weak) {
        let ranges = KeptRanges::copy_of(alloc, &entry.value)?;
        spots.insert((key, kind), ranges)?;
    }
    Ok(())
}

/// Whether compat on that name counts: it is `julia`, or the name of a dependency.
fn counts<'a>(key: &NameRef<'a>, strong: &NameMap<'a, Uuid>, weak: &NameMap<'a, Uuid>) -> bool
    ensures { result ≡ spec.counts strong.now.entries weak.now.entries key.now }
{
    key.as_str() == "julia" || is_dependency(key, strong, weak)
}

/// Whether a name is that of a dependency of either kind, and not Julia's.
fn is_dependency<'a>(
    key: &NameRef<'a>,
    strong: &NameMap<'a, Uuid>,
    weak: &NameMap<'a, Uuid>,
) -> bool
    ensures { result ≡ spec.is_some_package (spec.weak_or (spec.value_of key.now weak.now.entries) (spec.value_of key.now strong.now.entries)) }
{
    match weak.get(key) {
        Some(id) => is_package(id),
        None => match strong.get(key) {
            Some(id) => is_package(id),
            None => false,
        },
    }
}

/// The names and ranges of a map, in its order.
fn listed<'a>(alloc: Global, mut spots: SpotMap<'a>) -> Result<CompatList, AllocError>
    ensures { IfOk result (λ list. map spec.allowed_in list.items ≡ map spec.some_ranges (map (λ p. (p.0.0, p.1)) spots.entry.entries)) }
{
    let mut list = Listed::make(alloc);
    while let Some(((key, _), ranges)) = spots.pop_first() {
        list.push((key.to_name(alloc)?, Allowed::Ranges(ranges.into_set())))?;
    }
    Ok(list)
}
