//! Two sections that give one version different values of one name.
ghost use Rattle.std.specs.Prelude.{◌≡◌, ◌++◌, ◌∷◌, [], map, IfOk, OnOk, option_map, string_bytes};
ghost use Rattle.package_tables.specs.Clash as spec;

use crate::groups::{Group, groups};
use crate::package_rows::{Entry, VersionRow};
use crate::section_value::SectionValue;
use jl_versions::Version;
use pkg_world::{Cause, Duplicate, Text};
use std::alloc::{AllocError, Global};
use std::marker::Model;

/// Two entries that give a version different values.
#[derive(Drop)]
struct Pair<'a, T> {
    first: &'a Entry<T>,
    other: &'a Entry<T>,
}

impl<'a, T> Model for Pair<'a, T> {
    ghost use Rattle.package_tables.specs.declared.package_rows.Entry.{Entry};

    ghost Value = { Entry T × Entry T };

    ghost view = { λ pair. (pair.first.now, pair.other.now) };
}

/// A version, and two entries that give it different values.
#[derive(Drop)]
struct Clash<'a, T> {
    version: &'a Version,
    pair: Pair<'a, T>,
}

impl<'a, T> Model for Clash<'a, T> {
    ghost use Rattle.package_tables.specs.Clash.{Clashing};

    ghost Value = { Clashing T };

    ghost view = { λ clash. (clash.version.now, clash.pair.0, clash.pair.1) };
}

/// Why a table is refused whose sections clash for a listed version.
pub(crate) fn clash_in<T: SectionValue>(
    alloc: Global,
    versions: &[VersionRow],
    entries: &[Entry<T>],
) -> Result<Option<Cause>, AllocError>
    ensures { IfOk result (λ found. found ≡ option_map (spec.clash_cause T.text) (spec.clash_in T.same versions.now entries.now)) }
{
    let lists = groups(alloc, entries)?;
    match clash_among(versions, &lists) {
        Some(clash) => Ok(Some(cause_of(alloc, &clash)?)),
        None => Ok(None),
    }
}

/// The first listed version at which a name clashes.
fn clash_among<'a, T: SectionValue>(
    versions: &'a [VersionRow],
    lists: &[Group<'a, T>],
) -> Option<Clash<'a, T>>
    ensures { result ≡ spec.clash_among T.same versions.now lists.now }
{
    for row in versions {
        if let Some(pair) = clash_at(&row.version, lists) {
            return Some(Clash {
                version: &row.version,
                pair,
            });
        }
    }
    None
}

/// The least name that clashes at a version.
fn clash_at<'a, T: SectionValue>(version: &Version, lists: &[Group<'a, T>]) -> Option<Pair<'a, T>>
    ensures { result ≡ spec.clash_at T.same version.now lists.now }
{
    for group in lists {
        if let Some(pair) = differing(version, group.items()) {
            return Some(pair);
        }
    }
    None
}

/// Of the entries of a name the first that holds the version, and the first later one that differs.
fn differing<'a, T: SectionValue>(
    version: &Version,
    entries: &[&'a Entry<T>],
) -> Option<Pair<'a, T>>
    ensures { result ≡ spec.differing T.same version.now (map (λ e. e.now) entries.now) }
{
    let mut rest = entries;
    loop {
        let [first, more @ ..] = rest else {
            return None;
        };
        if first.section.holds(version) {
            return paired(first, other_value(version, first, more));
        }
        rest = more;
    }
}

fn paired<'a, T>(first: &'a Entry<T>, other: Option<&'a Entry<T>>) -> Option<Pair<'a, T>>
    ensures { result ≡ option_map (λ e. (first.now, e.now)) other.entry }
{
    match other {
        Some(other) => Some(Pair { first, other }),
        None => None,
    }
}

/// The first later entry that gives the version another value.
fn other_value<'a, T: SectionValue>(
    version: &Version,
    first: &Entry<T>,
    entries: &[&'a Entry<T>],
) -> Option<&'a Entry<T>>
    ensures { option_map (λ e. e.now) result ≡ spec.other_value T.same version.now first.now (map (λ e. e.now) entries.now) }
{
    for entry in entries {
        if entry.section.holds(version) && !first.value.is_same(&entry.value) {
            return Some(entry);
        }
    }
    None
}

fn cause_of<T: SectionValue>(alloc: Global, clash: &Clash<T>) -> Result<Cause, AllocError>
    ensures { IfOk result (λ cause. cause ≡ spec.clash_cause T.text clash.now) }
{
    let first = clash.pair.first;
    let version = clash.version.print(alloc)?;
    Ok(Cause::Clash(
        first.name.copy(alloc)?,
        Text::of(alloc, version.as_str())?,
        first.value.print(alloc)?,
        clash.pair.other.value.print(alloc)?,
    ))
}
