//! The lines of a package that registries offer.
ghost use Rattle.std.specs.Prelude.{◌≡◌, ◌++◌, ◌∷◌, [], codes, map, IfOk, OnOk, string_bytes};
ghost use Rattle.std.specs.List.{flat_map};
ghost use Rattle.package_tables.specs.Row.{allowed_in, ranges_in};
ghost use Rattle.registered_offers.specs.Merged.{merged};
ghost use Rattle.offers_command.specs.OfferLines as spec;

use command_answers::plain_uuid;
use compat_spec::{Allowed, Range};
use jl_versions::Version;
use pkg_world::Name;
use registered_offers::{ListedVersion, ListedVersions, PackageTables, merged};
use registry_tables::{Row, VersionRow};
use std::alloc::{AllocError, Global};
use uuid::Uuid;

/// Appends the lines of a package, from the tables of the registries that list it. The one error is want of memory.
pub(crate) fn push_package(
    alloc: Global,
    text: &mut String,
    tables: &[PackageTables],
) -> Result<(), AllocError>
    ensures { OnOk result (string_bytes text.new ≡ string_bytes text.old ++ spec.package_lines tables.now) }
{
    match tables {
        [] => Ok(()),
        [first, ..] => push_listed(alloc, text, first, tables),
    }
}

/// Appends the name and the identifier of the first table's package, and the versions of all tables.
fn push_listed(
    alloc: Global,
    text: &mut String,
    first: &PackageTables,
    tables: &[PackageTables],
) -> Result<(), AllocError>
    ensures { OnOk result (string_bytes text.new ≡ string_bytes text.old ++ (spec.head_line first.now ++ spec.all_lines (merged tables.now))) }
{
    let head = id_line(alloc, "", first.name().as_str(), first.uuid())?;
    text.push_str(head.as_str())?;
    push_versions(alloc, text, merged(alloc, tables)?)
}

/// Appends the lines of all versions, in their order.
fn push_versions<'a>(
    alloc: Global,
    text: &mut String,
    mut versions: ListedVersions<'a>,
) -> Result<(), AllocError>
    ensures { OnOk result (string_bytes text.new ≡ string_bytes text.old ++ spec.all_lines versions.entry.entries) }
{
    'versions: while let Some((_, listed)) = versions.pop_first() {
        push_one(alloc, text, &listed)?;
    }
    Ok(())
}

fn push_one<'a>(
    alloc: Global,
    text: &mut String,
    listed: &ListedVersion<'a>,
) -> Result<(), AllocError>
    ensures { OnOk result (string_bytes text.new ≡ string_bytes text.old ++ spec.listed_lines listed.now) }
{
    let row = listed.row();
    push_version(alloc, text, row)?;
    push_row(alloc, text, listed.tables(), &row.version)
}

fn push_version(alloc: Global, text: &mut String, row: &VersionRow) -> Result<(), AllocError>
    ensures { OnOk result (string_bytes text.new ≡ string_bytes text.old ++ spec.version_line row.now) }
{
    let line = version_line(alloc, row)?;
    text.push_str(line.as_str())
}

/// `VERSION TREE`, and whether the version is yanked.
fn version_line(alloc: Global, row: &VersionRow) -> Result<String, AllocError>
    ensures { IfOk result (λ line. string_bytes line ≡ spec.version_line row.now) }
{
    let version = row.version.print(alloc)?;
    let tree = row.tree.text(alloc)?;
    version_words(
        alloc,
        version.as_str(),
        tree.as_str(),
        yanked_text(row.yanked),
    )
}

fn version_words(
    alloc: Global,
    version: &str,
    tree: &str,
    yanked: &str,
) -> Result<String, AllocError>
    ensures { IfOk result (λ line. string_bytes line ≡ version.now ++ (codes " " ++ (tree.now ++ (yanked.now ++ 10 ∷ [])))) }
{
    format!(in alloc; "{version} {tree}{yanked}\n")
}

fn yanked_text(yanked: bool) -> &'static str
    ensures { result.now ≡ spec.yanked_text yanked }
{
    if yanked { " yanked" } else { "" }
}

/// Appends what the row of a version says.
fn push_row(
    alloc: Global,
    text: &mut String,
    tables: &PackageTables,
    version: &Version,
) -> Result<(), AllocError>
    ensures { OnOk result (string_bytes text.new ≡ string_bytes text.old ++ spec.row_lines tables.now version.now) }
{
    let row = tables.row(alloc, version)?;
    push_made(alloc, text, &row)
}

fn push_made(alloc: Global, text: &mut String, row: &Row) -> Result<(), AllocError>
    ensures { OnOk result (string_bytes text.new ≡ string_bytes text.old ++ spec.made_lines row.now) }
{
    push_ids(alloc, text, "  dep ", row.deps.items())?;
    push_ids(alloc, text, "  weak ", row.weak.items())?;
    push_compat(alloc, text, row.compat.items())
}

fn push_ids(
    alloc: Global,
    text: &mut String,
    word: &str,
    ids: &[(Name, Uuid)],
) -> Result<(), AllocError>
    ensures { OnOk result (string_bytes text.new ≡ string_bytes text.old ++ flat_map (spec.id_line word.now) ids.now) }
{
    for (name, uuid) in ids {
        let line = id_line(alloc, word, name.as_str(), uuid)?;
        text.push_str(line.as_str())?;
    }
    Ok(())
}

/// A name and an identifier behind a word.
fn id_line(alloc: Global, word: &str, name: &str, uuid: &Uuid) -> Result<String, AllocError>
    ensures { IfOk result (λ line. string_bytes line ≡ spec.id_line word.now (name.now, uuid.now)) }
{
    let uuid = plain_uuid(alloc, uuid)?;
    id_words(alloc, word, name, uuid.as_str())
}

fn id_words(alloc: Global, word: &str, name: &str, uuid: &str) -> Result<String, AllocError>
    ensures { IfOk result (λ line. string_bytes line ≡ word.now ++ (name.now ++ (codes " " ++ (uuid.now ++ 10 ∷ [])))) }
{
    format!(in alloc; "{word}{name} {uuid}\n")
}

/// Appends what is allowed of each name.
fn push_compat(alloc: Global, text: &mut String, list: &[(Name, Allowed)]) -> Result<(), AllocError>
    ensures { OnOk result (string_bytes text.new ≡ string_bytes text.old ++ flat_map spec.entry_line (map allowed_in list.now)) }
{
    for (name, allowed) in list {
        push_allowed(alloc, text, name.as_str(), allowed)?;
    }
    Ok(())
}

fn push_allowed(
    alloc: Global,
    text: &mut String,
    name: &str,
    allowed: &Allowed,
) -> Result<(), AllocError>
    ensures { OnOk result (string_bytes text.new ≡ string_bytes text.old ++ spec.some_line name.now (ranges_in allowed.now)) }
{
    match allowed {
        Allowed::Ranges(set) => push_ranges(alloc, text, name, set.items()),
        Allowed::Spec(_) => Ok(()),
    }
}

fn push_ranges(
    alloc: Global,
    text: &mut String,
    name: &str,
    ranges: &[Range],
) -> Result<(), AllocError>
    ensures { OnOk result (string_bytes text.new ≡ string_bytes text.old ++ spec.compat_line (name.now, ranges.now)) }
{
    let line = compat_line(alloc, name, ranges)?;
    text.push_str(line.as_str())
}

fn compat_line(alloc: Global, name: &str, ranges: &[Range]) -> Result<String, AllocError>
    ensures { IfOk result (λ line. string_bytes line ≡ spec.compat_line (name.now, ranges.now)) }
{
    let ranges = ranges_text(alloc, ranges)?;
    compat_words(alloc, name, ranges.as_str())
}

fn compat_words(alloc: Global, name: &str, ranges: &str) -> Result<String, AllocError>
    ensures { IfOk result (λ line. string_bytes line ≡ codes "  compat " ++ (name.now ++ (codes " " ++ (ranges.now ++ 10 ∷ [])))) }
{
    format!(in alloc; "  compat {name} {ranges}\n")
}

/// The texts of ranges, joined by a comma and a space.
fn ranges_text(alloc: Global, ranges: &[Range]) -> Result<String, AllocError>
    ensures { IfOk result (λ text. string_bytes text ≡ spec.ranges_text ranges.now) }
{
    let [range, more @ ..] = ranges else {
        return String::from_str(alloc, "");
    };
    with_more(alloc, range.text(), more)
}

fn with_more(alloc: Global, first: &str, more: &[Range]) -> Result<String, AllocError>
    ensures { IfOk result (λ text. string_bytes text ≡ first.now ++ flat_map (λ r. codes ", " ++ r.text) more.now) }
{
    let mut text = String::from_str(alloc, first)?;
    for range in more {
        text.push_str(", ")?;
        text.push_str(range.text())?;
    }
    Ok(text)
}
