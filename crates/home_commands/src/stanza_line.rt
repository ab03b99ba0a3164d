//! The lines of `status`.
ghost use Rattle.std.specs.Prelude.{◌≡◌, ◌++◌, ◌∷◌, [], codes, map, option_map, IfOk, OnOk, string_bytes};
ghost use Rattle.std.specs.List.{flat_map};
ghost use Rattle.std.specs.Option.{option_copied};
ghost use Rattle.pkg_world.specs.Path.{path_text};
ghost use Rattle.manifest_file.specs.Said.{said_stanza};
ghost use Rattle.home_commands.specs.StanzaPlaces.{place_in, stanza_at};
ghost use Rattle.home_commands.specs.StatusDue as spec;

use crate::stanza_places::{Places, places_of, stanza_with};
use command_answers::plain_uuid;
use jl_versions::Version;
use manifest_file::{Origin, Stanza};
use pkg_world::{Name, NormPath};
use std::alloc::{AllocError, Global};
use uuid::Uuid;

/// Appends the lines of all stanzas.
pub(crate) fn push_stanzas(
    alloc: Global,
    text: &mut String,
    stanzas: &[Stanza],
) -> Result<(), AllocError>
    ensures { OnOk result (string_bytes text.new ≡ string_bytes text.old ++ flat_map spec.stanza_line (map said_stanza stanzas.now)) }
{
    for stanza in stanzas {
        let rest = stanza_text(alloc, stanza)?;
        push_package(alloc, text, &stanza.name, &stanza.uuid, rest.as_str())?;
    }
    Ok(())
}

/// Appends the lines of dependencies, each with what its identifier's stanza says.
pub(crate) fn push_deps(
    alloc: Global,
    text: &mut String,
    deps: &[(Name, Uuid)],
    stanzas: &[Stanza],
) -> Result<(), AllocError>
    ensures { OnOk result (string_bytes text.new ≡ string_bytes text.old ++ flat_map (spec.dep_line (map said_stanza stanzas.now)) deps.now) }
{
    let places = places_of(alloc, stanzas)?;
    for (name, uuid) in deps {
        push_dep(alloc, text, name, uuid, stanzas, &places)?;
    }
    Ok(())
}

/// Appends the line of a dependency, whose stanza is the one at its identifier's place.
fn push_dep(
    alloc: Global,
    text: &mut String,
    name: &Name,
    uuid: &Uuid,
    stanzas: &[Stanza],
    places: &Places,
) -> Result<(), AllocError>
    ensures { OnOk result (string_bytes text.new ≡ string_bytes text.old ++ spec.package_line name.now uuid.now (spec.found_text (stanza_at stanzas.now (place_in places.now uuid.now)))) }
{
    let rest = found_text(alloc, stanza_with(places, uuid, stanzas))?;
    push_package(alloc, text, name, uuid, rest.as_str())
}

/// Appends the lines of packed registries.
pub(crate) fn push_packed(text: &mut String, paths: &[NormPath]) -> Result<(), AllocError>
    ensures { OnOk result (string_bytes text.new ≡ string_bytes text.old ++ flat_map spec.packed_line paths.now) }
{
    for path in paths {
        push_path(text, "packed ", path)?;
    }
    Ok(())
}

/// Appends a word and a path as a line.
pub(crate) fn push_path(text: &mut String, word: &str, path: &NormPath) -> Result<(), AllocError>
    ensures { OnOk result (string_bytes text.new ≡ string_bytes text.old ++ (word.now ++ (path_text path.now ++ 10 ∷ []))) }
{
    text.push_str(word)?;
    text.push_str(path.as_str())?;
    text.push('\n')?;
    Ok(())
}

fn push_package(
    alloc: Global,
    text: &mut String,
    name: &Name,
    uuid: &Uuid,
    rest: &str,
) -> Result<(), AllocError>
    ensures { OnOk result (string_bytes text.new ≡ string_bytes text.old ++ spec.package_line name.now uuid.now rest.now) }
{
    let line = package_line(alloc, name.as_str(), uuid, rest)?;
    text.push_str(line.as_str())?;
    Ok(())
}

fn package_line(alloc: Global, name: &str, uuid: &Uuid, rest: &str) -> Result<String, AllocError>
    ensures { IfOk result (λ line. string_bytes line ≡ spec.package_line name.now uuid.now rest.now) }
{
    let uuid = plain_uuid(alloc, uuid)?;
    line_of(alloc, name, uuid.as_str(), rest)
}

fn line_of(alloc: Global, name: &str, uuid: &str, rest: &str) -> Result<String, AllocError>
    ensures { IfOk result (λ line. string_bytes line ≡ name.now ++ (codes " " ++ (uuid.now ++ (codes " " ++ (rest.now ++ 10 ∷ []))))) }
{
    format!(in alloc; "{name} {uuid} {rest}\n")
}

/// What the stanza of a dependency says; it may be missing.
fn found_text(alloc: Global, stanza: Option<&Stanza>) -> Result<String, AllocError>
    ensures { IfOk result (λ text. string_bytes text ≡ spec.found_text (option_map said_stanza (option_copied stanza.entry))) }
{
    match stanza {
        Some(stanza) => stanza_text(alloc, stanza),
        None => String::from_str(alloc, "- missing"),
    }
}

/// What a stanza says behind its name and identifier.
fn stanza_text(alloc: Global, stanza: &Stanza) -> Result<String, AllocError>
    ensures { IfOk result (λ text. string_bytes text ≡ spec.stanza_text (said_stanza stanza.now)) }
{
    let version = version_text(alloc, &stanza.version)?;
    let origin = origin_text(alloc, &stanza.origin)?;
    let pin = pin_text(stanza.pinned);
    three_texts(alloc, version.as_str(), origin.as_str(), pin)
}

fn three_texts(alloc: Global, version: &str, origin: &str, pin: &str) -> Result<String, AllocError>
    ensures { IfOk result (λ text. string_bytes text ≡ version.now ++ (codes " " ++ (origin.now ++ pin.now))) }
{
    format!(in alloc; "{version} {origin}{pin}")
}

fn version_text(alloc: Global, version: &Option<Version>) -> Result<String, AllocError>
    ensures { IfOk result (λ text. string_bytes text ≡ spec.version_text version.now) }
{
    match version {
        Some(version) => {
            let text = version.print(alloc)?;
            String::from_str(alloc, text.as_str())
        }
        None => String::from_str(alloc, "-"),
    }
}

/// From where a package comes.
fn origin_text(alloc: Global, origin: &Origin) -> Result<String, AllocError>
    ensures { IfOk result (λ text. string_bytes text ≡ spec.origin_text origin.now) }
{
    match origin {
        Origin::Tree(_) => String::from_str(alloc, "registered"),
        Origin::Path(path) => after_word(alloc, "path ", path.as_str()),
        Origin::Repo { url, .. } => after_word(alloc, "repo ", url.as_str()),
        Origin::Std => String::from_str(alloc, "std"),
    }
}

fn after_word(alloc: Global, word: &str, text: &str) -> Result<String, AllocError>
    ensures { IfOk result (λ both. string_bytes both ≡ word.now ++ text.now) }
{
    format!(in alloc; "{word}{text}")
}

fn pin_text(pinned: bool) -> &'static str
    ensures { result.now ≡ spec.pin_text pinned }
{
    if pinned { " pinned" } else { "" }
}
