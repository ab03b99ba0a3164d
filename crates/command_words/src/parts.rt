//! What single words mean: names, packages, versions, paths and where an import is asked from.
ghost use Rattle.std.specs.Prelude.{◌≡◌, ◌==◌, ◌||◌, not, None, map, IfOk, option_map};
ghost use Rattle.std.specs.List.{list_all};
ghost use Rattle.std.specs.Option.{option_copied};
ghost use Rattle.jl_versions.specs.Meant.{version_meant};
ghost use Rattle.pkg_world.specs.Path.{joined};
ghost use Rattle.uuid.specs.Text.{parsed};
ghost use Rattle.command_words.specs.Parts as spec;

use env_maps::{Context, Id};
use jl_versions::{Version, VersionFault};
use pkg_world::{Listed, Name, Names, NormPath, PathFault};
use std::alloc::{AllocError, Global};
use toml_view::identifier;
use uuid::Uuid;

/// The name that a word is; None where it is none.
pub(crate) fn name_of(alloc: Global, word: &str) -> Result<Option<Name>, AllocError>
    ensures { IfOk result (λ name. name ≡ spec.name_of word.now) }
{
    if is_name(word) {
        return Ok(Some(Name::of(alloc, word)?));
    }
    Ok(None)
}

/// A name: not empty, and without slash, equals sign, at sign or space.
fn is_name(word: &str) -> bool
    ensures { result ≡ spec.is_name word.now }
{
    !word.is_empty() && has_name_bytes(word)
}

fn has_name_bytes(word: &str) -> bool
    ensures { result ≡ list_all (λ b. not (b == 47 || (b == 61 || (b == 64 || b == 32)))) word.now }
{
    word.as_bytes().iter().all(|b| !(*b == b'/' || (*b == b'=' || (*b == b'@' || *b == b' '))))
}

/// A name, and what stands behind it.
fn with_name<T: Drop>(
    alloc: Global,
    word: &str,
    more: Option<T>,
) -> Result<Option<(Name, Option<T>)>, AllocError>
    ensures { IfOk result (λ found. found ≡ option_map (λ name. (name, more)) (spec.name_of word.now)) }
{
    match name_of(alloc, word)? {
        Some(name) => Ok(Some((name, more))),
        None => Ok(None),
    }
}

/// A package: `NAME` or `NAME=UUID`.
#[tactic(auto, unfolding(crate::specs::Parts::package_of))]
pub(crate) fn package_of(
    alloc: Global,
    text: &str,
) -> Result<Option<(Name, Option<Uuid>)>, AllocError>
    ensures { IfOk result (λ found. found ≡ spec.package_of text.now) }
{
    match text.split_once('=') {
        Some((name, uuid)) => with_identifier(alloc, name, uuid),
        None => with_name(alloc, text, None),
    }
}

fn with_identifier(
    alloc: Global,
    name: &str,
    text: &str,
) -> Result<Option<(Name, Option<Uuid>)>, AllocError>
    ensures { IfOk result (λ found. found ≡ spec.name_and (parsed text.now) name.now) }
{
    match identifier(text) {
        Some(uuid) => with_name(alloc, name, Some(uuid)),
        None => Ok(None),
    }
}

/// What is pinned: `NAME` or `NAME@VERSION`.
#[tactic(auto, unfolding(crate::specs::Parts::pinned_of))]
pub(crate) fn pinned_of(
    alloc: Global,
    text: &str,
) -> Result<Option<(Name, Option<Version>)>, AllocError>
    ensures { IfOk result (λ found. found ≡ spec.pinned_of text.now) }
{
    match text.split_once('@') {
        Some((name, version)) => with_version(alloc, name, version),
        None => with_name(alloc, text, None),
    }
}

fn with_version(
    alloc: Global,
    name: &str,
    text: &str,
) -> Result<Option<(Name, Option<Version>)>, AllocError>
    ensures { IfOk result (λ found. found ≡ spec.name_and (spec.version_read (version_meant text.now)) name.now) }
{
    match version_of(alloc, text)? {
        Some(version) => with_name(alloc, name, Some(version)),
        None => Ok(None),
    }
}

/// The version that a text means (Julia manual, Version Number Literals); None where it means none.
fn version_of(alloc: Global, text: &str) -> Result<Option<Version>, AllocError>
    ensures { IfOk result (λ found. found ≡ spec.version_read (version_meant text.now)) }
{
    match Version::read(alloc, text) {
        Ok(version) => Ok(Some(version)),
        Err(VersionFault::BadVersion(_)) => Ok(None),
        Err(VersionFault::Memory) => Err(AllocError),
    }
}

/// From where an import is asked: the top level, a package, or an extension of a package whose identifier is given.
pub(crate) fn context_of(
    alloc: Global,
    from: Option<&str>,
    extension: Option<&str>,
) -> Result<Option<Context>, AllocError>
    ensures { IfOk result (λ context. context ≡ spec.context_of (option_copied from.entry) (option_copied extension.entry)) }
{
    let Some(text) = from else {
        return Ok(top_without(extension));
    };
    match package_of(alloc, text)? {
        Some((name, uuid)) => context_in(alloc, name, uuid, extension),
        None => Ok(None),
    }
}

fn top_without(extension: Option<&str>) -> Option<Context>
    ensures { result ≡ spec.context_of None (option_copied extension.entry) }
{
    match extension {
        Some(_) => None,
        None => Some(Context::Top),
    }
}

fn context_in(
    alloc: Global,
    name: Name,
    uuid: Option<Uuid>,
    extension: Option<&str>,
) -> Result<Option<Context>, AllocError>
    ensures { IfOk result (λ context. context ≡ spec.context_in (option_copied extension.entry) (name, uuid)) }
{
    match extension {
        Some(extension) => match uuid {
            Some(uuid) => Ok(Some(Context::Extension(uuid, name, Name::of(alloc, extension)?))),
            None => Ok(None),
        },
        None => Ok(Some(Context::Package(Id { uuid, name }))),
    }
}

/// The path that a text means from a folder; None where it rises above the root.
pub(crate) fn path_of(
    alloc: Global,
    cwd: &NormPath,
    text: &str,
) -> Result<Option<NormPath>, AllocError>
    ensures { IfOk result (λ path. path ≡ joined cwd.now text.now) }
{
    match NormPath::join(alloc, cwd, text) {
        Ok(path) => Ok(Some(path)),
        Err(PathFault::Escapes) => Ok(None),
        Err(PathFault::Memory) => Err(AllocError),
    }
}

/// A file that may be given; None where its path rises above the root.
pub(crate) fn file_of(
    alloc: Global,
    cwd: &NormPath,
    text: Option<&str>,
) -> Result<Option<Option<NormPath>>, AllocError>
    ensures { IfOk result (λ file. file ≡ spec.file_of cwd.now (option_copied text.entry)) }
{
    let Some(text) = text else {
        return Ok(Some(None));
    };
    match path_of(alloc, cwd, text)? {
        Some(path) => Ok(Some(Some(path))),
        None => Ok(None),
    }
}

/// The names that words are; None where one is none.
pub(crate) fn names_of(alloc: Global, words: &[&str]) -> Result<Option<Names>, AllocError>
    ensures { IfOk result (λ names. option_map (λ n. n.items) names ≡ spec.each spec.name_of (map (λ word. word.now) words.now)) }
{
    let mut names = Listed::make(alloc);
    for word in words {
        match name_of(alloc, word)? {
            Some(name) => names.push(name)?,
            None => return Ok(None),
        }
    }
    Ok(Some(names))
}

/// The packages that words are; None where one is none.
pub(crate) fn packages_of(
    alloc: Global,
    words: &[&str],
) -> Result<Option<Listed<(Name, Option<Uuid>)>>, AllocError>
    ensures { IfOk result (λ packages. option_map (λ p. p.items) packages ≡ spec.each spec.package_of (map (λ word. word.now) words.now)) }
{
    let mut packages = Listed::make(alloc);
    for word in words {
        match package_of(alloc, word)? {
            Some(found) => packages.push(found)?,
            None => return Ok(None),
        }
    }
    Ok(Some(packages))
}
