//! Which dependency is to be fetched.
ghost use Rattle.std.specs.Prelude.{◌≡◌, map, option_map};
ghost use Rattle.std.specs.Option.{option_copied};
ghost use Rattle.manifest_file.specs.Said.{said_stanza};
ghost use Rattle.pkg_commands.specs.Fetching as spec;

use manifest_file::{Origin, Stanza};
use package_names::value_named;
use pkg_world::{Name, NameIds};
use project_file::{Source, SourceList};
use uuid::Uuid;

/// The first dependency whose source is an address that no stanza of its identifier has fetched. Takes no memory.
///
/// Besides a look-up for each dependency, the stanzas are gone through for each whose source is an address, up to the one that
/// has fetched it.
pub(crate) fn unfetched<'a>(
    sources: &SourceList,
    deps: &'a NameIds,
    stanzas: &[Stanza],
) -> Option<&'a Name>
    ensures { option_copied result ≡ option_map (λ dep. dep.0) (spec.unfetched sources.now.items deps.now.items (map said_stanza stanzas.now)) }
{
    let sources = sources.items();
    let deps = deps.items();
    for dep in deps {
        if !is_fetched(value_named(sources, dep.0.as_str()), &dep.1, stanzas) {
            return Some(&dep.0);
        }
    }
    None
}

/// Whether the source of a package is no address, or one that a stanza of its identifier has fetched.
fn is_fetched(source: Option<&Source>, uuid: &Uuid, stanzas: &[Stanza]) -> bool
    ensures { result ≡ spec.is_fetched (map said_stanza stanzas.now) uuid.now (option_copied source.entry) }
{
    match source {
        None => true,
        Some(Source::Path(_)) => true,
        Some(Source::Url { url, rev, subdir }) => has_fetched(stanzas, uuid, url, rev, subdir),
    }
}

fn has_fetched(
    stanzas: &[Stanza],
    uuid: &Uuid,
    url: &Name,
    rev: &Option<Name>,
    subdir: &Option<Name>,
) -> bool
    ensures { result ≡ spec.has_fetched (map said_stanza stanzas.now) uuid.now url.now rev.now subdir.now }
{
    for stanza in stanzas {
        if stanza.uuid == *uuid && is_from(&stanza.origin, url, rev, subdir) {
            return true;
        }
    }
    false
}

/// Whether an origin is a repository at the address, with the revision and the folder where they are given.
fn is_from(origin: &Origin, url: &Name, rev: &Option<Name>, subdir: &Option<Name>) -> bool
    ensures { result ≡ spec.is_from url.now rev.now subdir.now origin.now }
{
    match origin {
        Origin::Repo {
            url: found_url,
            rev: found_rev,
            subdir: found_subdir,
            ..
        } => {
            found_url.as_str() == url.as_str()
                && is_met(rev, found_rev)
                && is_met(subdir, found_subdir)
        }
        Origin::Tree(_) => false,
        Origin::Path(_) => false,
        Origin::Std => false,
    }
}

/// Whether a text that is given is the one that was found.
fn is_met(given: &Option<Name>, found: &Option<Name>) -> bool
    ensures { result ≡ spec.is_met given.now found.now }
{
    match given {
        None => true,
        Some(given) => match found {
            None => false,
            Some(found) => given.as_str() == found.as_str(),
        },
    }
}
