//! The stanza of a selected package.
ghost use Rattle.std.specs.Prelude.{◌≡◌, ◌++◌, Bool, List, map, find, option_map, option_copied, IfOk, OnOk};
ghost use Rattle.std.specs.Option.{option_to_list};
ghost use Rattle.manifest_file.specs.Said.{said_stanza};
ghost use Rattle.manifest_file.specs.Steps.{has_id};
ghost use Rattle.offer_terms.specs.Offered.{offering, is_of, offer_at};
ghost use Rattle.offer_terms.specs.Booked.{book_offers};
ghost use Rattle.manifest_writing.specs.Writing as spec;
ghost use Rattle.manifest_writing.specs.Views.{keyed_entry, found_said};

use crate::manifest::FoundExtensions;
use jl_versions::Version;
use manifest_file::{Stanza, Stanzas};
use offer_terms::{Book, Offer};
use pkg_world::{Duplicate, ExtList, Name};
use std::alloc::{AllocError, Global};
use std::collections::BTreeSet;
use uuid::Uuid;

/// Appends what is said of a package, where the book offers it at its version. The one error is want of memory.
pub(crate) fn push_stanza(
    alloc: Global,
    stanzas: &mut Stanzas,
    book: &Book,
    pinned: &BTreeSet<Uuid>,
    found: &FoundExtensions,
    entry: ((String, Uuid), Version),
) -> Result<(), AllocError>
    ensures { OnOk result (map said_stanza stanzas.new.items ≡ map said_stanza stanzas.old.items
        ++ option_to_list (spec.stanza_at book.now (has_id pinned.now) (found_said found.now.entries) (keyed_entry entry))) }
{
    let ((name, uuid), version) = entry;
    match offer_of(book, &uuid, &version) {
        Some(offer) => {
            let extensions = extensions_of(alloc, found, &uuid, offer)?;
            let name = Name::of(alloc, name.as_str())?;
            let is_pinned = pinned.contains(&uuid);
            stanzas.push(stanza_of(alloc, name, uuid, version, is_pinned, offer, extensions)?)?;
        }
        None => {}
    }
    Ok(())
}

/// The stanza of a package that is offered so.
fn stanza_of(
    alloc: Global,
    name: Name,
    uuid: Uuid,
    version: Version,
    pinned: bool,
    offer: &Offer,
    extensions: ExtList,
) -> Result<Stanza, AllocError>
    ensures { IfOk result (λ stanza. said_stanza stanza ≡ record {
      name = name;
      uuid = uuid;
      version = Some version;
      origin = offer.now.origin;
      pinned = pinned;
      deps = offer.now.deps.items;
      weakdeps = offer.now.weak.items;
      extensions = extensions.items;
    }) }
{
    Ok(Stanza {
        name,
        uuid,
        version: Some(version),
        origin: offer.origin.copy(alloc)?,
        pinned,
        deps: offer.deps.copy(alloc)?,
        weakdeps: offer.weak.copy(alloc)?,
        extensions,
    })
}

/// The extensions that were found in the package's tree, where one was looked at, else those of its offer.
fn extensions_of(
    alloc: Global,
    found: &FoundExtensions,
    uuid: &Uuid,
    offer: &Offer,
) -> Result<ExtList, AllocError>
    ensures { IfOk result (λ list. list.items ≡ spec.extensions_of (found_said found.now.entries) uuid.now (offering offer.now)) }
{
    match found.get(uuid) {
        Some(list) => list.copy(alloc),
        None => offer.extensions.copy(alloc),
    }
}

/// What the book offers of a package at a version.
pub fn offer_of<'a>(book: &'a Book, uuid: &Uuid, version: &Version) -> Option<&'a Offer>
    ensures { option_map offering (option_copied result) ≡ offer_at (book_offers book.now) uuid.now version.now }
{
    match book.number(uuid) {
        Some(package) => at_version(book.offers(package), version),
        None => None,
    }
}

fn at_version<'a>(offers: &'a [Offer], version: &Version) -> Option<&'a Offer>
    ensures { option_map offering (option_copied result) ≡ find (is_of version.now) (map offering offers.now) }
{
    for offer in offers {
        if version.cmp(&offer.version).is_eq() {
            return Some(offer);
        }
    }
    None
}
