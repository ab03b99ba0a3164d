//! What is selected of a package.
ghost use Rattle.std.specs.Prelude.{◌≡◌, ◌<◌, length, map, find, is_some, option_map, option_copied};
ghost use Rattle.jl_versions.specs.Order.{version_cmp};
ghost use Rattle.offer_terms.specs.Offered.{offering, allowing, version_in, is_of, taken};
ghost use Rattle.offer_terms.specs.Booked.{package_at, book_offers};
ghost use Rattle.offer_terms.specs.Kept.{DoRise};
ghost use Rattle.selection_check.specs.Found.{deps_in, compat_in};

use compat_spec::Allowed;
use jl_versions::Version;
use offer_terms::{Book, Offer, Selection};
use pkg_world::Name;
use std::cmp::Ordering;
use uuid::Uuid;

/// Whether the package is selected.
pub(crate) fn is_selected(selection: &Selection, uuid: &Uuid) -> bool
    ensures { result ≡ is_some (version_in selection.now.items uuid.now) }
{
    match selection.version_of(uuid) {
        Some(_) => true,
        None => false,
    }
}

/// The selected offer of a package, None where it isn't selected or not offered at its version. By binary search.
pub(crate) fn selected_offer<'a>(
    book: &'a Book,
    selection: &Selection,
    package: u32,
) -> Option<&'a Offer>
    requires { «package» < length book.now }
    ensures { option_map offering (option_copied result) ≡ taken (book_offers book.now) selection.now.items (package_at book.now «package»).uuid }
{
    // With the count comes that the book has each identifier once.
    let _count = book.packages();
    match selection.version_of(&book.uuid(package)) {
        Some(version) => offer_at(book.offers(package), version),
        None => None,
    }
}

/// What is offered at the version, by binary search.
pub(crate) fn offer_at<'a>(offers: &'a [Offer], version: &Version) -> Option<&'a Offer>
    requires { DoRise offers.now }
    ensures { option_map offering (option_copied result) ≡ find (is_of version.now) (map offering offers.now) }
{
    match offers.binary_search_by(|offer| against(offer, version)) {
        Ok(place) => Some(&offers[place]),
        Err(_) => None,
    }
}

fn against(offer: &Offer, version: &Version) -> Ordering
    ensures { result ≡ version_cmp offer.now.version version.now }
{
    offer.version.cmp(version)
}

/// What the selected offer of a package depends on, nothing where there is none.
pub(crate) fn deps_of<'a>(book: &'a Book, selection: &Selection, package: u32) -> &'a [(Name, Uuid)]
    requires { «package» < length book.now }
    ensures { result.now ≡ deps_in (taken (book_offers book.now) selection.now.items (package_at book.now «package»).uuid) }
{
    match selected_offer(book, selection, package) {
        Some(offer) => offer.deps.items(),
        None => &[],
    }
}

/// The compat of the selected offer of a package, nothing where there is none.
pub(crate) fn compat_of<'a>(
    book: &'a Book,
    selection: &Selection,
    package: u32,
) -> &'a [(Uuid, Allowed)]
    requires { «package» < length book.now }
    ensures { map allowing result.now ≡ compat_in (taken (book_offers book.now) selection.now.items (package_at book.now «package»).uuid) }
{
    match selected_offer(book, selection, package) {
        Some(offer) => offer.compat.items(),
        None => &[],
    }
}
