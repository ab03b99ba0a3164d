//! Books and faults as text.
ghost use Rattle.std.specs.Prelude.{◌<◌, length};

use manifest_file::Origin;
use offer_catalog::BookFault;
use offer_terms::{Book, Offer};
use pkg_world::{Name, NormPath};
use std::alloc::{AllocError, Global};
use uuid::Uuid;

/// The last byte of an identifier, which tells those of the tests apart; 62 is Julia's.
pub fn last_byte(uuid: &Uuid) -> u8 {
    uuid.as_bytes()[15]
}

fn put_marked(text: &mut String, mark: &str, name: &Name) -> Result<(), AllocError> {
    text.push_str(mark)?;
    text.push_str(name.as_str())?;
    Ok(())
}

fn put_named(text: &mut String, mark: &str, list: &[(Name, Uuid)]) -> Result<(), AllocError> {
    for (name, _) in list {
        put_marked(text, mark, name)?;
    }
    Ok(())
}

fn put_compat(alloc: Global, text: &mut String, offer: &Offer) -> Result<(), AllocError> {
    for (uuid, _) in offer.compat.items() {
        let byte = last_byte(uuid);
        text.push_str(format!(in alloc; " :{byte}")?.as_str())?;
    }
    Ok(())
}

fn put_extensions(text: &mut String, offer: &Offer) -> Result<(), AllocError> {
    for (name, _) in offer.extensions.items() {
        put_marked(text, " !", name)?;
    }
    Ok(())
}

/// Where an offer comes from, after a space.
pub fn origin_word(origin: &Origin) -> &'static str {
    match origin {
        Origin::Tree(_) => " tree",
        Origin::Path(_) => " path",
        Origin::Repo { .. } => " repo",
        Origin::Std => " std",
    }
}

fn put_offer(alloc: Global, text: &mut String, offer: &Offer) -> Result<(), AllocError> {
    text.push_str(" | ")?;
    text.push_str(offer.version.print(alloc)?.as_str())?;
    text.push_str(origin_word(&offer.origin))?;
    put_named(text, " +", offer.deps.items())?;
    put_named(text, " ~", offer.weak.items())?;
    put_compat(alloc, text, offer)?;
    put_extensions(text, offer)
}

fn put_package(
    alloc: Global,
    text: &mut String,
    book: &Book,
    package: u32,
) -> Result<(), AllocError>
    requires { «package» < length book.now }
{
    text.push_str(book.name(package).as_str())?;
    if !book.has_source(package) {
        text.push_str(" -")?;
    }
    for offer in book.offers(package) {
        put_offer(alloc, text, offer)?;
    }
    text.push_str("; ")?;
    Ok(())
}

/// A book's packages in the order of their numbers, each with its offers.
pub fn book_text(alloc: Global, book: &Book) -> Result<String, AllocError> {
    let mut text = String::new(alloc);
    for package in 0..book.packages() {
        put_package(alloc, &mut text, book, package)?;
    }
    Ok(text)
}

fn path_text(alloc: Global, word: &str, path: &NormPath) -> Result<String, AllocError> {
    let path = path.as_str();
    format!(in alloc; "{word} {path}")
}

/// A fault with the path or the identifier that it names.
pub fn fault_text(alloc: Global, fault: &BookFault) -> Result<String, AllocError> {
    match fault {
        BookFault::ReadFault(path) => path_text(alloc, "ReadFault", path),
        BookFault::MissingFile(path) => path_text(alloc, "MissingFile", path),
        BookFault::BadFile(path, cause) => format!(in alloc; "BadFile {path} {cause:?}"),
        BookFault::UnknownPackage(uuid) => {
            let byte = last_byte(uuid);
            format!(in alloc; "UnknownPackage {byte}")
        }
        BookFault::Limit(kind, count) => format!(in alloc; "Limit {kind:?} {count}"),
        BookFault::Memory => Err(AllocError),
    }
}
