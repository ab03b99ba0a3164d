//! The selected packages in the order in which a manifest has them.
ghost use Rattle.std.specs.Prelude.{◌≡◌, ◌∷◌, [], IfOk, OnOk};
ghost use Rattle.package_tables.specs.Row.{put_to};
ghost use Rattle.manifest_writing.specs.Writing as spec;
ghost use Rattle.manifest_writing.specs.Views.{keyed};

use jl_versions::Version;
use offer_terms::{Book, Selection};
use std::alloc::{AllocError, Global};
use std::collections::BTreeMap;
use uuid::Uuid;

/// Versions by the names and identifiers of their packages.
pub type InOrder = BTreeMap<(String, Uuid), Version>;

/// The selected packages by their names and then by their identifiers. The one error is want of memory.
pub fn in_order(alloc: Global, book: &Book, selection: &Selection) -> Result<InOrder, AllocError>
    ensures { IfOk result (λ packages. keyed packages.entries ≡ spec.in_order book.now selection.now.items) }
{
    let pairs = selection.items();
    let mut packages = BTreeMap::new(alloc);
    for (uuid, version) in pairs {
        put(alloc, &mut packages, book, uuid, version)?;
    }
    Ok(packages)
}

fn put(
    alloc: Global,
    packages: &mut InOrder,
    book: &Book,
    uuid: &Uuid,
    version: &Version,
) -> Result<(), AllocError>
    ensures { OnOk result (keyed packages.new.entries ≡ put_to spec.by_key (keyed packages.old.entries) (spec.with_name book.now (uuid.now, version.now) ∷ [])) }
{
    let name = String::from_str(alloc, name_in(book, uuid))?;
    let version = version.copy(alloc)?;
    packages.insert((name, *uuid), version)?;
    Ok(())
}

/// The name that the book has for a package.
fn name_in<'a>(book: &'a Book, uuid: &Uuid) -> &'a str
    ensures { result.now ≡ spec.name_in book.now uuid.now }
{
    match book.number(uuid) {
        Some(package) => book.name(package).as_str(),
        None => "",
    }
}
