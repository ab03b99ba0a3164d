//! The manifest that is written.
ghost use Rattle.std.specs.Prelude.{◌≡◌, Bool, List, ℕ, map, IfOk, IsTrue, OnOk, ◌||◌};
ghost use Rattle.std.specs.List.{list_any};
ghost use Rattle.std.specs.Str.{bytes_eq};
ghost use Rattle.manifest_file.specs.Said.{said, said_stanza};
ghost use Rattle.manifest_file.specs.Steps.{has_id};
ghost use Rattle.manifest_file.specs.Written.{are_by_name};
ghost use Rattle.manifest_file.specs.ReadsBack.{StandOnce};
ghost use Rattle.offer_terms.specs.Demanded.{wanted};
ghost use Rattle.manifest_writing.specs.Writing as spec;
ghost use Rattle.manifest_writing.specs.Views.{keyed, found_said};

use crate::order::{InOrder, in_order};
use crate::stanza::push_stanza;
use jl_versions::Version;
use manifest_file::{Manifest, Stanzas};
use offer_terms::{Book, Demand, Selection, VersionPair};
use pkg_world::{ExtList, Listed};
use std::alloc::{AllocError, Global};
use std::collections::{BTreeMap, BTreeSet};
use uuid::Uuid;

/// The extensions that were found in the trees of selected packages, by the identifiers of the packages.
pub type FoundExtensions = BTreeMap<Uuid, ExtList>;

/// The manifest that says a selection (Pkg, Manifest.toml, format 2.0): Julia's version, and of each selected package that the
/// book offers at its version what is offered, in the order of names and identifiers. Each stanza has a version; those of
/// pinned packages are marked; a package in `found` has the extensions that stand there in place of its offer's. The caller's
/// selection is valid for the book and the demand, and then each of its packages is said. The one error is want of memory.
pub fn written(
    alloc: Global,
    book: &Book,
    demand: &Demand,
    selection: &Selection,
    found: &FoundExtensions,
) -> Result<Manifest, AllocError>
    ensures told { IfOk result (λ manifest. said manifest ≡ spec.written book.now (wanted demand.now) (found_said found.now.entries) selection.now.items) }
    ensures by_name { IfOk result (λ manifest. IsTrue (are_by_name (said manifest).stanzas)) }
    ensures once { IfOk result (λ manifest. StandOnce (said manifest).stanzas) }
{
    let pinned = pinned_ids(alloc, demand.pins.items())?;
    let packages = in_order(alloc, book, selection)?;
    let stanzas = stanzas_of(alloc, book, &pinned, found, packages)?;
    Ok(Manifest {
        julia_version: Some(Version::of(alloc, demand.julia)),
        stanzas,
    })
}

/// What is said of packages, in their order.
fn stanzas_of(
    alloc: Global,
    book: &Book,
    pinned: &BTreeSet<Uuid>,
    found: &FoundExtensions,
    packages: InOrder,
) -> Result<Stanzas, AllocError>
    ensures { IfOk result (λ stanzas. map said_stanza stanzas.items ≡ spec.stanzas_of book.now (has_id pinned.now) (found_said found.now.entries) (keyed packages.entries)) }
{
    let mut stanzas = Listed::make(alloc);
    let mut left = packages;
    'packages: while let Some(entry) = left.pop_first() {
        push_stanza(alloc, &mut stanzas, book, pinned, found, entry)?;
    }
    Ok(stanzas)
}

/// The identifiers of pinned packages.
fn pinned_ids(alloc: Global, pins: &[VersionPair]) -> Result<BTreeSet<Uuid>, AllocError>
    ensures { IfOk result (λ ids. (q : List ℕ) → has_id ids q ≡ list_any (λ pin. bytes_eq pin.uuid q) pins.now) }
{
    let mut ids = BTreeSet::new(alloc);
    for pin in pins {
        put_id(&mut ids, pin.uuid)?;
    }
    Ok(ids)
}

fn put_id(ids: &mut BTreeSet<Uuid>, id: Uuid) -> Result<(), AllocError>
    ensures { OnOk result ((q : List ℕ) → has_id ids.new q ≡ (bytes_eq id q || has_id ids.old q)) }
{
    ids.insert(id)?;
    Ok(())
}
