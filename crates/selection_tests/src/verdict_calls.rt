//! Verdicts on the selections of a manifest, and which package of a good one can be raised.
ghost use Rattle.std.specs.Prelude.{◌≡◌, ◌<◌, ◌^◌, ℕ, IsTrue, length};
ghost use Rattle.offer_terms.specs.Booked.{package_at};
ghost use Rattle.selection_check.specs.Raises.{HasFewOffers};
ghost use Rattle.selection_check.specs.Scratch.{IsScratchFor};

use jl_versions::Version;
use offer_terms::{Book, Demand, Selection, VersionPair};
use offer_tests::worlds::{Lost, REGISTRY, World, book_of, demand_of, selection_of, world_in};
use pkg_world::{Ids, MemStore, Store};
use selection_check::{Scratch, Verdict, check, raisable};
use std::alloc::{AllocError, Global};
use std::test::Fail;
use store_tests::files::{at, filled};
use uuid::Uuid;

const A1: &str =
    "[[deps.A]]\nuuid = \"00000000-0000-4000-8000-000000000003\"\nversion = \"1.0.0\"\ngit-tree-sha1 = \"0000000000000000000000000000000000000031\"\n";

const A2: &str =
    "[[deps.A]]\nuuid = \"00000000-0000-4000-8000-000000000003\"\nversion = \"2.0.0\"\ngit-tree-sha1 = \"0000000000000000000000000000000000000032\"\n";

const A3: &str =
    "[[deps.A]]\nuuid = \"00000000-0000-4000-8000-000000000003\"\nversion = \"3.0.0\"\ngit-tree-sha1 = \"0000000000000000000000000000000000000033\"\n";

const B1: &str =
    "[[deps.B]]\nuuid = \"00000000-0000-4000-8000-000000000004\"\nversion = \"1.0.0\"\ngit-tree-sha1 = \"0000000000000000000000000000000000000041\"\n";

const C1: &str =
    "[[deps.C]]\nuuid = \"00000000-0000-4000-8000-000000000005\"\nversion = \"1.0.0\"\ngit-tree-sha1 = \"0000000000000000000000000000000000000051\"\n";

const C2: &str =
    "[[deps.C]]\nuuid = \"00000000-0000-4000-8000-000000000005\"\nversion = \"2.0.0\"\ngit-tree-sha1 = \"0000000000000000000000000000000000000052\"\n";

const D1: &str =
    "[[deps.D]]\nuuid = \"00000000-0000-4000-8000-000000000006\"\nversion = \"1.0.0\"\ngit-tree-sha1 = \"0000000000000000000000000000000000000061\"\n";

const A1_PINNED: &str =
    "[[deps.A]]\nuuid = \"00000000-0000-4000-8000-000000000003\"\nversion = \"1.0.0\"\ngit-tree-sha1 = \"0000000000000000000000000000000000000031\"\npinned = true\n";

const NIX: &str =
    "[[deps.Nix]]\nuuid = \"00000000-0000-4000-8000-000000000008\"\nversion = \"1.0.0\"\ngit-tree-sha1 = \"0000000000000000000000000000000000000081\"\n";

const B1_PINNED: &str =
    "[[deps.B]]\nuuid = \"00000000-0000-4000-8000-000000000004\"\nversion = \"1.0.0\"\ngit-tree-sha1 = \"0000000000000000000000000000000000000041\"\npinned = true\n";

/// A project that needs A and B.
const A_AND_B: &str =
    "[deps]\nA = \"00000000-0000-4000-8000-000000000003\"\nB = \"00000000-0000-4000-8000-000000000004\"\n";

/// A project that needs A and B, and allows A's first version alone.
const OLD_A: &str =
    "[deps]\nA = \"00000000-0000-4000-8000-000000000003\"\nB = \"00000000-0000-4000-8000-000000000004\"\n[compat]\nA = \"1\"\n";

/// The project's file, the stanzas of its manifest, and the verdict, with the raise where it is good.
const ROWS: &[(&str, &[&str], &str)] = &[
    (A_AND_B, &[A2, B1, C2], "Good none"),
    (A_AND_B, &[A1, B1, C1], "Good 1 1"),
    (A_AND_B, &[B1, C2], "MissingRoot 3"),
    (A_AND_B, &[A3, B1, C2], "NoOffer 3"),
    (A_AND_B, &[A1, B1], "MissingDep 3 5"),
    (A_AND_B, &[A2, B1, C1], "Outside 3 5"),
    (A_AND_B, &[A1, B1, C1, D1], "Unneeded 6"),
    (A_AND_B, &[A1_PINNED, B1, C1], "Good 1 1"),
    (A_AND_B, &[A1, B1_PINNED, C1], "Good 2 1"),
    (OLD_A, &[A2, B1, C2], "Outside - 3"),
    (A_AND_B, &[A1, B1, C1, NIX], "NoOffer 8"),
    (A_AND_B, &[], "MissingRoot 3"),
];

/// How many offers the package has, where they are few.
fn has_few(book: &Book, package: u32) -> bool
    requires { «package» < length book.now }
    ensures { IsTrue result → length (package_at book.now «package»).offers < 2 ^ 32 }
{
    book.offers(package).len() <= u32::MAX as usize
}

/// Whether the places of offers are numbers of 32 bits.
fn have_few(book: &Book) -> bool
    ensures { IsTrue result → HasFewOffers book.now }
{
    for package in 0..book.packages() {
        if !has_few(book, package) {
            return false;
        }
    }
    true
}

/// The number of the package that can be raised and the place of its offer.
fn raise_text(alloc: Global, raise: Option<(u32, u32)>) -> Result<String, AllocError> {
    match raise {
        Some((package, place)) => format!(in alloc; "Good {package} {place}"),
        None => format!(in alloc; "Good none"),
    }
}

fn verdict_text(alloc: Global, verdict: &Verdict) -> Result<String, AllocError> {
    match verdict {
        Verdict::Good => format!(in alloc; "Good"),
        Verdict::MissingRoot(uuid) => named(alloc, "MissingRoot", uuid),
        Verdict::NoOffer(uuid) => named(alloc, "NoOffer", uuid),
        Verdict::MissingDep(from, uuid) => pair(alloc, "MissingDep", from, uuid),
        Verdict::Outside(Some(from), uuid) => pair(alloc, "Outside", from, uuid),
        Verdict::Outside(None, uuid) => named(alloc, "Outside -", uuid),
        Verdict::PinBroken(uuid) => named(alloc, "PinBroken", uuid),
        Verdict::Unneeded(uuid) => named(alloc, "Unneeded", uuid),
    }
}

fn named(alloc: Global, word: &str, uuid: &Uuid) -> Result<String, AllocError> {
    let byte = uuid.as_bytes()[15];
    format!(in alloc; "{word} {byte}")
}

fn pair(alloc: Global, word: &str, from: &Uuid, uuid: &Uuid) -> Result<String, AllocError> {
    let from = from.as_bytes()[15];
    let byte = uuid.as_bytes()[15];
    format!(in alloc; "{word} {from} {byte}")
}

/// The verdict, with the raise where it is good.
fn told(
    alloc: Global,
    book: &Book,
    demand: &Demand,
    selection: &Selection,
    scratch: &mut Scratch,
) -> Result<String, AllocError>
    requires { IsScratchFor book.now scratch.old }
{
    match check(book, demand, selection, scratch) {
        Verdict::Good => {
            if have_few(book) {
                raise_text(alloc, raisable(book, demand, selection, scratch))
            } else {
                format!(in alloc; "many")
            }
        }
        verdict => verdict_text(alloc, &verdict),
    }
}

fn told_of(
    alloc: Global,
    book: &Book,
    demand: &Demand,
    selection: &Selection,
) -> Result<String, AllocError> {
    let mut scratch = Scratch::make(alloc, book)?;
    told(alloc, book, demand, selection, &mut scratch)
}

/// The selected packages.
fn extra_of(alloc: Global, selection: &Selection) -> Result<Ids, AllocError> {
    let mut ids = Ids::make(alloc);
    for (uuid, _) in selection.items() {
        ids.push(*uuid)?;
    }
    Ok(ids)
}

fn manifest_text(alloc: Global, stanzas: &[&str]) -> Result<String, AllocError> {
    let mut text = String::from_str(alloc, "manifest_format = \"2.0\"\n")?;
    for stanza in stanzas {
        text.push_str(stanza)?;
    }
    Ok(text)
}

/// A registry, a project and its manifest.
fn store_of(alloc: Global, project: &str, stanzas: &[&str]) -> Result<MemStore, Lost> {
    let manifest = manifest_text(alloc, stanzas)?;
    let mut store = filled(alloc, REGISTRY)?;
    let _ = store.replace(alloc, &at(alloc, "/p/Project.toml")?, project.as_bytes());
    let _ = store.replace(alloc, &at(alloc, "/p/Manifest.toml")?, manifest.as_bytes());
    Ok(store)
}

/// What is told of the selection of a world's manifest for a demand.
fn told_in(
    alloc: Global,
    store: &mut MemStore,
    world: &World,
    demand: &Demand,
) -> Result<String, Lost> {
    let selection = selection_of(alloc, world)?;
    let extra = extra_of(alloc, &selection)?;
    let book = book_of(alloc, store, &world.catalog, demand, &extra)?;
    Ok(told_of(alloc, &book, demand, &selection)?)
}

fn verdict_on(alloc: Global, project: &str, stanzas: &[&str]) -> Result<String, Lost> {
    let mut store = store_of(alloc, project, stanzas)?;
    let world = world_in(alloc, &mut store)?;
    let demand = demand_of(alloc, &world)?;
    told_in(alloc, &mut store, &world, &demand)
}

#[test]
fn a_selection_has_its_verdict(rt: HostRuntime) -> Result<(), Fail> {
    for (project, stanzas, want) in ROWS {
        let text = verdict_on(rt.alloc(), project, stanzas)?;
        assert_eq!(rt; text.as_str(), *want);
    }
    Ok(())
}

/// The demand of a world, in which A is pinned to its first version.
fn with_pin(alloc: Global, world: &World) -> Result<Demand, AllocError> {
    let mut demand = demand_of(alloc, world)?;
    demand.pins.push(VersionPair {
        uuid: Uuid::from_u128(0x4000_8000_0000_0000_0003),
        version: Version::of(alloc, [1, 0, 0]),
    })?;
    Ok(demand)
}

fn verdict_with_pin(alloc: Global, stanzas: &[&str]) -> Result<String, Lost> {
    let mut store = store_of(alloc, A_AND_B, stanzas)?;
    let world = world_in(alloc, &mut store)?;
    let demand = with_pin(alloc, &world)?;
    told_in(alloc, &mut store, &world, &demand)
}

#[test]
fn a_pin_can_be_broken(rt: HostRuntime) -> Result<(), Fail> {
    let text = verdict_with_pin(rt.alloc(), &[A2, B1, C2])?;
    assert_eq!(rt; text.as_str(), "PinBroken 3");
    Ok(())
}
