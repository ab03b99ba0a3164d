//! Catalogs: which packages are fixed, what a manifest selects, and which identifiers a name has.
use crate::book_calls::{LIBRARY, SECOND};
use crate::shown::{fault_text, last_byte, origin_word};
use crate::worlds::{Lost, REGISTRY, World, selection_of, world_in};
use jl_versions::Version;
use offer_catalog::Catalog;
use offer_terms::{Fixed, Selection, julia_uuid};
use pkg_world::{MemStore, Name};
use std::alloc::{AllocError, Global};
use std::process::Abort;
use std::test::Fail;
use store_tests::files::{File, fill, filled};
use uuid::Uuid;

/// Folders of several versions.
const FOLDERS: &[File] = &[
    ("/c/Project.toml", "version = \"0.1.0\"\n"),
    ("/k/Project.toml", "version = \"0.2.0\"\n"),
    ("/m/Project.toml", "version = \"0.3.0\"\n"),
    ("/n/Project.toml", ""),
];

/// Two names of one package have a source.
const TWO_NAMES: &[File] = &[(
    "/p/Project.toml",
    "[deps]\nK = \"00000000-0000-4000-8000-000000000005\"\n[extras]\nC = \"00000000-0000-4000-8000-000000000005\"\n[sources]\nC = { path = \"../c\" }\nK = { path = \"../k\" }\n",
)];

/// A name with a source stands in all three lists, with three identifiers.
const TWO_LISTS: &[File] = &[(
    "/p/Project.toml",
    "[deps]\nC = \"00000000-0000-4000-8000-000000000007\"\n[weakdeps]\nC = \"00000000-0000-4000-8000-000000000006\"\n[extras]\nC = \"00000000-0000-4000-8000-000000000005\"\n[sources]\nC = { path = \"../c\" }\n",
)];

/// A name with a source is weak and an extra.
const WEAK_AND_EXTRA: &[File] = &[(
    "/p/Project.toml",
    "[weakdeps]\nC = \"00000000-0000-4000-8000-000000000006\"\n[extras]\nC = \"00000000-0000-4000-8000-000000000005\"\n[sources]\nC = { path = \"../c\" }\n",
)];

/// C has a source.
const SOURCE: &[File] = &[(
    "/p/Project.toml",
    "[deps]\nC = \"00000000-0000-4000-8000-000000000005\"\n[sources]\nC = { path = \"../c\" }\n",
)];

/// No name has a source with a path.
const NO_SOURCE: &[File] = &[(
    "/p/Project.toml",
    "[deps]\nC = \"00000000-0000-4000-8000-000000000005\"\n[sources]\nC = { url = \"https://example.org/C.jl\" }\n",
)];

/// Stanzas with a path, from a repository, and with a tree.
const STANZAS: &[File] = &[(
    "/p/Manifest.toml",
    "manifest_format = \"2.0\"\n[[deps.C]]\nuuid = \"00000000-0000-4000-8000-000000000005\"\npath = \"../m\"\nversion = \"7.0.0\"\n[[deps.D]]\nuuid = \"00000000-0000-4000-8000-000000000006\"\nversion = \"1.5.0\"\nrepo-url = \"https://example.org/D.jl\"\ngit-tree-sha1 = \"0000000000000000000000000000000000000069\"\n[[deps.A]]\nuuid = \"00000000-0000-4000-8000-000000000003\"\nversion = \"1.0.0\"\ngit-tree-sha1 = \"0000000000000000000000000000000000000031\"\n",
)];

/// A source rises above the root.
const ESCAPING_SOURCE: &[File] = &[(
    "/p/Project.toml",
    "[deps]\nC = \"00000000-0000-4000-8000-000000000005\"\n[sources]\nC = { path = \"../../c\" }\n",
)];

/// A stanza's path rises above the root.
const ESCAPING_STANZA: &[File] = &[(
    "/p/Manifest.toml",
    "manifest_format = \"2.0\"\n[[deps.C]]\nuuid = \"00000000-0000-4000-8000-000000000005\"\npath = \"../../m\"\n",
)];

/// Stanzas without a version: of a library, of a folder without one, of a tree, of Julia and of the project.
const BARE: &[File] = &[(
    "/p/Manifest.toml",
    "manifest_format = \"2.0\"\n[[deps.C]]\nuuid = \"00000000-0000-4000-8000-000000000005\"\n[[deps.D]]\nuuid = \"00000000-0000-4000-8000-000000000006\"\npath = \"../n\"\n[[deps.A]]\nuuid = \"00000000-0000-4000-8000-000000000003\"\ngit-tree-sha1 = \"0000000000000000000000000000000000000031\"\n[[deps.julia]]\nuuid = \"1222c4b2-2114-5bfd-aeef-88e4692bbb3e\"\nversion = \"1.11.2\"\n[[deps.B]]\nuuid = \"00000000-0000-4000-8000-000000000004\"\nversion = \"1.0.0\"\n[[deps.E]]\nuuid = \"00000000-0000-4000-8000-000000000007\"\npath = \"../c\"\n",
)];

/// A project that is B itself.
const OWN_B: &[File] = &[(
    "/p/Project.toml",
    "name = \"B\"\nuuid = \"00000000-0000-4000-8000-000000000004\"\n",
)];

/// The files besides the registry's and the folders', the fixed packages, and what the manifest selects.
const ROWS: &[(&[&[File]], &str, &str)] = &[
    (&[SOURCE], "C 5 0.1.0 path; ", ""),
    (
        &[SOURCE, STANZAS],
        "C 5 0.1.0 path; D 6 1.5.0 repo; ",
        "3 1.0.0; 5 7.0.0; 6 1.5.0; ",
    ),
    (
        &[NO_SOURCE, STANZAS],
        "C 5 0.3.0 path; D 6 1.5.0 repo; ",
        "3 1.0.0; 5 7.0.0; 6 1.5.0; ",
    ),
    (&[TWO_NAMES], "C 5 0.1.0 path; ", ""),
    (&[TWO_LISTS], "C 7 0.1.0 path; ", ""),
    (&[WEAK_AND_EXTRA], "C 6 0.1.0 path; ", ""),
    (
        &[OWN_B, LIBRARY, BARE],
        "D 6 0.0.0 path; E 7 0.1.0 path; ",
        "3 0.0.0; 5 1.11.2; 6 0.0.0; 7 0.1.0; ",
    ),
    (
        &[ESCAPING_SOURCE],
        "BadFile /p/Project.toml BadShape(Text { text: \"sources.C.path\" })",
        "",
    ),
    (
        &[NO_SOURCE, ESCAPING_STANZA],
        "BadFile /p/Manifest.toml BadShape(Text { text: \"deps.C.path\" })",
        "",
    ),
];

/// A's stanza has a tree.
const EXTENDED: &[File] = &[(
    "/p/Manifest.toml",
    "manifest_format = \"2.0\"\n[[deps.A]]\nuuid = \"00000000-0000-4000-8000-000000000003\"\ngit-tree-sha1 = \"0000000000000000000000000000000000000031\"\n",
)];

/// The identifiers of names: of a registry, of a registry, the library and a fixed package, and of none.
const NAMES: &[(&str, &str)] = &[
    ("A", "3 "),
    ("Aa", "3 "),
    ("C", "5 7 "),
    ("E", "7 "),
    ("Other", ""),
];

fn put_fixed(alloc: Global, text: &mut String, fixed: &Fixed) -> Result<(), AllocError> {
    text.push_str(fixed.name.as_str())?;
    let byte = last_byte(&fixed.uuid);
    text.push_str(format!(in alloc; " {byte} ")?.as_str())?;
    text.push_str(fixed.version.print(alloc)?.as_str())?;
    text.push_str(origin_word(&fixed.origin))?;
    text.push_str("; ")?;
    Ok(())
}

/// The fixed packages, in the order of their identifiers.
fn fixed_text(alloc: Global, catalog: &Catalog) -> Result<String, AllocError> {
    let mut text = String::new(alloc);
    for fixed in catalog.fixed().items() {
        put_fixed(alloc, &mut text, fixed)?;
    }
    Ok(text)
}

fn put_pair(alloc: Global, text: &mut String, pair: &(Uuid, Version)) -> Result<(), AllocError> {
    let byte = last_byte(&pair.0);
    text.push_str(format!(in alloc; "{byte} ")?.as_str())?;
    text.push_str(pair.1.print(alloc)?.as_str())?;
    text.push_str("; ")?;
    Ok(())
}

fn selection_text(alloc: Global, selection: &Selection) -> Result<String, AllocError> {
    let mut text = String::new(alloc);
    for pair in selection.items() {
        put_pair(alloc, &mut text, pair)?;
    }
    Ok(text)
}

/// The fixed packages and the selection.
fn texts_of(alloc: Global, world: &World) -> Result<(String, String), AllocError> {
    let selection = selection_of(alloc, world)?;
    let fixed = fixed_text(alloc, &world.catalog)?;
    Ok((fixed, selection_text(alloc, &selection)?))
}

/// A registry and the folders with these files besides.
fn store_of(alloc: Global, parts: &[&[File]]) -> Result<MemStore, Lost> {
    let mut store = filled(alloc, REGISTRY)?;
    fill(alloc, &mut store, FOLDERS)?;
    for part in parts {
        fill(alloc, &mut store, part)?;
    }
    Ok(store)
}

fn told(alloc: Global, parts: &[&[File]]) -> Result<(String, String), Lost> {
    let mut store = store_of(alloc, parts)?;
    match world_in(alloc, &mut store) {
        Ok(world) => Ok(texts_of(alloc, &world)?),
        Err(Lost::Book(fault)) => Ok((fault_text(alloc, &fault)?, String::new(alloc))),
        Err(lost) => Err(lost),
    }
}

#[test]
fn the_first_source_fixes_a_package(rt: HostRuntime) -> Result<(), Fail> {
    for (parts, fixed, selected) in ROWS {
        let text = told(rt.alloc(), parts)?;
        assert_eq!(rt; text.0.as_str(), *fixed);
        assert_eq!(rt; text.1.as_str(), *selected);
    }
    Ok(())
}

/// The names of the packages of the second registry, and the identifiers of a name.
fn named(alloc: Global, catalog: &Catalog, name: &str) -> Result<String, AllocError> {
    let mut text = String::new(alloc);
    let name = Name::of(alloc, name)?;
    for uuid in catalog.ids(alloc, &name)?.items() {
        let byte = last_byte(uuid);
        text.push_str(format!(in alloc; "{byte} ")?.as_str())?;
    }
    Ok(text)
}

fn full_world(alloc: Global) -> Result<World, Lost> {
    let mut store = store_of(alloc, &[SECOND, LIBRARY, TWO_LISTS, EXTENDED])?;
    world_in(alloc, &mut store)
}

fn names_have_their_identifiers(
    rt: &impl Abort,
    alloc: Global,
    catalog: &Catalog,
) -> Result<(), Fail> {
    for (name, want) in NAMES {
        assert_eq!(rt; named(alloc, catalog, name)?.as_str(), *want, "{name}");
    }
    Ok(())
}

/// Whether the catalog has the standard library C of Julia's version, and no other.
fn has_library(catalog: &Catalog) -> bool {
    let c = Uuid::from_u128(0x4000_8000_0000_0000_0005);
    match (catalog.library(&c), catalog.standard(&c)) {
        (Some(library), Some(version)) => {
            library.name().as_str() == "C"
                && library.uuid() == c
                && library.version().triple() == [1, 11, 2]
                && version.triple() == [1, 11, 2]
                && library.deps().items().len() == 1
                && library.weak().items().is_empty()
                && library.extensions().items().is_empty()
                && catalog.standard(&julia_uuid()).is_none()
        }
        _ => false,
    }
}

#[test]
fn a_catalog_tells_what_the_files_say(rt: HostRuntime) -> Result<(), Fail> {
    let world = full_world(rt.alloc())?;
    let catalog = &world.catalog;
    assert!(rt; has_library(catalog));
    assert_eq!(rt; catalog.registries().len(), 2);
    assert_eq!(rt; catalog.home().project.as_str(), "/p/Project.toml");
    assert!(rt;
        catalog
            .tree_extensions(&Uuid::from_u128(0x4000_8000_0000_0000_0003))
            .is_some()
    );
    names_have_their_identifiers(&rt, rt.alloc(), catalog)
}
