//! Worlds in memory for the tests: depots, standard libraries and a project, with its demand and its book.
use jl_versions::Version;
use manifest_file::{Manifest, Stanza};
use offer_book::gather;
use offer_catalog::{BookFault, Catalog};
use offer_terms::{
    Book, Demand, Fixed, FixedList, Selection, SpecId, SpecIds, VersionPair, VersionPairs,
};
use pkg_world::{Duplicate, Home, Ids, Listed, Name, PathFault, Place, Store};
use project_file::{Project, SpecList};
use project_places::{manifest_at, project_at};
use std::alloc::{AllocError, Global};
use store_tests::files::{File, at, paths};
use thiserror::Error;
use uuid::Uuid;

/// A registry whose A and B need C, with D besides: A's second version takes C's second alone, B's second C's first alone.
pub const REGISTRY: &[File] = &[
    (
        "/d/registries/R/Registry.toml",
        "name = \"R\"\nuuid = \"00000000-0000-4000-8000-000000000090\"\n[packages]\n00000000-0000-4000-8000-000000000003 = { name = \"A\", path = \"A\" }\n00000000-0000-4000-8000-000000000004 = { name = \"B\", path = \"B\" }\n00000000-0000-4000-8000-000000000005 = { name = \"C\", path = \"C\" }\n00000000-0000-4000-8000-000000000006 = { name = \"D\", path = \"D\" }\n",
    ),
    (
        "/d/registries/R/A/Package.toml",
        "name = \"A\"\nuuid = \"00000000-0000-4000-8000-000000000003\"\n",
    ),
    (
        "/d/registries/R/A/Versions.toml",
        "[\"1.0.0\"]\ngit-tree-sha1 = \"0000000000000000000000000000000000000031\"\n[\"2.0.0\"]\ngit-tree-sha1 = \"0000000000000000000000000000000000000032\"\n",
    ),
    (
        "/d/registries/R/A/Deps.toml",
        "[\"1-2\"]\nC = \"00000000-0000-4000-8000-000000000005\"\n",
    ),
    (
        "/d/registries/R/A/Compat.toml",
        "[\"1\"]\nC = \"1-2\"\n[\"2\"]\nC = \"2\"\n",
    ),
    (
        "/d/registries/R/B/Package.toml",
        "name = \"B\"\nuuid = \"00000000-0000-4000-8000-000000000004\"\n",
    ),
    (
        "/d/registries/R/B/Versions.toml",
        "[\"1.0.0\"]\ngit-tree-sha1 = \"0000000000000000000000000000000000000041\"\n[\"2.0.0\"]\ngit-tree-sha1 = \"0000000000000000000000000000000000000042\"\n",
    ),
    (
        "/d/registries/R/B/Deps.toml",
        "[\"1-2\"]\nC = \"00000000-0000-4000-8000-000000000005\"\n",
    ),
    (
        "/d/registries/R/B/Compat.toml",
        "[\"1\"]\nC = \"1-2\"\n[\"2\"]\nC = \"1\"\n",
    ),
    (
        "/d/registries/R/C/Package.toml",
        "name = \"C\"\nuuid = \"00000000-0000-4000-8000-000000000005\"\n",
    ),
    (
        "/d/registries/R/C/Versions.toml",
        "[\"1.0.0\"]\ngit-tree-sha1 = \"0000000000000000000000000000000000000051\"\n[\"2.0.0\"]\ngit-tree-sha1 = \"0000000000000000000000000000000000000052\"\n",
    ),
    (
        "/d/registries/R/D/Package.toml",
        "name = \"D\"\nuuid = \"00000000-0000-4000-8000-000000000006\"\n",
    ),
    (
        "/d/registries/R/D/Versions.toml",
        "[\"1.0.0\"]\ngit-tree-sha1 = \"0000000000000000000000000000000000000061\"\n",
    ),
];

/// Why a world has no book.
#[derive(Debug, Drop, Error)]
pub enum Lost {
    #[error("a path rises above the root")]
    Path,
    #[error("the project or its manifest is missing or refused")]
    Home,
    #[error("there is no catalog or no book")]
    Book(BookFault),
    #[error("no memory")]
    Memory,
}

impl From<AllocError> for Lost {
    fn from(_none: AllocError) -> Lost {
        Lost::Memory
    }
}

impl From<PathFault> for Lost {
    fn from(fault: PathFault) -> Lost {
        match fault {
            PathFault::Escapes => Lost::Path,
            PathFault::Memory => Lost::Memory,
        }
    }
}

/// A project with its manifest and its catalog.
#[derive(Drop)]
pub struct World {
    pub project: Project,
    pub manifest: Manifest,
    pub catalog: Catalog,
}

/// The depots `/d` and `/e`, and the standard libraries in `/s`, of Julia 1.11.2.
fn place(alloc: Global) -> Result<Place, Lost> {
    Ok(Place {
        cwd: at(alloc, "/p")?,
        depots: paths(alloc, &["/d", "/e"])?,
        load_path: None,
        project: None,
        stdlib: Some(at(alloc, "/s")?),
        julia: [1, 11, 2],
    })
}

/// The project in `/p`.
fn home(alloc: Global) -> Result<Home, Lost> {
    Ok(Home {
        project: at(alloc, "/p/Project.toml")?,
        manifest: at(alloc, "/p/Manifest.toml")?,
    })
}

fn project_of<S: Store>(alloc: Global, store: &mut S, home: &Home) -> Result<Project, Lost> {
    match project_at(alloc, store, &home.project) {
        Ok(Some(project)) => Ok(project),
        Ok(None) => Err(Lost::Home),
        Err(_) => Err(Lost::Home),
    }
}

fn manifest_of<S: Store>(alloc: Global, store: &mut S, home: &Home) -> Result<Manifest, Lost> {
    match manifest_at(alloc, store, &home.manifest) {
        Ok(manifest) => Ok(manifest),
        Err(_) => Err(Lost::Home),
    }
}

fn catalog_of<S: Store>(
    alloc: Global,
    store: &mut S,
    home: &Home,
    project: &Project,
    manifest: &Manifest,
) -> Result<Catalog, Lost> {
    let place = place(alloc)?;
    match Catalog::load(alloc, store, &place, home, project, manifest) {
        Ok(catalog) => Ok(catalog),
        Err(fault) => Err(Lost::Book(fault)),
    }
}

/// The world of the project in `/p`, whose file is there.
pub fn world_in<S: Store>(alloc: Global, store: &mut S) -> Result<World, Lost> {
    let home = home(alloc)?;
    let project = project_of(alloc, store, &home)?;
    let manifest = manifest_of(alloc, store, &home)?;
    let catalog = catalog_of(alloc, store, &home, &project, &manifest)?;
    Ok(World {
        project,
        manifest,
        catalog,
    })
}

/// What the project allows of the package of a name.
fn put_compat(
    alloc: Global,
    specs: &mut SpecIds,
    compat: &SpecList,
    name: &Name,
    uuid: Uuid,
) -> Result<(), AllocError> {
    for (key, text) in compat.items() {
        if key.as_str() == name.as_str() {
            let spec = text.spec().copy(alloc)?;
            specs.push(SpecId { uuid, spec })?;
        }
    }
    Ok(())
}

fn compat_of(alloc: Global, project: &Project) -> Result<SpecIds, AllocError> {
    let mut specs = Listed::make(alloc);
    for (name, uuid) in project.deps.items() {
        put_compat(alloc, &mut specs, &project.compat, name, *uuid)?;
    }
    Ok(specs)
}

fn put_pin(
    alloc: Global,
    pins: &mut VersionPairs,
    stanza: &Stanza,
    version: Option<&Version>,
) -> Result<(), AllocError> {
    match version {
        Some(version) => pins.push(VersionPair {
            uuid: stanza.uuid,
            version: version.copy(alloc)?,
        }),
        None => Ok(()),
    }
}

/// The versions that the manifest's pinned stanzas have in its selection.
fn pins_of(
    alloc: Global,
    manifest: &Manifest,
    selection: &Selection,
) -> Result<VersionPairs, AllocError> {
    let mut pins = Listed::make(alloc);
    for stanza in manifest.stanzas.items() {
        if stanza.pinned {
            put_pin(alloc, &mut pins, stanza, selection.version_of(&stanza.uuid))?;
        }
    }
    Ok(pins)
}

fn fixed_copy(alloc: Global, fixed: &Fixed) -> Result<Fixed, AllocError> {
    Ok(Fixed {
        uuid: fixed.uuid,
        name: fixed.name.copy(alloc)?,
        version: fixed.version.copy(alloc)?,
        deps: fixed.deps.copy(alloc)?,
        weak: fixed.weak.copy(alloc)?,
        compat: fixed.compat.copy(alloc)?,
        origin: fixed.origin.copy(alloc)?,
        extensions: fixed.extensions.copy(alloc)?,
    })
}

/// The first fixed package of a catalog, where there is one.
fn first_fixed(alloc: Global, catalog: &Catalog) -> Result<FixedList, AllocError> {
    let mut list = FixedList::make(alloc);
    if let Some(fixed) = catalog.fixed().items().first() {
        list.push(fixed_copy(alloc, fixed)?)?;
    }
    Ok(list)
}

/// The identifiers of the tests that end in these bytes.
pub fn ids(alloc: Global, bytes: &[u8]) -> Result<Ids, AllocError> {
    let mut ids = Ids::make(alloc);
    for byte in bytes {
        ids.push(Uuid::from_u128(0x4000_8000_0000_0000_0000 | *byte as u128))?;
    }
    Ok(ids)
}

/// The selection that the manifest says.
pub fn selection_of(alloc: Global, world: &World) -> Result<Selection, AllocError> {
    world
        .catalog
        .selection(alloc, &world.manifest, world.project.uuid)
}

/// The demand of the project, which has no weak dependencies among `deps`, with the first fixed package alone.
pub fn demand_of(alloc: Global, world: &World) -> Result<Demand, AllocError> {
    let selection = selection_of(alloc, world)?;
    Ok(Demand {
        roots: world.project.deps.copy(alloc)?,
        own: world.project.uuid,
        compat: compat_of(alloc, &world.project)?,
        pins: pins_of(alloc, &world.manifest, &selection)?,
        held: Listed::make(alloc),
        fixed: first_fixed(alloc, &world.catalog)?,
        julia: [1, 11, 2],
    })
}

/// The book of a demand.
pub fn book_of<S: Store>(
    alloc: Global,
    store: &mut S,
    catalog: &Catalog,
    demand: &Demand,
    extra: &Ids,
) -> Result<Book, Lost> {
    match gather(alloc, store, catalog, demand, extra) {
        Ok(book) => Ok(book),
        Err(fault) => Err(Lost::Book(fault)),
    }
}

/// The book of the project in `/p`.
pub fn book_in<S: Store>(alloc: Global, store: &mut S, extra: &Ids) -> Result<Book, Lost> {
    let world = world_in(alloc, store)?;
    let demand = demand_of(alloc, &world)?;
    book_of(alloc, store, &world.catalog, &demand, extra)
}
