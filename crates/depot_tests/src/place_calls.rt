//! The place that the texts of an environment give, and the entry file that a project's environment has.
use env_maps::{Context, EnvFault, Id, ProjectEnv};
use pkg_top::{PlaceFault, Status, place_from};
use pkg_world::{MemStore, Name, NormPath, Place, Text};
use std::alloc::{AllocError, Global};
use std::test::Fail;
use store_tests::files::{File, at, filled};
use uuid::Uuid;

/// The texts of an environment: the current folder, the home folder, the depots, the standard libraries and Julia.
type Texts = (
    &'static str,
    Option<&'static str>,
    Option<&'static str>,
    Option<&'static str>,
    Option<&'static str>,
);

const PLACES: [(Texts, &str); 11] = [
    (
        ("/p", Some("/h"), Some("/d"), None, None),
        "/p depots /d stdlib - @v#.# /q 1.11.0",
    ),
    (
        ("/p/./x/..", Some("/h"), None, None, None),
        "/p depots /h/.julia stdlib - @v#.# /q 1.11.0",
    ),
    (
        ("p", None, None, Some("../s"), None),
        "/p depots stdlib /s @v#.# /q 1.11.0",
    ),
    (
        ("/p", None, Some(":d1::/d2:"), None, None),
        "/p depots /p/d1 /d2 stdlib - @v#.# /q 1.11.0",
    ),
    (("/..", None, Some("/d"), None, Some("1.")), "no path /.."),
    (("/p", Some("../.."), None, None, None), "no path ../.."),
    (
        ("/p", None, Some("/d:../..:/.."), None, None),
        "no path ../..",
    ),
    (("/p", None, None, Some("/../s"), None), "no path /../s"),
    (
        ("/p", None, None, None, Some("1.11.2")),
        "/p depots stdlib - @v#.# /q 1.11.2",
    ),
    (
        ("/p", None, None, None, Some("v1.12-rc1+2")),
        "/p depots stdlib - @v#.# /q 1.12.0",
    ),
    (("/p", None, None, None, Some("1.")), "no Julia 2"),
];

fn place_text(alloc: Global, place: &Place) -> Result<String, AllocError> {
    let mut text = String::from_str(alloc, place.cwd.as_str())?;
    text.push_str(" depots ")?;
    for depot in place.depots.items() {
        text.push_str(depot.as_str())?;
        text.push(' ')?;
    }
    let stdlib = match &place.stdlib {
        Some(path) => path.as_str(),
        None => "-",
    };
    let load_path = text_or_dash(&place.load_path);
    let project = text_or_dash(&place.project);
    let [major, minor, patch] = place.julia;
    format!(in alloc; "{text}stdlib {stdlib} {load_path} {project} {major}.{minor}.{patch}")
}

fn text_or_dash(text: &Option<Text>) -> &str {
    match text {
        Some(text) => text.as_str(),
        None => "-",
    }
}

fn placed(alloc: Global, texts: Texts) -> Result<String, AllocError> {
    let (cwd, home, depots, stdlib, julia) = texts;
    match place_from(
        alloc,
        cwd,
        home,
        depots,
        Some("@v#.#"),
        Some("/q"),
        stdlib,
        julia,
    ) {
        Ok(place) => place_text(alloc, &place),
        Err(PlaceFault::BadPath(text)) => format!(in alloc; "no path {text}"),
        Err(PlaceFault::BadJulia(at)) => format!(in alloc; "no Julia {at}"),
        Err(PlaceFault::Memory) => Err(AllocError),
    }
}

#[test]
fn texts_give_a_place_or_their_refusal(rt: HostRuntime) -> Result<(), Fail> {
    for (texts, want) in PLACES {
        let told = placed(rt.alloc(), texts)?;
        assert_eq!(rt; told.as_str(), want);
    }
    assert_eq!(rt; Status::Memory.code(), 15);
    Ok(())
}

/// A named environment that needs a standard library, and the folder of the standard libraries.
const LIBRARY: &[File] = &[
    (
        "/d/environments/v1.11/Project.toml",
        "[deps]\nDates = \"00000000-0000-4000-8000-000000000030\"\n",
    ),
    (
        "/d/environments/v1.11/Manifest.toml",
        "manifest_format = \"2.0\"\n[[deps.Dates]]\nuuid = \"00000000-0000-4000-8000-000000000030\"\n",
    ),
    (
        "/s/Dates/Project.toml",
        "name = \"Dates\"\nuuid = \"00000000-0000-4000-8000-000000000030\"\n",
    ),
    ("/s/Dates/src/Dates.jl", ""),
];

/// The identity of Dates.
fn dates(alloc: Global) -> Result<Id, AllocError> {
    Ok(Id {
        uuid: Some(Uuid::from_u128(0x4000_8000_0000_0000_0030)),
        name: Name::of(alloc, "Dates")?,
    })
}

/// The entry file of an identity in the environment of a project file.
fn entry_in(
    alloc: Global,
    store: &mut MemStore,
    place: &Place,
    file: &NormPath,
    id: &Id,
) -> Result<Option<NormPath>, EnvFault> {
    let env = ProjectEnv::load(alloc, store, place, file)?;
    env.entry(alloc, store, &Context::Top, id)
}

/// The entry file of Dates in the named environment.
fn dates_entry(alloc: Global, store: &mut MemStore) -> Result<Option<NormPath>, Fail> {
    let file = at(alloc, "/d/environments/v1.11/Project.toml")?;
    let id = dates(alloc)?;
    let place = place_from(alloc, "/p", None, Some("/d"), None, None, Some("/s"), None)?;
    Ok(entry_in(alloc, store, &place, &file, &id)?)
}

/// An entry path as text.
fn entry_text(alloc: Global, entry: &Option<NormPath>) -> Result<String, AllocError> {
    match entry {
        Some(path) => String::from_str(alloc, path.as_str()),
        None => String::from_str(alloc, "none"),
    }
}

/// What is shown of the entry file of Dates over `LIBRARY`.
fn shown_over_library(alloc: Global) -> Result<String, Fail> {
    let mut store = filled(alloc, LIBRARY)?;
    let entry = dates_entry(alloc, &mut store)?;
    Ok(entry_text(alloc, &entry)?)
}

#[test]
fn a_standard_library_has_its_entry(rt: HostRuntime) -> Result<(), Fail> {
    let text = shown_over_library(rt.alloc())?;
    assert_eq!(rt; text.as_str(), "/s/Dates/src/Dates.jl");
    Ok(())
}
