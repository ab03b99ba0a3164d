//! Project files that are read and written again, with what no command prints of them.
ghost use Rattle.std.specs.Prelude.{◌≤◌, IsTrue};
ghost use Rattle.toml.specs.View.{table_view};
ghost use Rattle.toml_view.specs.Document.{nesting, nesting_limit};
ghost use Rattle.project_file.specs.Keys.{names_none};

use jl_versions::Version;
use pkg_world::{Bytes, Duplicate, Name, NameIds};
use project_file::{Project, Source, SpecText};
use std::alloc::Global;
use std::process::Abort;
use std::test::Fail;
use toml_view::print_table;

/// A project file as Pkg writes it, with each key once, and with keys that have no meaning here.
const FILE: &str = "authors = [\"Ada <ada@example.org>\"]\nname = \"Example\"\n\
    uuid = \"7876af07-990d-54b4-ab0e-23690620f79a\"\nversion = \"1.2.3-rc.1\"\nmanifest = \"shared/Manifest.toml\"\n\
    pi = 3.25\nsince = 2024-05-06\n\n\
    [deps]\nDates = \"ade2ca70-3891-5945-98fb-dc099432e06a\"\nJSON = \"682c06a0-de6a-54ab-a142-c8b1cf79cde6\"\n\n\
    [weakdeps]\nPlots = \"91a5bcdd-55d7-5caf-9e0b-520d859cae80\"\n\n\
    [sources]\nJSON = {path = \"dev/JSON\", url = \"https://example.org/unused\"}\n\
    Plots = {url = \"https://example.org/Plots.jl\", rev = \"main\", subdir = \"lib\", note = 5}\n\n\
    [extensions]\nBothExt = [\"Dates\", \"Plots\"]\nPlotsExt = \"Plots\"\n\n\
    [compat]\nJSON = \"0.21,  ^1\"\njulia = \"\u{2265} 1.10\"\n\n\
    [extras]\nTest = \"8dfed614-e22c-5e08-85e1-65c5234f0b40\"\n\n\
    [targets]\ntest = [\"Test\"]\n";

#[derive(Clone, Copy, Debug)]
enum What {
    Name,
    Manifest,
    Dependency,
    Extra,
    Compat,
    OneTrigger,
    LastTrigger,
    Path,
    Url,
    Rev,
    Subdir,
}

fn text_of(name: &Option<Name>) -> Option<&str> {
    match name {
        Some(name) => Some(name.as_str()),
        None => None,
    }
}

fn last_name(ids: &NameIds) -> Option<&str> {
    match ids.items().last() {
        Some((name, _)) => Some(name.as_str()),
        None => None,
    }
}

fn last_text(names: &[Name]) -> Option<&str> {
    match names.last() {
        Some(name) => Some(name.as_str()),
        None => None,
    }
}

fn trigger(project: &Project, at: usize) -> Option<&str> {
    match project.extensions.items().get(at) {
        Some((_, names)) => last_text(names.items()),
        None => None,
    }
}

fn part_of_source(project: &Project, what: What) -> Option<&str> {
    match (
        what,
        project.sources.items().first(),
        project.sources.items().last(),
    ) {
        (What::Path, Some((_, Source::Path(path))), _) => Some(path.as_str()),
        (What::Url, _, Some((_, Source::Url { url, .. }))) => Some(url.as_str()),
        (What::Rev, _, Some((_, Source::Url { rev, .. }))) => text_of(rev),
        (What::Subdir, _, Some((_, Source::Url { subdir, .. }))) => text_of(subdir),
        _ => None,
    }
}

fn shown(project: &Project, what: What) -> Option<&str> {
    match what {
        What::Name => text_of(&project.name),
        What::Manifest => text_of(&project.manifest),
        What::Dependency => last_name(&project.deps),
        What::Extra => last_name(&project.extras),
        What::Compat => match project.compat.items().first() {
            Some((_, it)) => Some(it.text()),
            None => None,
        },
        What::OneTrigger => trigger(project, 1),
        What::LastTrigger => trigger(project, 0),
        _ => part_of_source(project, what),
    }
}

const SHOWN: [(What, &str); 11] = [
    (What::Name, "Example"),
    (What::Manifest, "shared/Manifest.toml"),
    (What::Dependency, "JSON"),
    (What::Extra, "Test"),
    (What::Compat, "0.21,  ^1"),
    (What::OneTrigger, "Plots"),
    (What::LastTrigger, "Plots"),
    (What::Path, "dev/JSON"),
    (What::Url, "https://example.org/Plots.jl"),
    (What::Rev, "main"),
    (What::Subdir, "lib"),
];

/// How many of each there are: dependencies, weak ones, extensions, compatibility texts, extras, sources, other keys.
fn counts(project: &Project) -> [usize; 7] {
    [
        project.deps.items().len(),
        project.weakdeps.items().len(),
        project.extensions.items().len(),
        project.compat.items().len(),
        project.extras.items().len(),
        project.sources.items().len(),
        project.rest.len(),
    ]
}

/// The first and the last byte of the identifier, and the last number of the version.
fn numbers(project: &Project) -> [u32; 3] {
    match (&project.uuid, &project.version) {
        (Some(uuid), Some(version)) => [
            u32::from(uuid.as_bytes()[0]),
            u32::from(uuid.as_bytes()[15]),
            version.triple()[2],
        ],
        _ => [0, 0, 0],
    }
}

/// Compares what a project says with `FILE`.
fn is_that_file(rt: &impl Abort, project: &Project) {
    for (what, want) in SHOWN {
        assert_eq!(rt; shown(project, what), Some(want), "{what:?}");
    }
    assert_eq!(rt; counts(project), [2, 1, 2, 2, 1, 2, 4]);
    assert_eq!(rt; numbers(project), [0x78, 0x9A, 3]);
}

/// The bytes of a project's table.
fn written(alloc: Global, project: &Project) -> Result<Bytes, Fail>
    requires plain { IsTrue (names_none (table_view project.now.rest)) }
    requires nested { nesting (table_view project.now.rest) ≤ nesting_limit }
{
    let table = project.to_table(alloc)?;
    Ok(print_table(alloc, &table)?)
}

/// Reads bytes that say what `FILE` does, and gives those that are written again.
fn read_and_written(rt: &impl Abort, alloc: Global, bytes: &[u8]) -> Result<Bytes, Fail> {
    let project = Project::read(alloc, bytes)?;
    is_that_file(rt, &project);
    written(alloc, &project)
}

#[test]
fn a_file_as_pkg_writes_it_is_read_and_written(rt: HostRuntime) -> Result<(), Fail> {
    let bytes = read_and_written(&rt, rt.alloc(), FILE.as_bytes())?;
    let _ = read_and_written(&rt, rt.alloc(), bytes.items())?;
    Ok(())
}

/// Tests that a project says nothing and is written as a table without keys.
fn is_without_keys(rt: &impl Abort, alloc: Global, project: &Project) -> Result<(), Fail>
    requires plain { IsTrue (names_none (table_view project.now.rest)) }
    requires nested { nesting (table_view project.now.rest) ≤ nesting_limit }
{
    assert_eq!(rt; counts(project), [0, 0, 0, 0, 0, 0, 0]);
    assert_eq!(rt; project.to_table(alloc)?.len(), 0);
    Ok(())
}

#[test]
fn a_missing_file_is_a_table_without_keys(rt: HostRuntime) -> Result<(), Fail> {
    let project = Project::empty(rt.alloc());
    is_without_keys(&rt, rt.alloc(), &project)
}

#[test]
fn a_compatibility_text_keeps_its_bytes(rt: HostRuntime) -> Result<(), Fail> {
    let it = SpecText::read(rt.alloc(), " ~1.2 , 3")?;
    let copy = it.copy(rt.alloc())?;
    assert_eq!(rt; copy.text(), " ~1.2 , 3");
    let version = Version::of(rt.alloc(), [3, 1, 0]);
    assert!(rt; copy.spec().holds(&version));
    assert!(rt; SpecText::read(rt.alloc(), "1,").is_err());
    Ok(())
}
