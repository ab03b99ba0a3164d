//! Manifests that are read and written again, with what no command prints of them.
ghost use Rattle.std.specs.Prelude.{IfOk, IsTrue};
ghost use Rattle.manifest_file.specs.Said.{said};
ghost use Rattle.manifest_file.specs.Written.{are_by_name};

use jl_versions::Version;
use manifest_file::{Manifest, Origin, Stanza};
use pkg_world::{Duplicate, ExtList, Listed, Name, NameIds};
use std::alloc::{AllocError, Global};
use std::process::Abort;
use std::test::Fail;
use toml::ser::table_to_string;
use uuid::Uuid;

/// A manifest as Pkg writes it, with a stanza of every kind.
const FULL: &str = "julia_version = \"1.11.2\"\nmanifest_format = \"2.0\"\nproject_hash = \"x\"\n\n\
    [[deps.Dates]]\ndeps = [\"Printf\"]\nuuid = \"00000000-0000-4000-8000-000000000030\"\nversion = \"1.11.0\"\n\n\
    [[deps.Lib]]\nweakdeps = [\"Dates\"]\npath = \"../lib\"\nuuid = \"00000000-0000-4000-8000-000000000002\"\nversion = \"0.1.0\"\n\n\
    [deps.Lib.extensions]\nLibDatesExt = \"Dates\"\nLibMoreExt = [\"Dates\", \"Printf\"]\n\n\
    [[deps.Old]]\ngit-tree-sha1 = \"0000000000000000000000000000000000000001\"\npinned = true\n\
    uuid = \"00000000-0000-4000-8000-000000000003\"\nversion = \"2.0.0\"\n\n\
    [deps.Old.deps]\nLib = \"00000000-0000-4000-8000-000000000002\"\n\n\
    [[deps.Printf]]\nuuid = \"00000000-0000-4000-8000-000000000031\"\n\n\
    [[deps.Work]]\ndeps = [\"Printf\", \"Lib\", \"Printf\"]\ngit-tree-sha1 = \"00000000000000000000000000000000000000FF\"\n\
    repo-rev = \"main\"\nrepo-subdir = \"sub\"\nrepo-url = \"https://example.org/W.git\"\n\
    uuid = \"00000000-0000-4000-8000-000000000004\"\nversion = \"0.3.0\"\n";

fn kind(origin: &Origin) -> &'static str {
    match origin {
        Origin::Tree(_) => "tree",
        Origin::Path(_) => "path",
        Origin::Repo { .. } => "repo",
        Origin::Std => "std",
    }
}

/// The names, each with the last byte of its identifier.
fn shown(alloc: Global, ids: &NameIds) -> Result<String, AllocError> {
    let mut text = String::new(alloc);
    for (name, id) in ids.items() {
        let last = id.as_bytes()[15];
        text.push_str(name.as_str())?;
        write!(text, "{last} ")?;
    }
    Ok(text)
}

/// What is shown of `FULL`: the version of Julia, and of each stanza the name, the last byte of the identifier, the origin,
/// pinned, whether there is a version, how many extensions, dependencies and optional ones.
const FULL_SHOWN: &str = "[1, 11, 2]\n\
    Dates 48 std false true 0 Printf49 , \n\
    Lib 2 path false true 2 , Dates48 \n\
    Old 3 tree true true 0 Lib2 , \n\
    Printf 49 std false false 0 , \n\
    Work 4 repo false true 0 Lib2 Printf49 , \n";

/// What is shown of the manifest that bytes say.
fn read_and_shown(alloc: Global, bytes: &[u8]) -> Result<String, Fail> {
    let manifest = Manifest::read(alloc, bytes)?;
    shown_all(alloc, &manifest)
}

#[test]
fn a_manifest_of_every_kind_of_stanza_is_read(rt: HostRuntime) -> Result<(), Fail> {
    let text = read_and_shown(rt.alloc(), FULL.as_bytes())?;
    assert_eq!(rt; text.as_str(), FULL_SHOWN);
    Ok(())
}

#[test]
fn extensions_have_their_triggers_and_a_repository_its_parts(rt: HostRuntime) -> Result<(), Fail> {
    let manifest = Manifest::read(rt.alloc(), FULL.as_bytes())?;
    has_its_parts(&rt, rt.alloc(), manifest.stanzas.items())
}

/// Compares the extensions of the second stanza and the parts of the last one with `FULL`.
fn has_its_parts(rt: &impl Abort, alloc: Global, stanzas: &[Stanza]) -> Result<(), Fail> {
    assert_eq!(rt; stanzas.len(), 5);
    let extensions = stanzas[1].extensions.items();
    assert_eq!(rt; extensions.len(), 2);
    let (first, triggers) = &extensions[1];
    assert_eq!(rt; first.as_str(), "LibMoreExt");
    assert_eq!(rt; triggers.items().len(), 2);
    let text = copied_parts(alloc, &stanzas[4].origin)?;
    assert_eq!(rt; text.as_str(), "https://example.org/W.git main sub 255");
    Ok(())
}

fn copied_parts(alloc: Global, origin: &Origin) -> Result<String, AllocError> {
    let copy = origin.copy(alloc)?;
    parts(alloc, &copy)
}

/// The parts of a repository.
fn parts(alloc: Global, origin: &Origin) -> Result<String, AllocError> {
    let Origin::Repo {
        url,
        rev: Some(rev),
        subdir: Some(subdir),
        tree,
    } = origin
    else {
        return String::from_str(alloc, "none");
    };
    let last = tree.bytes()[19];
    format!(in alloc; "{url} {rev} {subdir} {last}")
}

/// What is shown of a manifest.
fn shown_all(alloc: Global, manifest: &Manifest) -> Result<String, Fail> {
    let mut text = julia_text(alloc, &manifest.julia_version)?;
    for stanza in manifest.stanzas.items() {
        push_shown(alloc, &mut text, stanza)?;
    }
    Ok(text)
}

fn julia_text(alloc: Global, version: &Option<Version>) -> Result<String, AllocError> {
    match version {
        Some(version) => {
            let numbers = version.triple();
            format!(in alloc; "{numbers:?}\n")
        }
        None => String::from_str(alloc, "no version\n"),
    }
}

fn push_shown(alloc: Global, text: &mut String, stanza: &Stanza) -> Result<(), AllocError> {
    let last = stanza.uuid.as_bytes()[15];
    let origin = kind(&stanza.origin);
    let pinned = stanza.pinned;
    let deps = shown(alloc, &stanza.deps)?;
    let weak = shown(alloc, &stanza.weakdeps)?;
    let extensions = stanza.extensions.items().len();
    let version = stanza.version.is_some();
    let name = stanza.name.as_str();
    write!(
        text,
        "{name} {last} {origin} {pinned} {version} {extensions} {deps}, {weak}\n"
    )
}

/// A manifest of one pinned stanza, whose optional dependency isn't there.
fn lone(alloc: Global) -> Result<Manifest, AllocError>
    ensures { IfOk result (λ m. IsTrue (are_by_name (said m).stanzas)) }
{
    let mut list = Vec::new(alloc);
    list.push(stanza(alloc)?)?;
    Ok(Manifest {
        julia_version: None,
        stanzas: Listed::of_vec(list),
    })
}

fn stanza(alloc: Global) -> Result<Stanza, AllocError> {
    Ok(Stanza {
        name: Name::of(alloc, "A")?,
        uuid: Uuid::NAMESPACE_DNS,
        version: Some(Version::of(alloc, [1, 2, 3])),
        origin: Origin::Path(Name::of(alloc, "../a")?),
        pinned: true,
        deps: NameIds::make(alloc),
        weakdeps: weak(alloc)?,
        extensions: ExtList::make(alloc),
    })
}

fn weak(alloc: Global) -> Result<NameIds, AllocError> {
    let mut ids = NameIds::make(alloc);
    ids.push((Name::of(alloc, "Q")?, Uuid::NAMESPACE_URL))?;
    Ok(ids)
}

/// The text of a manifest's table.
fn written(alloc: Global, manifest: &Manifest) -> Result<String, Fail>
    requires { IsTrue (are_by_name (said manifest.now).stanzas) }
{
    let table = manifest.to_table(alloc)?;
    Ok(table_to_string(alloc, &table)?)
}

fn lone_written(alloc: Global) -> Result<String, Fail> {
    let manifest = lone(alloc)?;
    written(alloc, &manifest)
}

#[test]
fn what_is_written_is_read_again(rt: HostRuntime) -> Result<(), Fail> {
    let text = lone_written(rt.alloc())?;
    let shown = read_and_shown(rt.alloc(), text.as_bytes())?;
    assert_eq!(rt;
        shown.as_str(),
        "no version\nA 200 path true true 0 , Q200 \n"
    );
    Ok(())
}
