//! The active project and imports over real folders, which each test makes and takes away.
use crate::host_store::HostStore;
use pkg_top::{PlaceFault, place_from, run};
use pkg_world::{NormPath, PathFault, Place, Store, SureSink};
use std::alloc::{AllocError, Global};
use std::test::Fail;
use std::{env, fs, process, str};

/// A project text, and the project file that it means and that is made before the command. Those of `/p/q` come last,
/// since `@.` would find them first.
const TEXTS: [(&str, &str); 9] = [
    ("../Project.toml", "p/Project.toml"),
    ("..", "p/Project.toml"),
    ("@.", "p/Project.toml"),
    ("@", "d/environments/v1.11/Project.toml"),
    ("@v#.#", "d/environments/v1.11/Project.toml"),
    ("@v#.#.#", "d/environments/v1.11.2/Project.toml"),
    ("@none", "d/environments/none/Project.toml"),
    ("@stdlib", "p/q/Project.toml"),
    ("", "p/q/Project.toml"),
];

/// Files of a package folder, of a named environment and of a package beside it.
const FILES: [(&str, &str); 7] = [
    ("f/N/src/N.jl", ""),
    ("f/M.jl/src/M.jl", ""),
    (
        "f/M.jl/JuliaProject.toml",
        "uuid = \"00000000-0000-4000-8000-000000000008\"\n",
    ),
    ("f/O.jl", ""),
    (
        "d/environments/v1.11/Project.toml",
        "[deps]\nTool = \"00000000-0000-4000-8000-000000000040\"\n",
    ),
    (
        "d/environments/v1.11/Manifest.toml",
        "manifest_format = \"2.0\"\n[[deps.Tool]]\nuuid = \"00000000-0000-4000-8000-000000000040\"\n\
        path = \"../../../tool\"\n",
    ),
    ("tool/src/Tool.jl", ""),
];

/// A load path, a name, its identifier and its entry file.
const IMPORTS: [(Option<&str>, &str, &str, &str); 4] = [
    (Some("../../f"), "N", "-", "f/N/src/N.jl"),
    (
        Some("../../f"),
        "M",
        "00000000-0000-4000-8000-000000000008",
        "f/M.jl/src/M.jl",
    ),
    (Some("../../f"), "O", "-", "f/O.jl"),
    (
        None,
        "Tool",
        "00000000-0000-4000-8000-000000000040",
        "tool/src/Tool.jl",
    ),
];

/// The place of the folder `p/q` and the depot `d` below a folder.
fn place_below(
    alloc: Global,
    folder: &str,
    load_path: Option<&str>,
    project: &str,
) -> Result<Place, PlaceFault> {
    let cwd = format!(in alloc; "{folder}/p/q")?;
    let depot = format!(in alloc; "{folder}/d")?;
    place_from(
        alloc,
        cwd.as_str(),
        None,
        Some(depot.as_str()),
        load_path,
        Some(project),
        None,
        Some("1.11.2"),
    )
}

/// What a command prints.
fn printed(
    alloc: Global,
    command: &str,
    place: &Place,
    store: &mut HostStore<HostRuntime>,
) -> Result<String, AllocError> {
    let mut words = Vec::new(alloc);
    for word in command.split(' ') {
        words.push(String::from_str(alloc, word)?)?;
    }
    let mut out = SureSink::make(alloc)?;
    let mut err = SureSink::make(alloc)?;
    let _ = run(alloc, words.as_slice(), place, store, &mut out, &mut err);
    String::from_str(alloc, str::from_utf8(out.text()).unwrap_or("no text"))
}

/// A folder of that name for this process, which is not there yet.
fn new_folder(rt: &HostRuntime, name: &str) -> Result<String, Fail> {
    let above = env::temp_dir(rt)?;
    let above = above.as_str();
    let number = process::id(rt.process());
    let folder = format!(in rt.alloc(); "{above}/jlpkg-{name}-{number}")?;
    let _ = fs::remove_dir_all(rt, folder.as_str());
    Ok(folder)
}

/// Makes a file below a folder, and gives its path.
fn make(
    alloc: Global,
    store: &mut HostStore<HostRuntime>,
    folder: &str,
    file: &str,
    text: &str,
) -> Result<String, PathFault> {
    let path = format!(in alloc; "{folder}/{file}")?;
    let made = NormPath::join(alloc, &NormPath::root(alloc), path.as_str())?;
    let _ = store.replace(alloc, &made, text.as_bytes());
    Ok(path)
}

#[test]
fn the_active_project_is_found_on_real_folders(rt: HostRuntime) -> Result<(), Fail> {
    let alloc = rt.alloc();
    let folder = new_folder(&rt, "world")?;
    let mut store = HostStore::new(rt);
    for (text, file) in TEXTS {
        let path = make(alloc, &mut store, folder.as_str(), file, "")?;
        let place = place_below(alloc, folder.as_str(), None, text)?;
        let said = printed(alloc, "status", &place, &mut store)?;
        let want = format!(in alloc; "project {path}\n")?;
        assert_eq!(rt; said.as_str(), want.as_str(), "{text}");
    }
    fs::remove_dir_all(&rt, folder.as_str())?;
    Ok(())
}

#[test]
fn imports_are_found_on_real_folders(rt: HostRuntime) -> Result<(), Fail> {
    let alloc = rt.alloc();
    let folder = new_folder(&rt, "imports")?;
    let mut store = HostStore::new(rt);
    for (file, text) in FILES {
        let _ = make(alloc, &mut store, folder.as_str(), file, text)?;
    }
    for (load_path, name, uuid, file) in IMPORTS {
        let place = place_below(alloc, folder.as_str(), load_path, "@")?;
        let command = format!(in alloc; "which {name}")?;
        let said = printed(alloc, command.as_str(), &place, &mut store)?;
        let want = format!(in alloc; "{name} {uuid} {folder}/{file}\n")?;
        assert_eq!(rt; said.as_str(), want.as_str());
    }
    fs::remove_dir_all(&rt, folder.as_str())?;
    Ok(())
}
