//! What a made world holds.
use pkg_world::{PathFault, ReadAnswer, Store};
use store_tests::files::at;
use world_maker::make_world;

/// A file of the world of 1, and a piece of its text, from a generator that was written apart.
const ROWS: [(&str, &str); 4] = [
    (
        "/p/Project.toml",
        "P009 = \"00000000-0000-4000-9000-000000000009\"",
    ),
    (
        "/d/registries/Made/P007/Versions.toml",
        "git-tree-sha1 = \"0000000000000000000000000000000000000073\"",
    ),
    (
        "/d/registries/Made/P007/Deps.toml",
        "P022 = \"00000000-0000-4000-9000-000000000022\"",
    ),
    ("/d/registries/Made/P007/Compat.toml", "P022 = \"1.0-1.7\""),
];

#[test]
fn world_is_made(rt: HostRuntime) -> Result<(), PathFault> {
    let alloc = rt.alloc();
    let mut store = make_world(alloc, 1)?;
    for (path, piece) in ROWS {
        let path = at(alloc, path)?;
        match store.read(alloc, &path) {
            ReadAnswer::Bytes(found) => {
                let text = std::str::from_utf8(found.items()).unwrap_or("no text");
                assert!(rt; text.contains(piece));
            }
            _ => assert!(rt; false),
        }
    }
    Ok(())
}
