//! Books of small worlds: whose offers count, which packages are reached, and in which order.
use crate::shown::{book_text, fault_text};
use crate::worlds::{Lost, REGISTRY, book_in, ids};
use pkg_world::{Ids, MemStore};
use std::alloc::Global;
use std::test::Fail;
use store_tests::files::{File, fill, filled};

/// A registry of the second depot, which lists A under another name and with other dependencies.
pub const SECOND: &[File] = &[
    (
        "/e/registries/S/Registry.toml",
        "name = \"S\"\nuuid = \"00000000-0000-4000-8000-000000000090\"\n[packages]\n00000000-0000-4000-8000-000000000003 = { name = \"Aa\", path = \"Aa\" }\n00000000-0000-4000-8000-000000000007 = { name = \"E\", path = \"E\" }\n",
    ),
    (
        "/e/registries/S/Aa/Package.toml",
        "name = \"Aa\"\nuuid = \"00000000-0000-4000-8000-000000000003\"\n",
    ),
    (
        "/e/registries/S/Aa/Versions.toml",
        "[\"1.0.0\"]\ngit-tree-sha1 = \"0000000000000000000000000000000000000033\"\n[\"3.0.0\"]\ngit-tree-sha1 = \"0000000000000000000000000000000000000034\"\n",
    ),
    (
        "/e/registries/S/Aa/Deps.toml",
        "[\"1-3\"]\nD = \"00000000-0000-4000-8000-000000000006\"\n",
    ),
];

/// The standard library C without a version.
pub const LIBRARY: &[File] = &[(
    "/s/C/Project.toml",
    "name = \"C\"\nuuid = \"00000000-0000-4000-8000-000000000005\"\n[deps]\nD = \"00000000-0000-4000-8000-000000000006\"\n",
)];

/// The standard library C with a version, and a dependency that is weak too.
const OLDER_LIBRARY: &[File] = &[(
    "/s/C/Project.toml",
    "name = \"C\"\nuuid = \"00000000-0000-4000-8000-000000000005\"\nversion = \"1.2.0\"\n[deps]\nD = \"00000000-0000-4000-8000-000000000006\"\n[weakdeps]\nD = \"00000000-0000-4000-8000-000000000006\"\n",
)];

/// A folder in which C is developed.
pub const FOLDER: &[File] = &[(
    "/c/Project.toml",
    "name = \"Other\"\nuuid = \"00000000-0000-4000-8000-000000000050\"\nversion = \"0.3.0\"\n[deps]\nD = \"00000000-0000-4000-8000-000000000006\"\n[compat]\nD = \"1\"\njulia = \"1.10\"\nZ = \"2\"\n",
)];

/// C's first version is yanked.
const YANKED: &[File] = &[(
    "/d/registries/R/C/Versions.toml",
    "[\"1.0.0\"]\ngit-tree-sha1 = \"0000000000000000000000000000000000000051\"\nyanked = true\n[\"2.0.0\"]\ngit-tree-sha1 = \"0000000000000000000000000000000000000052\"\n",
)];

/// A has a weak dependency that no registry lists.
const WEAK: &[File] = &[(
    "/d/registries/R/A/WeakDeps.toml",
    "[\"1\"]\nW = \"00000000-0000-4000-8000-000000000009\"\n",
)];

/// A needs a package that nothing offers.
const NEEDS_NIX: &[File] = &[(
    "/d/registries/R/A/Deps.toml",
    "[\"1-2\"]\nNix = \"00000000-0000-4000-8000-000000000008\"\n",
)];

/// A depends on Julia, and has compat on it and on a package that it doesn't depend on.
const NEEDS_JULIA: &[File] = &[
    (
        "/d/registries/R/A/Deps.toml",
        "[\"1-2\"]\njulia = \"1222c4b2-2114-5bfd-aeef-88e4692bbb3e\"\n",
    ),
    (
        "/d/registries/R/A/Compat.toml",
        "[\"1\"]\njulia = \"1.6-1\"\nC = \"1\"\n",
    ),
];

/// A project that needs A and B.
const A_AND_B: &[File] = &[(
    "/p/Project.toml",
    "[deps]\nA = \"00000000-0000-4000-8000-000000000003\"\nB = \"00000000-0000-4000-8000-000000000004\"\n",
)];

/// A project that needs C.
const C_ALONE: &[File] = &[(
    "/p/Project.toml",
    "[deps]\nC = \"00000000-0000-4000-8000-000000000005\"\n",
)];

/// A project that is C itself, and needs A.
const OWN_C: &[File] = &[(
    "/p/Project.toml",
    "name = \"C\"\nuuid = \"00000000-0000-4000-8000-000000000005\"\n[deps]\nA = \"00000000-0000-4000-8000-000000000003\"\n",
)];

/// C is developed, and a dependency.
const IN_DEPS: &[File] = &[(
    "/p/Project.toml",
    "[deps]\nC = \"00000000-0000-4000-8000-000000000005\"\n[sources]\nC = { path = \"../c\" }\n",
)];

/// C is developed, and stands in the extras.
pub const IN_EXTRAS: &[File] = &[(
    "/p/Project.toml",
    "[deps]\nA = \"00000000-0000-4000-8000-000000000003\"\n[extras]\nC = \"00000000-0000-4000-8000-000000000005\"\n[sources]\nC = { path = \"../c\" }\n",
)];

/// A source that no list names.
const IN_NONE: &[File] = &[(
    "/p/Project.toml",
    "[deps]\nA = \"00000000-0000-4000-8000-000000000003\"\n[sources]\nC = { path = \"../c\" }\n",
)];

/// A root that nothing offers.
const NIX: &[File] = &[(
    "/p/Project.toml",
    "[deps]\nC = \"00000000-0000-4000-8000-000000000005\"\nNix = \"00000000-0000-4000-8000-000000000008\"\n",
)];

/// Roots whose names go in another order than their identifiers.
const OTHER_NAMES: &[File] = &[(
    "/p/Project.toml",
    "[deps]\nM = \"00000000-0000-4000-8000-000000000006\"\nN = \"00000000-0000-4000-8000-000000000005\"\n",
)];

/// C comes from a repository, without a version.
const REPOSITORY: &[File] = &[(
    "/p/Manifest.toml",
    "manifest_format = \"2.0\"\n[[deps.C]]\nuuid = \"00000000-0000-4000-8000-000000000005\"\ndeps = [\"D\"]\nrepo-url = \"https://example.org/C.jl\"\ngit-tree-sha1 = \"0000000000000000000000000000000000000059\"\n[[deps.D]]\nuuid = \"00000000-0000-4000-8000-000000000006\"\nversion = \"1.0.0\"\ngit-tree-sha1 = \"0000000000000000000000000000000000000061\"\n",
)];

/// C is pinned to its first version.
const PINNED: &[File] = &[(
    "/p/Manifest.toml",
    "manifest_format = \"2.0\"\n[[deps.C]]\nuuid = \"00000000-0000-4000-8000-000000000005\"\nversion = \"1.0.0\"\ngit-tree-sha1 = \"0000000000000000000000000000000000000051\"\npinned = true\n",
)];

/// C is pinned to its second version.
const PINNED_LATER: &[File] = &[(
    "/p/Manifest.toml",
    "manifest_format = \"2.0\"\n[[deps.C]]\nuuid = \"00000000-0000-4000-8000-000000000005\"\nversion = \"2.0.0\"\ngit-tree-sha1 = \"0000000000000000000000000000000000000052\"\npinned = true\n",
)];

/// The stanza of C's second tree has an extension.
const EXTENDED: &[File] = &[(
    "/p/Manifest.toml",
    "manifest_format = \"2.0\"\n[[deps.C]]\nuuid = \"00000000-0000-4000-8000-000000000005\"\nversion = \"2.0.0\"\ngit-tree-sha1 = \"0000000000000000000000000000000000000052\"\n[deps.C.weakdeps]\nW = \"00000000-0000-4000-8000-000000000009\"\n[deps.C.extensions]\nCW = \"W\"\n",
)];

/// The files besides the registry's, the extra packages, and the book.
const ROWS: &[(&[&[File]], &[u8], &str)] = &[
    (
        &[A_AND_B],
        &[],
        "A | 1.0.0 tree +C :5 | 2.0.0 tree +C :5; B | 1.0.0 tree +C :5 | 2.0.0 tree +C :5; C | 1.0.0 tree | 2.0.0 tree; ",
    ),
    (
        &[A_AND_B, LIBRARY],
        &[],
        "A | 1.0.0 tree +C :5 | 2.0.0 tree +C :5; B | 1.0.0 tree +C :5 | 2.0.0 tree +C :5; C | 1.11.2 std +D; D | 1.0.0 tree; ",
    ),
    (
        &[A_AND_B, OLDER_LIBRARY],
        &[],
        "A | 1.0.0 tree +C :5 | 2.0.0 tree +C :5; B | 1.0.0 tree +C :5 | 2.0.0 tree +C :5; C | 1.2.0 std ~D; ",
    ),
    (
        &[IN_DEPS, FOLDER, LIBRARY],
        &[],
        "C | 0.3.0 path +D :6 :62; D | 1.0.0 tree; ",
    ),
    (
        &[IN_EXTRAS, FOLDER, LIBRARY],
        &[],
        "A | 1.0.0 tree +C :5 | 2.0.0 tree +C :5; C | 0.3.0 path +D :6 :62; D | 1.0.0 tree; ",
    ),
    (
        &[IN_NONE],
        &[],
        "A | 1.0.0 tree +C :5 | 2.0.0 tree +C :5; C | 1.0.0 tree | 2.0.0 tree; ",
    ),
    (
        &[C_ALONE, REPOSITORY],
        &[],
        "C | 0.0.0 repo +D; D | 1.0.0 tree; ",
    ),
    (
        &[C_ALONE, SECOND],
        &[3, 8, 5],
        "C | 1.0.0 tree | 2.0.0 tree; A | 1.0.0 tree +C :5 | 2.0.0 tree +C :5 | 3.0.0 tree +D;  -; D | 1.0.0 tree; ",
    ),
    (&[C_ALONE, YANKED], &[], "C | 2.0.0 tree; "),
    (
        &[C_ALONE, YANKED, PINNED],
        &[],
        "C | 1.0.0 tree | 2.0.0 tree; ",
    ),
    (&[C_ALONE, YANKED, PINNED_LATER], &[], "C | 2.0.0 tree; "),
    (
        &[C_ALONE, EXTENDED],
        &[],
        "C | 1.0.0 tree | 2.0.0 tree !CW; ",
    ),
    (
        &[A_AND_B, WEAK],
        &[],
        "A | 1.0.0 tree +C ~W :5 | 2.0.0 tree +C :5; B | 1.0.0 tree +C :5 | 2.0.0 tree +C :5; C | 1.0.0 tree | 2.0.0 tree; ",
    ),
    (
        &[A_AND_B, NEEDS_NIX],
        &[],
        "A | 1.0.0 tree +Nix | 2.0.0 tree +Nix; B | 1.0.0 tree +C :5 | 2.0.0 tree +C :5; Nix -; C | 1.0.0 tree | 2.0.0 tree; ",
    ),
    (
        &[A_AND_B, NEEDS_JULIA],
        &[],
        "A | 1.0.0 tree :62 | 2.0.0 tree; B | 1.0.0 tree +C :5 | 2.0.0 tree +C :5; C | 1.0.0 tree | 2.0.0 tree; ",
    ),
    (&[OWN_C], &[], "A | 1.0.0 tree | 2.0.0 tree; "),
    (
        &[OTHER_NAMES],
        &[3],
        "D | 1.0.0 tree; C | 1.0.0 tree | 2.0.0 tree; A | 1.0.0 tree +C :5 | 2.0.0 tree +C :5; ",
    ),
    (&[NIX], &[], "UnknownPackage 8"),
];

/// A registry with these files besides, of which a later one takes the place of an earlier one.
fn store_of(alloc: Global, parts: &[&[File]]) -> Result<MemStore, Lost> {
    let mut store = filled(alloc, REGISTRY)?;
    for part in parts {
        fill(alloc, &mut store, part)?;
    }
    Ok(store)
}

/// The book of the project in `/p`, or why there is none.
pub fn told(alloc: Global, store: &mut MemStore, extra: &Ids) -> Result<String, Lost> {
    match book_in(alloc, store, extra) {
        Ok(book) => Ok(book_text(alloc, &book)?),
        Err(Lost::Book(fault)) => Ok(fault_text(alloc, &fault)?),
        Err(lost) => Err(lost),
    }
}

fn told_of(alloc: Global, parts: &[&[File]], extra: &[u8]) -> Result<String, Lost> {
    let mut store = store_of(alloc, parts)?;
    let extra = ids(alloc, extra)?;
    told(alloc, &mut store, &extra)
}

#[test]
fn books_have_what_the_files_offer(rt: HostRuntime) -> Result<(), Fail> {
    for (parts, extra, want) in ROWS {
        let text = told_of(rt.alloc(), parts, extra)?;
        assert_eq!(rt; text.as_str(), *want);
    }
    Ok(())
}
