//! The reading of a stanza.
ghost use Rattle.std.specs.Prelude.{◌≡◌};
ghost use Rattle.toml.specs.View.{table_view};
ghost use Rattle.manifest_file.specs.Entries as spec;
ghost use Rattle.manifest_file.specs.Chains.{front_of, back_of, joined, entry_chain};
ghost use Rattle.manifest_file.specs.Answers.{Gives};

use crate::dependencies::Dependencies;
use crate::entry::Entry;
use crate::origin::Origin;
use crate::readers::{dependencies_at, flag_at, tree_at};
use jl_versions::Version;
use pkg_world::{Name, TreeId, Values};
use std::alloc::Global;
use toml_view::{
    NameReader, NamedValues, NamesReader, Reader, Stop, Table, UuidReader, Value, VersionReader,
    need, opt, other_shape, table_at,
};
use uuid::Uuid;

/// What stands at the keys of a stanza up to `pinned`.
#[derive(Debug, Drop)]
struct Front {
    deps: Dependencies,
    extensions: NamedValues<Values<Name>>,
    tree: Option<TreeId>,
    path: Option<Name>,
    pinned: bool,
}

/// What stands at the keys of a stanza from `repo-rev` on.
#[derive(Drop)]
struct Back {
    rev: Option<Name>,
    subdir: Option<Name>,
    url: Option<Name>,
    uuid: Uuid,
    version: Option<Version>,
    weakdeps: Dependencies,
}

/// Reads one stanza.
#[derive(Clone, Copy, Debug, Drop)]
pub(crate) struct EntryReader;

impl Reader for EntryReader {
    type Out = Entry;

    ghost gives = { λ _ value. spec.entry_of value };

    fn read(&self, alloc: Global, value: &Value) -> Result<Entry, Stop> {
        match value.as_table() {
            Some(table) => read_entry(alloc, table),
            None => Err(other_shape()),
        }
    }
}

#[tactic(auto, using(crate::proofs::Orders::entry_is))]
fn read_entry(alloc: Global, table: &Table) -> Result<Entry, Stop>
    ensures { Gives result (spec.entry_of_members (table_view table.now)) }
{
    read_chain(alloc, table)
}

/// The keys in the order of their bytes.
fn read_chain(alloc: Global, table: &Table) -> Result<Entry, Stop>
    ensures { Gives result (entry_chain (table_view table.now)) }
{
    let front = read_front(alloc, table)?;
    let back = read_back(alloc, table)?;
    Ok(whole(front, back))
}

fn read_front(alloc: Global, table: &Table) -> Result<Front, Stop>
    ensures { Gives result (front_of (table_view table.now)) }
{
    let deps = dependencies_at(alloc, table, "deps")?;
    let extensions = table_at(alloc, NamesReader, table, "extensions")?;
    let tree = tree_at(alloc, table)?;
    let path = opt(alloc, &NameReader, table, "path")?;
    let pinned = flag_at(alloc, table, "pinned")?;
    Ok(Front {
        deps,
        extensions,
        tree,
        path,
        pinned,
    })
}

fn read_back(alloc: Global, table: &Table) -> Result<Back, Stop>
    ensures { Gives result (back_of (table_view table.now)) }
{
    let rev = opt(alloc, &NameReader, table, "repo-rev")?;
    let subdir = opt(alloc, &NameReader, table, "repo-subdir")?;
    let url = opt(alloc, &NameReader, table, "repo-url")?;
    let uuid = need(alloc, &UuidReader, table, "uuid")?;
    let version = opt(alloc, &VersionReader, table, "version")?;
    let weakdeps = dependencies_at(alloc, table, "weakdeps")?;
    Ok(Back {
        rev,
        subdir,
        url,
        uuid,
        version,
        weakdeps,
    })
}

fn whole(front: Front, back: Back) -> Entry
    ensures { result ≡ joined front back }
{
    let Front {
        deps,
        extensions,
        tree,
        path,
        pinned,
    } = front;
    let Back {
        rev,
        subdir,
        url,
        uuid,
        version,
        weakdeps,
    } = back;
    Entry {
        uuid,
        version,
        origin: origin_of(path, url, rev, subdir, tree),
        pinned,
        deps,
        weakdeps,
        extensions,
    }
}

/// Where a package comes from: its path, else its repository, else its tree, else Julia itself.
fn origin_of(
    path: Option<Name>,
    url: Option<Name>,
    rev: Option<Name>,
    subdir: Option<Name>,
    tree: Option<TreeId>,
) -> Origin
    ensures { result ≡ spec.origin_of path url rev subdir tree }
{
    match path {
        Some(path) => Origin::Path(path),
        None => unless_repository(url, rev, subdir, tree),
    }
}

fn unless_repository(
    url: Option<Name>,
    rev: Option<Name>,
    subdir: Option<Name>,
    tree: Option<TreeId>,
) -> Origin
    ensures { result ≡ spec.unless_repository url rev subdir tree }
{
    match url {
        Some(url) => match tree {
            Some(tree) => Origin::Repo {
                url,
                rev,
                subdir,
                tree,
            },
            None => Origin::Std,
        },
        None => match tree {
            Some(tree) => Origin::Tree(tree),
            None => Origin::Std,
        },
    }
}
