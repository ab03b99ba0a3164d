//! The readers of a stanza's values.
ghost use Rattle.std.specs.Prelude.{◌≡◌};
ghost use Rattle.toml.specs.View.{table_view};
ghost use Rattle.manifest_file.specs.Values as spec;
ghost use Rattle.manifest_file.specs.Answers.{Gives};

use crate::dependencies::Dependencies;
use pkg_world::{TreeId, Values};
use std::alloc::Global;
use toml_view::{
    Each, FlagReader, ListOf, NameReader, Reader, Stop, Table, TreeReader, UuidReader, Value,
    has_key, need, opt,
};

/// Reads a table of names to identifiers, or a list of names.
#[derive(Clone, Copy, Debug, Drop)]
pub(crate) struct DependenciesReader;

impl Reader for DependenciesReader {
    type Out = Dependencies;

    ghost gives = { λ _ value. spec.dependencies_of value };

    fn read(&self, alloc: Global, value: &Value) -> Result<Dependencies, Stop> {
        match value.as_table() {
            Some(_) => {
                let ids = Each { reader: UuidReader }.read(alloc, value)?;
                Ok(Dependencies::Ids(ids))
            }
            None => {
                let names = ListOf { reader: NameReader }.read(alloc, value)?;
                Ok(Dependencies::Names(names))
            }
        }
    }
}

/// The dependencies at a key; an absent key has none.
pub(crate) fn dependencies_at(alloc: Global, table: &Table, key: &str) -> Result<Dependencies, Stop>
    ensures { Gives result (spec.dependencies_at key.now (table_view table.now)) }
{
    match opt(alloc, &DependenciesReader, table, key) {
        Ok(Some(found)) => Ok(found),
        Ok(None) => Ok(Dependencies::Names(Values::make(alloc))),
        Err(stop) => Err(stop),
    }
}

/// Whether a package is pinned; without the key it isn't.
pub(crate) fn flag_at(alloc: Global, table: &Table, key: &str) -> Result<bool, Stop>
    ensures { Gives result (spec.flag_at key.now (table_view table.now)) }
{
    match opt(alloc, &FlagReader, table, key) {
        Ok(Some(flag)) => Ok(flag),
        Ok(None) => Ok(false),
        Err(stop) => Err(stop),
    }
}

/// The tree of a stanza. It is needed where the package comes from a repository.
pub(crate) fn tree_at(alloc: Global, table: &Table) -> Result<Option<TreeId>, Stop>
    ensures { Gives result (spec.tree_at (table_view table.now)) }
{
    if needs_tree(table) {
        match need(alloc, &TreeReader, table, "git-tree-sha1") {
            Ok(tree) => Ok(Some(tree)),
            Err(stop) => Err(stop),
        }
    } else {
        opt(alloc, &TreeReader, table, "git-tree-sha1")
    }
}

fn needs_tree(table: &Table) -> bool
    ensures { result ≡ spec.needs_tree (table_view table.now) }
{
    !has_key(table, "path") && has_key(table, "repo-url")
}
