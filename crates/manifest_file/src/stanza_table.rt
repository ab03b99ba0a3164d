//! The table of a stanza.
ghost use Rattle.std.specs.Prelude.{◌≡◌, IfOk, OnOk, option_map};
ghost use Rattle.toml.specs.Data.{no_members};
ghost use Rattle.toml.specs.View.{view, table_view};
ghost use Rattle.manifest_file.specs.Said.{said_stanza};
ghost use Rattle.manifest_file.specs.Sorting.{bearers_by};
ghost use Rattle.manifest_file.specs.Written as spec;
ghost use Rattle.manifest_file.specs.ReadsBack.{UuidBack, VersionBack, OriginBack, DependenciesBack, StanzaBack};

use crate::bearers::Index;
use crate::origin_values::{path_of, rev_of, subdir_of, tree_of, url_of};
use crate::put::{put, put_some};
use crate::stanza::Stanza;
use crate::written::{
    dependencies_value, extensions_value, table_value, uuid_value, version_value,
};
use std::alloc::{AllocError, Global};
use toml_view::{Table, Value};

/// The value of a stanza.
pub(crate) fn stanza_value(
    alloc: Global,
    index: &Index,
    stanza: &Stanza,
) -> Result<Value, AllocError>
    ensures data { IfOk result (λ value. view value ≡ spec.stanza_data (bearers_by index.now) (said_stanza stanza.now)) }
    ensures back { IfOk result (λ value. StanzaBack (bearers_by index.now) (said_stanza stanza.now)) }
{
    let mut table = Table::new(alloc);
    put_last(alloc, index, &mut table, stanza)?;
    put_repo(alloc, index, &mut table, stanza)?;
    put_later(alloc, index, &mut table, stanza)?;
    put_first(alloc, index, &mut table, stanza)?;
    Ok(table_value(table))
}

/// The keys from `uuid` on.
fn put_last(
    alloc: Global,
    index: &Index,
    table: &mut Table,
    stanza: &Stanza,
) -> Result<(), AllocError>
    requires { table_view table.old ≡ no_members }
    ensures shown { OnOk result (table_view table.new ≡ spec.members_opt (spec.last_puts (bearers_by index.now) (said_stanza stanza.now))) }
    ensures uuid { OnOk result (UuidBack stanza.now.uuid) }
    ensures version { OnOk result (VersionBack stanza.now.version) }
    ensures weakdeps { OnOk result (DependenciesBack (bearers_by index.now) stanza.now.weakdeps.items) }
{
    let weakdeps = dependencies_value(alloc, index, &stanza.weakdeps)?;
    put_some(alloc, table, "weakdeps", weakdeps)?;
    let version = version_value(alloc, &stanza.version)?;
    put_some(alloc, table, "version", version)?;
    let uuid = uuid_value(alloc, &stanza.uuid)?;
    put(alloc, table, "uuid", uuid)
}

/// The keys of a repository.
fn put_repo(
    alloc: Global,
    index: &Index,
    table: &mut Table,
    stanza: &Stanza,
) -> Result<(), AllocError>
    requires { table_view table.old ≡ spec.members_opt (spec.last_puts (bearers_by index.now) (said_stanza stanza.now)) }
    ensures { OnOk result (table_view table.new ≡ spec.members_opt (spec.repo_puts (bearers_by index.now) (said_stanza stanza.now))) }
{
    let url = url_of(alloc, &stanza.origin)?;
    put_some(alloc, table, "repo-url", url)?;
    let subdir = subdir_of(alloc, &stanza.origin)?;
    put_some(alloc, table, "repo-subdir", subdir)?;
    let rev = rev_of(alloc, &stanza.origin)?;
    put_some(alloc, table, "repo-rev", rev)
}

/// The keys from `git-tree-sha1` to `pinned`.
fn put_later(
    alloc: Global,
    index: &Index,
    table: &mut Table,
    stanza: &Stanza,
) -> Result<(), AllocError>
    requires { table_view table.old ≡ spec.members_opt (spec.repo_puts (bearers_by index.now) (said_stanza stanza.now)) }
    ensures shown { OnOk result (table_view table.new ≡ spec.members_opt (spec.later_puts (bearers_by index.now) (said_stanza stanza.now))) }
    ensures origin { OnOk result (OriginBack stanza.now.origin) }
{
    let pinned = flag_value(stanza.pinned);
    put_some(alloc, table, "pinned", pinned)?;
    let path = path_of(alloc, &stanza.origin)?;
    put_some(alloc, table, "path", path)?;
    let tree = tree_of(alloc, &stanza.origin)?;
    put_some(alloc, table, "git-tree-sha1", tree)
}

fn flag_value(flag: bool) -> Option<Value>
    ensures { option_map view result ≡ spec.flag_data flag }
{
    if flag {
        Some(Value::Boolean(true))
    } else {
        None
    }
}

/// The keys `deps` and `extensions`.
fn put_first(
    alloc: Global,
    index: &Index,
    table: &mut Table,
    stanza: &Stanza,
) -> Result<(), AllocError>
    requires { table_view table.old ≡ spec.members_opt (spec.later_puts (bearers_by index.now) (said_stanza stanza.now)) }
    ensures shown { OnOk result (table_view table.new ≡ spec.members_opt (spec.stanza_puts (bearers_by index.now) (said_stanza stanza.now))) }
    ensures deps { OnOk result (DependenciesBack (bearers_by index.now) stanza.now.deps.items) }
{
    let extensions = extensions_value(alloc, &stanza.extensions)?;
    put_some(alloc, table, "extensions", extensions)?;
    let deps = dependencies_value(alloc, index, &stanza.deps)?;
    put_some(alloc, table, "deps", deps)
}
