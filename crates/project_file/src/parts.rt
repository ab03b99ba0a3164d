//! The named keys of a project file in the order of their bytes, in three parts.
ghost use Rattle.std.specs.Prelude.{◌≡◌, IfErr};
ghost use Rattle.toml.specs.View.{table_view};
ghost use Rattle.toml_view.specs.Answers.{HasPath};
ghost use Rattle.project_file.specs.Answers.{Gives};
ghost use Rattle.project_file.specs.Chain.{front_of, middle_of, back_of};
ghost use Rattle.project_file.specs.Projects.{ids_in, extensions_in};

use crate::source::{Source, SourceReader};
use crate::spec_text::{SpecReader, SpecText};
use jl_versions::Version;
use pkg_world::{Name, Values};
use std::alloc::Global;
use toml_view::{
    NameReader, NamedValues, NamesReader, Stop, Table, UuidReader, VersionReader, opt, table_at,
};
use uuid::Uuid;

/// What stands at the keys before `manifest`.
#[derive(Drop)]
pub(crate) struct Front {
    pub(crate) compat: NamedValues<SpecText>,
    pub(crate) deps: NamedValues<Uuid>,
    pub(crate) extensions: NamedValues<Values<Name>>,
    pub(crate) extras: NamedValues<Uuid>,
}

/// What stands at the keys from `manifest` to `sources`.
#[derive(Drop)]
pub(crate) struct Middle {
    pub(crate) manifest: Option<Name>,
    pub(crate) name: Option<Name>,
    pub(crate) sources: NamedValues<Source>,
}

/// What stands at the keys from `uuid` on.
#[derive(Drop)]
pub(crate) struct Back {
    pub(crate) uuid: Option<Uuid>,
    pub(crate) version: Option<Version>,
    pub(crate) weakdeps: NamedValues<Uuid>,
}

#[tactic(auto, unfolding(crate::specs::Chain::front_of))]
pub(crate) fn read_front(alloc: Global, table: &Table) -> Result<Front, Stop>
    ensures told { Gives result (front_of (table_view table.now)) }
    ensures path { IfErr result HasPath }
{
    let compat = table_at(alloc, SpecReader, table, "compat")?;
    let deps = ids_at(alloc, table, "deps")?;
    let extensions = extensions_at(alloc, table)?;
    let extras = ids_at(alloc, table, "extras")?;
    Ok(Front {
        compat,
        deps,
        extensions,
        extras,
    })
}

#[tactic(auto, unfolding(crate::specs::Chain::middle_of))]
pub(crate) fn read_middle(alloc: Global, table: &Table) -> Result<Middle, Stop>
    ensures told { Gives result (middle_of (table_view table.now)) }
    ensures path { IfErr result HasPath }
{
    let manifest = opt(alloc, &NameReader, table, "manifest")?;
    let name = opt(alloc, &NameReader, table, "name")?;
    let sources = table_at(alloc, SourceReader, table, "sources")?;
    Ok(Middle {
        manifest,
        name,
        sources,
    })
}

#[tactic(auto, unfolding(crate::specs::Chain::back_of))]
pub(crate) fn read_back(alloc: Global, table: &Table) -> Result<Back, Stop>
    ensures told { Gives result (back_of (table_view table.now)) }
    ensures path { IfErr result HasPath }
{
    let uuid = opt(alloc, &UuidReader, table, "uuid")?;
    let version = opt(alloc, &VersionReader, table, "version")?;
    let weakdeps = ids_at(alloc, table, "weakdeps")?;
    Ok(Back {
        uuid,
        version,
        weakdeps,
    })
}

/// The names with their identifiers at a key.
fn ids_at(alloc: Global, table: &Table, key: &str) -> Result<NamedValues<Uuid>, Stop>
    ensures told { Gives result (ids_in key.now (table_view table.now)) }
    ensures path { IfErr result HasPath }
{
    table_at(alloc, UuidReader, table, key)
}

/// The extensions with their triggers.
fn extensions_at(alloc: Global, table: &Table) -> Result<NamedValues<Values<Name>>, Stop>
    ensures told { Gives result (extensions_in (table_view table.now)) }
    ensures path { IfErr result HasPath }
{
    table_at(alloc, NamesReader, table, "extensions")
}
