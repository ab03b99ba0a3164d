//! What stands in a manifest's file.
use crate::dependencies::Dependencies;
use crate::origin::Origin;
use jl_versions::Version;
use pkg_world::{Name, Values};
use toml_view::NamedValues;
use uuid::Uuid;

/// A stanza as it stands in the file, without its name.
#[derive(Drop)]
pub(crate) struct Entry {
    pub(crate) uuid: Uuid,
    pub(crate) version: Option<Version>,
    pub(crate) origin: Origin,
    pub(crate) pinned: bool,
    pub(crate) deps: Dependencies,
    pub(crate) weakdeps: Dependencies,
    pub(crate) extensions: NamedValues<Values<Name>>,
}

/// A manifest as it stands in the file: the stanzas by name.
#[derive(Drop)]
pub(crate) struct Entries {
    pub(crate) julia_version: Option<Version>,
    pub(crate) by_name: NamedValues<Values<Entry>>,
}
