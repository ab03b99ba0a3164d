//! Dependencies as a manifest's file has them.
use pkg_world::{Name, Values};
use toml_view::NamedValues;
use uuid::Uuid;

/// The dependencies of a stanza as they stand in the file.
#[derive(Debug, Drop)]
pub(crate) enum Dependencies {
    /// A list of names, each of which means the one stanza of that name.
    Names(Values<Name>),
    /// A table of names to identifiers.
    Ids(NamedValues<Uuid>),
}
