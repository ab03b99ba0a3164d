//! The manifest of an environment: what `Manifest.toml` says of its packages, and the table that says it.
#![tactic(auto)]

mod bearers;
mod dependencies;
mod entry;
mod entry_reader;
mod fault;
mod file;
mod format;
mod grouping;
mod identifiers;
mod listed;
mod manifest;
mod origin;
mod origin_values;
mod put;
mod readers;
mod resolving;
mod sorting;
mod stanza;
mod stanza_table;
mod written;

pub use fault::ManifestFault;
pub use manifest::Manifest;
pub use origin::Origin;
pub use stanza::{Stanza, Stanzas};
