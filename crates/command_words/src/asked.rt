//! What words ask for.

use env_maps::Context;
use jl_versions::Version;
use pkg_world::{Listed, Name, Names, NormPath, Text};
use uuid::Uuid;

/// What words ask for. (own rule) A budget is a number of nodes, from 1 to 16,777,216.
#[derive(Drop)]
pub enum Asked {
    /// `which` of a name from a context.
    Which(Name, Context),
    /// `offers` of a name.
    Offers(Name),
    /// `status`, of every stanza or of the dependencies alone, and with extensions or without.
    Status {
        all: bool,
        extensions: bool,
    },
    /// `verify` of a name, with a list of paths where one is given.
    Verify(Name, Option<Text>),
    /// `check`, of a certificate where one is given.
    Check {
        proof: Option<NormPath>,
    },
    /// `resolve` within a budget; whether it tells classes, and where a certificate goes.
    Resolve {
        budget: u32,
        classes: bool,
        proof: Option<NormPath>,
    },
    /// `add` of names, with identifiers where they are given.
    Add {
        words: Listed<(Name, Option<Uuid>)>,
        budget: u32,
    },
    /// `rm` of names.
    Remove {
        names: Names,
        budget: u32,
    },
    /// `pin` of a name, to a version where one is given.
    Pin {
        name: Name,
        version: Option<Version>,
        budget: u32,
    },
    /// `free` of a name.
    Free {
        name: Name,
        budget: u32,
    },
    /// `develop` of a folder.
    Develop {
        path: NormPath,
        budget: u32,
    },
    /// `make` of a made world.
    Make {
        number: u64,
        budget: u32,
    },
    /// The words break the rules: the command word, or `-` where there is none.
    BadWords(Text),
}
