//! What a package says of those that it uses.
ghost use Rattle.std.specs.Prelude.{◌≡◌};
ghost use Rattle.manifest_file.specs.Said.{said_stanza};
ghost use Rattle.env_maps.specs.Maps as spec;

use manifest_file::Stanza;
use pkg_world::{ExtList, Name, NameIds, Values};
use std::alloc::Global;
use std::marker::Model;
use uuid::Uuid;

/// A package's dependencies, its optional ones, and its extensions with the names of their triggers.
#[derive(Debug, Drop)]
pub(crate) struct Uses {
    pub deps: NameIds,
    pub weakdeps: NameIds,
    pub extensions: ExtList,
}

impl Model for Uses {
    ghost use Rattle.env_maps.specs.Contexts.{Uses};

    ghost Value = { Uses };

    ghost view = { λ a. record { deps = a.deps.items; weakdeps = a.weakdeps.items; extensions = a.extensions.items } };
}

impl Uses {
    /// No dependencies and no extensions.
    pub(crate) fn none(alloc: Global) -> Uses
        ensures { result ≡ spec.no_uses }
    {
        Uses {
            deps: NameIds::make(alloc),
            weakdeps: NameIds::make(alloc),
            extensions: ExtList::make(alloc),
        }
    }

    /// The same, lent.
    pub(crate) fn lent<'a>(&'a self) -> UsesRef<'a>
        ensures { result ≡ self.now }
    {
        UsesRef {
            deps: self.deps.items(),
            weakdeps: self.weakdeps.items(),
            extensions: self.extensions.items(),
        }
    }
}

/// What a package says of those that it uses, where it is kept.
#[derive(Drop)]
pub(crate) struct UsesRef<'a> {
    pub deps: &'a [(Name, Uuid)],
    pub weakdeps: &'a [(Name, Uuid)],
    pub extensions: &'a [(Name, Values<Name>)],
}

impl<'a> Model for UsesRef<'a> {
    ghost use Rattle.env_maps.specs.Contexts.{Uses};

    ghost Value = { Uses };

    ghost view = { λ a. record { deps = a.deps.now; weakdeps = a.weakdeps.now; extensions = a.extensions.now } };
}

/// What a stanza says of the packages that its own uses.
pub(crate) fn stanza_uses<'a>(stanza: &'a Stanza) -> UsesRef<'a>
    ensures { result ≡ spec.stanza_uses (said_stanza stanza.now) }
{
    UsesRef {
        deps: stanza.deps.items(),
        weakdeps: stanza.weakdeps.items(),
        extensions: stanza.extensions.items(),
    }
}
