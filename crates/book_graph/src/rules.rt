//! Tests of offers.
ghost use Rattle.std.specs.Prelude.{◌≡◌, Bool, map};
ghost use Rattle.offer_terms.specs.Offered.{Offering, offering, allowing};
ghost use Rattle.book_graph.specs.Building.{refuses_entry};
ghost use Rattle.jl_versions.specs.Triple.{triple_of};
ghost use Rattle.std.specs.List.{list_any};

use compat_spec::{Allowed, Spec};
use jl_versions::Version;
use offer_terms::{Offer, julia_uuid};
use uuid::Uuid;

/// A rule that keeps some offers out.
pub(crate) trait Rule {
    ghost shuts: { Self → Offering → Bool };

    /// Whether the rule keeps the offer out. Takes no memory.
    fn shuts(&self, offer: &Offer) -> bool
        ensures { result ≡ shuts self.now (offering offer.now) };
}

/// A version that the specifier doesn't hold is out.
impl Rule for Spec {
    ghost use Rattle.book_graph.specs.Building.{is_outside};

    ghost shuts = { is_outside };

    fn shuts(&self, offer: &Offer) -> bool {
        !self.holds(&offer.version)
    }
}

/// A version that the entry doesn't allow is out.
impl Rule for Allowed {
    ghost use Rattle.std.specs.Prelude.{not};
    ghost use Rattle.jl_versions.specs.Triple.{triple_of};
    ghost use Rattle.compat_spec.specs.Admitted.{allowed_holds};

    ghost shuts = { λ entry x. not (allowed_holds entry (triple_of x.version)) };

    fn shuts(&self, offer: &Offer) -> bool {
        !self.holds(&offer.version)
    }
}

/// Every other version is out.
impl Rule for Version {
    ghost use Rattle.book_graph.specs.Building.{is_other};

    ghost shuts = { is_other };

    fn shuts(&self, offer: &Offer) -> bool {
        offer.version != *self
    }
}

/// Julia's version.
#[derive(Drop)]
pub(crate) struct Julia {
    pub(crate) version: Version,
}

/// An offer whose compat doesn't allow Julia's version is out.
impl Rule for Julia {
    ghost use Rattle.jl_versions.specs.Triple.{triple_of};
    ghost use Rattle.book_graph.specs.Building.{refuses_julia};

    ghost shuts = { λ julia x. refuses_julia (triple_of julia.version) x };

    fn shuts(&self, offer: &Offer) -> bool {
        refuses(&self.version, offer.compat.items())
    }
}

/// Whether one of the entries is on Julia and doesn't allow this version of it.
fn refuses(julia: &Version, entries: &[(Uuid, Allowed)]) -> bool
    ensures { result ≡ list_any (refuses_entry (triple_of julia.now)) (map allowing entries.now) }
{
    for entry in entries {
        if is_refusing(julia, entry) {
            return true;
        }
    }
    false
}

/// Whether the entry is on Julia and doesn't allow this version of it.
fn is_refusing(julia: &Version, entry: &(Uuid, Allowed)) -> bool
    ensures { result ≡ refuses_entry (triple_of julia.now) (allowing entry.now) }
{
    entry.0 == julia_uuid() && !entry.1.holds(julia)
}
