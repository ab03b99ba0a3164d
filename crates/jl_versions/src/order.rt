//! The order of versions and of the identifiers in them, after Julia's `VersionNumber`: the three
//! numbers, then the pre-release, where one is below none, then the build. Lists go identifier by
//! identifier, a number below a word. Nothing here takes memory.

ghost use Rattle.std.specs.Prelude.{◌≡◌};
ghost use Rattle.jl_versions.specs.Order.{pre_cmp};

use crate::ident::{Ident, Idents, Word};
use crate::version::Version;
use std::cmp::Ordering;

impl Ord for Word {
    ghost use Rattle.std.specs.Prelude.{refl};
    ghost use Rattle.std.specs.Ordering.{nat_cmp};
    ghost use Rattle.std.specs.Cmp.Lexicographic.{slice_cmp, nat_list_cmp_total};

    ghost cmp = { slice_cmp nat_cmp };

    ghost total = { nat_list_cmp_total };

    ghost matches_partial_cmp = { λ _ _. refl };

    ghost matches_eq = { λ _ _. refl };

    fn cmp(&self, other: &Word) -> Ordering {
        self.as_str().as_bytes().cmp(other.as_str().as_bytes())
    }
}

impl PartialOrd for Word {
    ghost use Rattle.std.specs.Ordering.{nat_cmp, as_partial_cmp};
    ghost use Rattle.std.specs.Cmp.{partial_order_from_total};
    ghost use Rattle.std.specs.Cmp.Lexicographic.{slice_cmp, nat_list_cmp_total};

    ghost partial_cmp = { as_partial_cmp (slice_cmp nat_cmp) };

    ghost laws = { partial_order_from_total nat_list_cmp_total };

    fn partial_cmp(&self, other: &Word) -> Option<Ordering> {
        Some(self.cmp(other))
    }
}

impl PartialEq for Word {
    ghost use Rattle.std.specs.Ordering.{nat_cmp, eq_by_cmp};
    ghost use Rattle.std.specs.Cmp.{partial_equiv_from_equiv, eq_by_cmp_equiv};
    ghost use Rattle.std.specs.Cmp.Lexicographic.{slice_cmp, nat_list_cmp_total};

    ghost eq = { eq_by_cmp (slice_cmp nat_cmp) };

    ghost laws = { partial_equiv_from_equiv (eq_by_cmp_equiv nat_list_cmp_total) };

    fn eq(&self, other: &Word) -> bool {
        self.cmp(other).is_eq()
    }
}

impl Eq for Word {
    ghost use Rattle.std.specs.Cmp.{eq_by_cmp_equiv};
    ghost use Rattle.std.specs.Cmp.Lexicographic.{nat_list_cmp_total};

    ghost laws = { eq_by_cmp_equiv nat_list_cmp_total };
}

impl Ord for Ident {
    ghost use Rattle.std.specs.Prelude.{refl};
    ghost use Rattle.jl_versions.specs.Order.{ident_cmp};
    ghost use Rattle.jl_versions.specs.OrderLaws.{ident_total};

    ghost cmp = { ident_cmp };

    ghost total = { ident_total };

    ghost matches_partial_cmp = { λ _ _. refl };

    ghost matches_eq = { λ _ _. refl };

    fn cmp(&self, other: &Ident) -> Ordering {
        match (self, other) {
            (Ident::Number(left), Ident::Number(right)) => left.cmp(right),
            (Ident::Number(_), Ident::Word(_)) => Ordering::Less,
            (Ident::Word(_), Ident::Number(_)) => Ordering::Greater,
            (Ident::Word(left), Ident::Word(right)) => left.cmp(right),
        }
    }
}

impl PartialOrd for Ident {
    ghost use Rattle.std.specs.Ordering.{as_partial_cmp};
    ghost use Rattle.std.specs.Cmp.{partial_order_from_total};
    ghost use Rattle.jl_versions.specs.Order.{ident_cmp};
    ghost use Rattle.jl_versions.specs.OrderLaws.{ident_total};

    ghost partial_cmp = { as_partial_cmp ident_cmp };

    ghost laws = { partial_order_from_total ident_total };

    fn partial_cmp(&self, other: &Ident) -> Option<Ordering> {
        Some(self.cmp(other))
    }
}

impl PartialEq for Ident {
    ghost use Rattle.std.specs.Ordering.{eq_by_cmp};
    ghost use Rattle.std.specs.Cmp.{partial_equiv_from_equiv, eq_by_cmp_equiv};
    ghost use Rattle.jl_versions.specs.Order.{ident_cmp};
    ghost use Rattle.jl_versions.specs.OrderLaws.{ident_total};

    ghost eq = { eq_by_cmp ident_cmp };

    ghost laws = { partial_equiv_from_equiv (eq_by_cmp_equiv ident_total) };

    fn eq(&self, other: &Ident) -> bool {
        self.cmp(other).is_eq()
    }
}

impl Eq for Ident {
    ghost use Rattle.std.specs.Cmp.{eq_by_cmp_equiv};
    ghost use Rattle.jl_versions.specs.OrderLaws.{ident_total};

    ghost laws = { eq_by_cmp_equiv ident_total };
}

impl Ord for Idents {
    ghost use Rattle.std.specs.Prelude.{refl};
    ghost use Rattle.jl_versions.specs.Order.{idents_cmp};
    ghost use Rattle.jl_versions.specs.OrderLaws.{idents_total};

    ghost cmp = { idents_cmp };

    ghost total = { idents_total };

    ghost matches_partial_cmp = { λ _ _. refl };

    ghost matches_eq = { λ _ _. refl };

    fn cmp(&self, other: &Idents) -> Ordering {
        self.items().cmp(other.items())
    }
}

impl PartialOrd for Idents {
    ghost use Rattle.std.specs.Ordering.{as_partial_cmp};
    ghost use Rattle.std.specs.Cmp.{partial_order_from_total};
    ghost use Rattle.jl_versions.specs.Order.{idents_cmp};
    ghost use Rattle.jl_versions.specs.OrderLaws.{idents_total};

    ghost partial_cmp = { as_partial_cmp idents_cmp };

    ghost laws = { partial_order_from_total idents_total };

    fn partial_cmp(&self, other: &Idents) -> Option<Ordering> {
        Some(self.cmp(other))
    }
}

impl PartialEq for Idents {
    ghost use Rattle.std.specs.Ordering.{eq_by_cmp};
    ghost use Rattle.std.specs.Cmp.{partial_equiv_from_equiv, eq_by_cmp_equiv};
    ghost use Rattle.jl_versions.specs.Order.{idents_cmp};
    ghost use Rattle.jl_versions.specs.OrderLaws.{idents_total};

    ghost eq = { eq_by_cmp idents_cmp };

    ghost laws = { partial_equiv_from_equiv (eq_by_cmp_equiv idents_total) };

    fn eq(&self, other: &Idents) -> bool {
        self.cmp(other).is_eq()
    }
}

impl Eq for Idents {
    ghost use Rattle.std.specs.Cmp.{eq_by_cmp_equiv};
    ghost use Rattle.jl_versions.specs.OrderLaws.{idents_total};

    ghost laws = { eq_by_cmp_equiv idents_total };
}

/// Compares two pre-releases: with one is below without.
fn compare_pre(left: &Idents, right: &Idents) -> Ordering
    ensures { result ≡ pre_cmp left.now right.now }
{
    let none_left = left.items().is_empty();
    let none_right = right.items().is_empty();
    none_left.cmp(&none_right).then(left.cmp(right))
}

impl Ord for Version {
    ghost use Rattle.std.specs.Prelude.{refl};
    ghost use Rattle.jl_versions.specs.Order.{version_cmp};
    ghost use Rattle.jl_versions.specs.OrderLaws.{version_total};

    ghost cmp = { version_cmp };

    ghost total = { version_total };

    ghost matches_partial_cmp = { λ _ _. refl };

    ghost matches_eq = { λ _ _. refl };

    fn cmp(&self, other: &Version) -> Ordering {
        self.triple()
            .cmp(&other.triple())
            .then(compare_pre(&self.pre, &other.pre))
            .then(self.build.cmp(&other.build))
    }
}

impl PartialOrd for Version {
    ghost use Rattle.std.specs.Ordering.{as_partial_cmp};
    ghost use Rattle.std.specs.Cmp.{partial_order_from_total};
    ghost use Rattle.jl_versions.specs.Order.{version_cmp};
    ghost use Rattle.jl_versions.specs.OrderLaws.{version_total};

    ghost partial_cmp = { as_partial_cmp version_cmp };

    ghost laws = { partial_order_from_total version_total };

    fn partial_cmp(&self, other: &Version) -> Option<Ordering> {
        Some(self.cmp(other))
    }
}

impl PartialEq for Version {
    ghost use Rattle.std.specs.Ordering.{eq_by_cmp};
    ghost use Rattle.std.specs.Cmp.{partial_equiv_from_equiv, eq_by_cmp_equiv};
    ghost use Rattle.jl_versions.specs.Order.{version_cmp};
    ghost use Rattle.jl_versions.specs.OrderLaws.{version_total};

    ghost eq = { eq_by_cmp version_cmp };

    ghost laws = { partial_equiv_from_equiv (eq_by_cmp_equiv version_total) };

    fn eq(&self, other: &Version) -> bool {
        self.cmp(other).is_eq()
    }
}

impl Eq for Version {
    ghost use Rattle.std.specs.Cmp.{eq_by_cmp_equiv};
    ghost use Rattle.jl_versions.specs.OrderLaws.{version_total};

    ghost laws = { eq_by_cmp_equiv version_total };
}
