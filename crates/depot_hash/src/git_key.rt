//! The order of a tree's entries.
ghost use Rattle.std.specs.Prelude.{◌≡◌, ◌++◌};
ghost use Rattle.depot_hash.specs.Trees as spec;

use crate::entries::{TreeEntry, slash_of};
use pkg_world::Name;
use std::cmp::Ordering;
use std::marker::Model;

/// What an entry is compared by: its name, a folder's with a slash behind it.
#[derive(Drop)]
pub(crate) struct GitKey<'a> {
    name: &'a str,
    slash: &'a str,
}

impl<'a> Model for GitKey<'a> {
    ghost use Rattle.std.specs.Prelude.{List, ℕ, ◌++◌};

    ghost Value = { List ℕ };

    ghost view = { λ a. a.name.now ++ a.slash.now };
}

impl<'a> Ord for GitKey<'a> {
    ghost use Rattle.std.specs.Prelude.{refl};
    ghost use Rattle.std.specs.Ordering.{nat_cmp};
    ghost use Rattle.std.specs.Cmp.Lexicographic.{slice_cmp, nat_list_cmp_total};

    ghost cmp = { slice_cmp nat_cmp };

    ghost total = { nat_list_cmp_total };

    ghost matches_partial_cmp = { λ _ _. refl };

    ghost matches_eq = { λ _ _. refl };

    fn cmp(&self, other: &Self) -> Ordering {
        let left = self
            .name
            .as_bytes()
            .iter()
            .chain(self.slash.as_bytes().iter());
        let right = other
            .name
            .as_bytes()
            .iter()
            .chain(other.slash.as_bytes().iter());
        left.cmp(right)
    }
}

impl<'a> GitKey<'a> {
    /// A name alone.
    pub(crate) fn of_name(name: &'a Name) -> Self
        ensures { result ≡ name.now }
    {
        Self {
            name: name.as_str(),
            slash: "",
        }
    }

    /// What that entry is compared by.
    pub(crate) fn of(entry: &'a TreeEntry) -> Self
        ensures { result ≡ spec.git_key entry.now }
    {
        Self {
            name: entry.name.as_str(),
            slash: slash_of(entry.mode),
        }
    }
}

impl<'a> PartialOrd for GitKey<'a> {
    ghost use Rattle.std.specs.Ordering.{nat_cmp, as_partial_cmp};
    ghost use Rattle.std.specs.Cmp.{partial_order_from_total};
    ghost use Rattle.std.specs.Cmp.Lexicographic.{slice_cmp, nat_list_cmp_total};

    ghost partial_cmp = { as_partial_cmp (slice_cmp nat_cmp) };

    ghost laws = { partial_order_from_total nat_list_cmp_total };

    fn partial_cmp(&self, other: &Self) -> Option<Ordering> {
        Some(self.cmp(other))
    }
}

impl<'a> PartialEq for GitKey<'a> {
    ghost use Rattle.std.specs.Ordering.{nat_cmp, eq_by_cmp};
    ghost use Rattle.std.specs.Cmp.{partial_equiv_from_equiv, eq_by_cmp_equiv};
    ghost use Rattle.std.specs.Cmp.Lexicographic.{slice_cmp, nat_list_cmp_total};

    ghost eq = { eq_by_cmp (slice_cmp nat_cmp) };

    ghost laws = { partial_equiv_from_equiv (eq_by_cmp_equiv nat_list_cmp_total) };

    fn eq(&self, other: &Self) -> bool {
        self.cmp(other).is_eq()
    }
}

impl<'a> Eq for GitKey<'a> {
    ghost use Rattle.std.specs.Cmp.{eq_by_cmp_equiv};
    ghost use Rattle.std.specs.Cmp.Lexicographic.{nat_list_cmp_total};

    ghost laws = { eq_by_cmp_equiv nat_list_cmp_total };
}
