//! Which packages are kept, and which states stand for others.
ghost use Rattle.std.specs.Prelude.{◌≡◌, ◌<◌, [], length, slice_index_or};
ghost use Rattle.graph_pruning.specs.Marked.{marked, standing_in};

use std::marker::Model;

/// The packages that are reached from the roots.
#[derive(Drop)]
pub struct Kept {
    pub(crate) marks: Vec<bool>,
}

impl Model for Kept {
    ghost use Rattle.std.specs.Prelude.{List, Bool};

    ghost Value = { List Bool };

    ghost view = { λ a. a.marks.items };
}

impl Kept {
    /// Whether the package p is kept. It takes no memory.
    pub fn has(&self, p: u32) -> bool
        requires { p < length self.now }
        ensures { result ≡ marked self.now p }
    {
        self.marks[p as usize]
    }
}

/// For each state of each package the state that stands for its class: the greatest of those that allow the
/// same states of every other package's domain.
#[derive(Drop)]
pub struct Classes {
    pub(crate) rows: Vec<Vec<u32>>,
}

impl Model for Classes {
    ghost use Rattle.std.specs.Prelude.{List, ℕ};
    ghost use Rattle.version_graph.specs.Stored.{rows_of};

    ghost Value = { List (List ℕ) };

    ghost view = { λ a. rows_of a.rows.items };
}

impl Classes {
    /// The state that stands for the state i of p, which is i itself where i isn't in the domains. It takes no
    /// memory.
    pub fn standing(&self, p: u32, i: u32) -> u32
        requires known { p < length self.now }
        requires state { i < length (slice_index_or self.now p []) }
        ensures { result ≡ standing_in self.now p i }
    {
        self.rows[p as usize][i as usize]
    }
}
