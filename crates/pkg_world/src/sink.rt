//! The sink: where printed text goes, a terminal or memory.
ghost use Rattle.std.specs.Prelude.{◌≡◌, ℕ, ◌≤◌, List, Option};
ghost use Rattle.pkg_world.specs.Outside.{PutGives, PutFaultRose};

use std::alloc::Global;

/// How printing a piece ended.
#[derive(Debug, Drop)]
pub enum PutAnswer {
    /// The piece was appended.
    Done,
    /// A prefix of the piece was appended, and the count of faults rose.
    Failed,
    /// Nothing was appended.
    Memory,
}

/// Where text is printed. Contracts see the text so far, where the sink tells it, and the count of faults.
pub trait Sink {
    ghost text: { Self → Option (List ℕ) };

    ghost faults: { Self → ℕ };

    /// Appends the piece.
    fn put(&mut self, alloc: Global, piece: &[u8]) -> PutAnswer
        ensures answer { PutGives piece.now (text self.old) (text self.new) result }
        ensures later { faults self.old ≤ faults self.new }
        ensures failed { PutFaultRose result (faults self.old) (faults self.new) };
}
