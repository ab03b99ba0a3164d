//! The packages that may be raised.
ghost use Rattle.std.specs.Prelude.{◌≡◌, ◌<◌, length, slice_set, true};
ghost use Rattle.raise_pass.specs.Reached.{IsUnmarkedBelow};

use crate::reaching::set;

/// The packages that may be raised: of every other it is known that it can't be.
#[derive(Drop)]
pub(crate) struct Loose {
    /// For each package whether it may be raised.
    pub(crate) marks: Vec<bool>,
    /// No package below this one is marked.
    pub(crate) first: u32,
}

impl Loose {
    /// Marks p.
    pub(crate) fn add(&mut self, p: u32)
        requires known { p < length self.old.marks.items }
        requires below { IsUnmarkedBelow self.old.first self.old.marks.items }
        ensures marks { self.new.marks.items ≡ slice_set self.old.marks.items p true }
        ensures below { IsUnmarkedBelow self.new.first self.new.marks.items }
    {
        set(&mut self.marks, p, true);
        self.first = self.first.min(p);
    }
}
