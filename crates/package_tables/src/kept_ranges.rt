//! The ranges of a compat entry, with no room that contracts see.
ghost use Rattle.std.specs.Prelude.{◌≡◌, IfOk, OnOk, [], ◌∷◌, ◌++◌};

use compat_spec::{Range, RangeSet};
use std::alloc::{AllocError, Global};
use std::marker::Model;

/// The ranges of a compat entry, in order.
#[derive(Drop)]
pub(crate) struct KeptRanges {
    set: RangeSet,
}

impl Model for KeptRanges {
    ghost use Rattle.std.specs.Prelude.{List};
    ghost use Rattle.compat_spec.specs.Ranges.{Ranged};

    ghost Value = { List Ranged };

    ghost view = { λ kept. kept.set.items };
}

impl KeptRanges {
    pub(crate) fn make(alloc: Global) -> KeptRanges
        ensures { result ≡ [] }
    {
        KeptRanges {
            set: RangeSet::make(alloc),
        }
    }

    pub(crate) fn push(&mut self, range: Range) -> Result<(), AllocError>
        ensures { OnOk result (self.new ≡ self.old ++ range ∷ []) }
    {
        self.set.push(range)
    }

    /// A copy of that set's ranges.
    pub(crate) fn copy_of(alloc: Global, set: &RangeSet) -> Result<KeptRanges, AllocError>
        ensures { IfOk result (λ kept. kept ≡ set.now.items) }
    {
        Ok(KeptRanges {
            set: set.copy(alloc)?,
        })
    }

    /// The ranges, in order.
    pub(crate) fn items(&self) -> &[Range]
        ensures { result.now ≡ self.now }
    {
        self.set.items()
    }

    pub(crate) fn into_set(self) -> RangeSet
        ensures { result.items ≡ self }
    {
        let KeptRanges { set } = self;
        set
    }
}
