//! What an entry allows: a project's specifier, or a registry's ranges.

ghost use Rattle.std.specs.Prelude.{◌≡◌, IfOk};
ghost use Rattle.jl_versions.specs.Triple.{triple_of};
ghost use Rattle.compat_spec.specs.Admitted.{allowed_holds, SameAllowed};

use crate::range_set::RangeSet;
use crate::spec::Spec;
use jl_versions::Version;
use std::alloc::{AllocError, Global};

/// What a compat entry allows.
#[derive(Drop)]
pub enum Allowed {
    /// A specifier, as a project writes it.
    Spec(Spec),
    /// Ranges, as a registry writes them: what one of them holds is allowed.
    Ranges(RangeSet),
}

impl Allowed {
    /// Whether the version is allowed, by its three numbers. Takes no memory.
    pub fn holds(&self, v: &Version) -> bool
        ensures { result ≡ allowed_holds self.now (triple_of v.now) }
    {
        match self {
            Allowed::Spec(spec) => spec.holds(v),
            Allowed::Ranges(set) => set.holds(v),
        }
    }

    /// An equal value. The one error is want of memory.
    pub fn copy(&self, alloc: Global) -> Result<Allowed, AllocError>
        ensures { IfOk result (SameAllowed self.now) }
    {
        match self {
            Allowed::Spec(spec) => {
                let copied = spec.copy(alloc)?;
                Ok(Allowed::Spec(copied))
            }
            Allowed::Ranges(set) => {
                let copied = set.copy(alloc)?;
                Ok(Allowed::Ranges(copied))
            }
        }
    }
}
