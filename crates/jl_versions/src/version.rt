//! A version and its three numbers.

ghost use Rattle.std.specs.Prelude.{◌≡◌, IfOk, [], ◌∷◌, slice_get, Some};
ghost use Rattle.jl_versions.specs.Triple.{triple_of, release};

use crate::ident::Idents;
use std::alloc::{AllocError, Global};

/// A version as Julia numbers them: three numbers, the identifiers of a pre-release and those of a
/// build. No identifiers means that there is no pre-release, or no build.
#[derive(Drop)]
pub struct Version {
    pub major: u32,
    pub minor: u32,
    pub patch: u32,
    pub pre: Idents,
    pub build: Idents,
}

impl Version {
    /// The version with these numbers, without pre-release and build. Takes no memory.
    pub fn of(alloc: Global, triple: [u32; 3]) -> Version
        ensures { result ≡ release triple }
    {
        let [major, minor, patch] = triple;
        Version {
            major,
            minor,
            patch,
            pre: Idents::make(alloc),
            build: Idents::make(alloc),
        }
    }

    /// The three numbers: major, minor, patch. Takes no memory.
    pub fn triple(&self) -> [u32; 3]
        ensures { result ≡ triple_of self.now }
    {
        [self.major, self.minor, self.patch]
    }

    /// An equal version, unless memory runs out.
    pub fn copy(&self, alloc: Global) -> Result<Version, AllocError>
        ensures { IfOk result (λ copy. copy ≡ self.now) }
    {
        Ok(Version {
            major: self.major,
            minor: self.minor,
            patch: self.patch,
            pre: self.pre.copy(alloc)?,
            build: self.build.copy(alloc)?,
        })
    }
}
