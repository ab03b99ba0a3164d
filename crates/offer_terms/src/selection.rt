//! Selections: versions of packages.
ghost use Rattle.std.specs.Prelude.{◌≡◌, option_copied};
ghost use Rattle.offer_terms.specs.Offered.{version_in};

use crate::by_id::{ById, Identified};
use jl_versions::Version;
use uuid::Uuid;

impl Identified for (Uuid, Version) {
    ghost id_of = { λ it. it.0 };

    fn uuid(&self) -> &Uuid {
        &self.0
    }
}

/// The selected versions in the order of their packages' identifiers, each package once.
pub type Selection = ById<(Uuid, Version)>;

impl ById<(Uuid, Version)> {
    /// The selected version of the package, None where it isn't selected. Takes no memory; by binary search.
    pub fn version_of(&self, uuid: &Uuid) -> Option<&Version>
        ensures { option_copied result ≡ version_in self.now.items uuid.now }
    {
        match self.get(uuid) {
            Some(pair) => Some(version_of_pair(pair)),
            None => None,
        }
    }
}

fn version_of_pair(pair: &(Uuid, Version)) -> &Version
    ensures { result.now ≡ pair.now.1 }
{
    &pair.1
}
