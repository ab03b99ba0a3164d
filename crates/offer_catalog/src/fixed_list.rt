//! Fixed packages as a list.
ghost use Rattle.std.specs.Prelude.{◌≡◌, map, IfOk};
ghost use Rattle.offer_terms.specs.Demanded.{fixed_said};
ghost use Rattle.offer_catalog.specs.Catalogued as spec;

use fixed_packages::{FixedPackages, Given, GivenParts};
use offer_terms::{Fixed, FixedList};
use pkg_world::Listed;
use std::alloc::{AllocError, Global};
use uuid::Uuid;

/// The list of these packages, in the order of their identifiers. The one error is want of memory.
pub(crate) fn fixed_list(alloc: Global, packages: FixedPackages) -> Result<FixedList, AllocError>
    ensures { IfOk result (λ list. map fixed_said list.items ≡ map spec.fixed_of packages.entries) }
{
    let mut list = Listed::make(alloc);
    // The call tells the proof that the identifiers rise.
    let _count = packages.len();
    let mut left = packages;
    'packages: while let Some(entry) = left.pop_first() {
        let fixed = fixed_of(entry);
        list.push(fixed)?;
    }
    Ok(FixedList::of(list))
}

fn fixed_of(entry: (Uuid, Given)) -> Fixed
    ensures said { fixed_said result ≡ spec.fixed_of entry }
    ensures uuid { result.uuid ≡ entry.0 }
{
    let (uuid, given) = entry;
    let parts = given.into_parts();
    let GivenParts {
        name,
        version,
        deps,
        weak,
        compat,
        origin,
        extensions,
    } = parts;
    Fixed {
        uuid,
        name,
        version,
        deps,
        weak,
        compat,
        origin,
        extensions,
    }
}
