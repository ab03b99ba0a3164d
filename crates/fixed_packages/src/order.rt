//! The order in which fixed packages are read.
ghost use Rattle.std.specs.Prelude.{◌≡◌, IfOk, OnOk};
ghost use Rattle.fixed_packages.specs.FixedPackages as spec;

use crate::basis::Basis;
use crate::candidate::Candidate;
use crate::name_key::NameKey;
use std::alloc::{AllocError, Global};
use std::collections::{BTreeMap, VecDeque};
use uuid::Uuid;

/// Candidates by their identifiers.
type ById = BTreeMap<Uuid, Candidate>;

/// What is known of each package, by its name and identifier.
pub(crate) type ByName = BTreeMap<(NameKey, Uuid), Basis>;

/// The packages by name and identifier; of several of one identifier the first counts.
pub(crate) fn in_order(alloc: Global, candidates: VecDeque<Candidate>) -> Result<ByName, AllocError>
    ensures { IfOk result (λ packages. packages.entries ≡ spec.by_name (spec.by_id candidates.items)) }
{
    let found = by_id(alloc, candidates)?;
    by_name(alloc, found)
}

fn by_id(alloc: Global, candidates: VecDeque<Candidate>) -> Result<ById, AllocError>
    ensures { IfOk result (λ found. found.entries ≡ spec.by_id candidates.items) }
{
    let mut found = BTreeMap::new(alloc);
    let mut left = candidates;
    'candidates: while let Some(candidate) = left.pop_front() {
        put_first(&mut found, candidate)?;
    }
    Ok(found)
}

/// Puts a candidate to the others, unless its identifier is there.
fn put_first(found: &mut ById, candidate: Candidate) -> Result<(), AllocError>
    ensures { OnOk result (found.new.entries ≡ spec.put_first found.old.entries candidate) }
{
    let uuid = candidate.uuid;
    if found.contains_key(&uuid) {
        return Ok(());
    }
    found.insert(uuid, candidate)?;
    Ok(())
}

fn by_name(alloc: Global, found: ById) -> Result<ByName, AllocError>
    ensures { IfOk result (λ packages. packages.entries ≡ spec.by_name found.entries) }
{
    let mut packages = BTreeMap::new(alloc);
    let mut left = found;
    'candidates: while let Some(entry) = left.pop_first() {
        put_named(&mut packages, entry)?;
    }
    Ok(packages)
}

fn put_named(packages: &mut ByName, entry: (Uuid, Candidate)) -> Result<(), AllocError>
    ensures { OnOk result (packages.new.entries ≡ spec.put_named packages.old.entries entry) }
{
    let (_, candidate) = entry;
    let Candidate { name, uuid, basis } = candidate;
    packages.insert((name, uuid), basis)?;
    Ok(())
}
