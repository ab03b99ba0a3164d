//! Fixed packages: copies of their list, with one more or one less.
ghost use Rattle.std.specs.Prelude.{◌≡◌, ◌++◌, filter, map, IfOk, OnOk};
ghost use Rattle.offer_terms.specs.Demanded.{fixed_said};
ghost use Rattle.project_changes.specs.Fixing as spec;

use offer_terms::{Fixed, FixedList};
use pkg_world::{Duplicate, Listed};
use std::alloc::{AllocError, Global};
use uuid::Uuid;

/// A list of equal packages. The one error is want of memory.
pub fn fixed_copy(alloc: Global, list: &FixedList) -> Result<FixedList, AllocError>
    ensures { IfOk result (λ other. map fixed_said other.items ≡ map fixed_said list.now.items) }
{
    let items = list.items();
    let mut copies = Listed::make(alloc);
    for fixed in items {
        copies.push(copy_of(alloc, fixed)?)?;
    }
    Ok(FixedList::of(copies))
}

/// A list of equal packages with this one, in place of another one of its identifier. The one error is want of memory.
pub fn with_fixed(alloc: Global, list: &FixedList, given: Fixed) -> Result<FixedList, AllocError>
    ensures { IfOk result (λ other. map fixed_said other.items ≡ spec.with_fixed (fixed_said given) (map fixed_said list.now.items)) }
{
    let items = list.items();
    let uuid = given.uuid;
    let mut copies = Listed::make(alloc);
    push_before(alloc, &mut copies, items, &uuid)?;
    copies.push(given)?;
    push_behind(alloc, &mut copies, items, &uuid)?;
    Ok(FixedList::of(copies))
}

/// Appends equal packages of those whose identifiers come before this one.
fn push_before(
    alloc: Global,
    copies: &mut Listed<Fixed>,
    items: &[Fixed],
    uuid: &Uuid,
) -> Result<(), AllocError>
    ensures { OnOk result (map fixed_said copies.new.items ≡ map fixed_said copies.old.items ++ filter (spec.is_before uuid.now) (map fixed_said items.now)) }
{
    for fixed in items {
        if fixed.uuid.cmp(uuid).is_lt() {
            copies.push(copy_of(alloc, fixed)?)?;
        }
    }
    Ok(())
}

/// Appends equal packages of those whose identifiers come behind this one.
fn push_behind(
    alloc: Global,
    copies: &mut Listed<Fixed>,
    items: &[Fixed],
    uuid: &Uuid,
) -> Result<(), AllocError>
    ensures { OnOk result (map fixed_said copies.new.items ≡ map fixed_said copies.old.items ++ filter (spec.is_behind uuid.now) (map fixed_said items.now)) }
{
    for fixed in items {
        if fixed.uuid.cmp(uuid).is_gt() {
            copies.push(copy_of(alloc, fixed)?)?;
        }
    }
    Ok(())
}

/// A list of equal packages without the one of this identifier. The one error is want of memory.
pub fn without_fixed(alloc: Global, list: &FixedList, uuid: &Uuid) -> Result<FixedList, AllocError>
    ensures { IfOk result (λ other. map fixed_said other.items ≡ spec.without_fixed uuid.now (map fixed_said list.now.items)) }
{
    let items = list.items();
    let mut copies = Listed::make(alloc);
    for fixed in items {
        if *uuid != fixed.uuid {
            copies.push(copy_of(alloc, fixed)?)?;
        }
    }
    Ok(FixedList::of(copies))
}

fn copy_of(alloc: Global, fixed: &Fixed) -> Result<Fixed, AllocError>
    ensures { IfOk result (λ other. fixed_said other ≡ fixed_said fixed.now) }
{
    Ok(Fixed {
        uuid: fixed.uuid,
        name: fixed.name.copy(alloc)?,
        version: fixed.version.copy(alloc)?,
        deps: fixed.deps.copy(alloc)?,
        weak: fixed.weak.copy(alloc)?,
        compat: fixed.compat.copy(alloc)?,
        origin: fixed.origin.copy(alloc)?,
        extensions: fixed.extensions.copy(alloc)?,
    })
}
