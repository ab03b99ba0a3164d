//! The dependencies of packages.
ghost use Rattle.std.specs.Prelude.{◌≡◌, ◌+◌, ◌<◌, ◌≤◌, ◌^◌, map, IfOk, OnOk};
ghost use Rattle.world_maker.specs.Draws.{drawn, state};
ghost use Rattle.world_maker.specs.Drawn.{needs_from, with_need, all_needs as all_of, asked};

use crate::draws::Draws;
use std::alloc::{AllocError, Global};

/// The dependencies of a package among so many: up to three of the twenty behind it, each once.
pub(crate) fn needs_of(
    alloc: Global,
    draws: &mut Draws,
    package: u64,
    count: u64,
) -> Result<Vec<u64>, AllocError>
    requires { «package» < 2 ^ 32 }
    ensures drawn { IfOk result (λ needs. needs.items ≡ needs_from draws.old.state «package» count) }
    ensures next { IfOk result (λ _. draws.new.state ≡ state draws.old.state (1 + drawn draws.old.state 4)) }
{
    let tries = draws.draw(4);
    let mut needs = Vec::new(alloc);
    'tries: for _try in 0..tries {
        let other = package + 1 + draws.draw(20);
        push_need(&mut needs, other, count)?;
    }
    Ok(needs)
}

/// Appends a dependency where there is such a package, and it isn't one yet.
fn push_need(needs: &mut Vec<u64>, other: u64, count: u64) -> Result<(), AllocError>
    ensures { OnOk result (needs.new.items ≡ with_need count other needs.old.items) }
{
    if other < count && !needs.contains(&other) {
        needs.push(other)?;
    }
    Ok(())
}

/// The dependencies of so many packages.
pub(crate) fn all_needs(
    alloc: Global,
    draws: &mut Draws,
    count: u64,
) -> Result<Vec<Vec<u64>>, AllocError>
    requires { count ≤ 2 ^ 32 }
    ensures drawn { IfOk result (λ all. map (λ needs. needs.items) all.items ≡ all_of draws.old.state count) }
    ensures next { IfOk result (λ _. draws.new.state ≡ state draws.old.state (asked draws.old.state count)) }
{
    let mut all = Vec::new(alloc);
    'needs: for package in 0..count {
        all.push(needs_of(alloc, draws, package, count)?)?;
    }
    Ok(all)
}
