//! The world of a number.
ghost use Rattle.std.specs.Prelude.{IfOk};
ghost use Rattle.pkg_world.specs.Held.{sure_files};
ghost use Rattle.world_maker.specs.Laid.{HasExactly};
ghost use Rattle.world_maker.specs.World.{world};

use crate::files::world_files;
use crate::laying::lay_all;
use pkg_world::SureStore;
use std::alloc::{AllocError, Global};

/// How many packages a world has.
const PACKAGES: u64 = 300;

/// The world of a number (own rule): a project in `/p` that depends on ten packages, and a registry in the depot `/d` of
/// three hundred packages with eight versions each, whose dependencies and ranges are drawn from the number. The versions
/// that were drawn first meet every range, so the project can be resolved. The store has the stated files and their folders,
/// and nothing else; the text of each file reads as its stated table. The one error is want of memory.
pub fn make_world(alloc: Global, number: u64) -> Result<SureStore, AllocError>
    ensures { IfOk result (λ store. HasExactly (world number) (sure_files store)) }
{
    let files = world_files(alloc, number, PACKAGES)?;
    lay_all(alloc, &files)
}
