//! The generator of numbers.
ghost use Rattle.std.specs.Prelude.{◌≡◌, ◌<◌, IfOk};
ghost use Rattle.world_maker.specs.Draws.{stepped, drawn, state};
ghost use Rattle.world_maker.specs.Drawn.{starts_from};

use std::alloc::{AllocError, Global};

/// A state from which numbers are drawn.
#[derive(Drop)]
pub(crate) struct Draws {
    pub(crate) state: u64,
}

impl Draws {
    /// The next number below a count.
    pub(crate) fn draw(&mut self, count: u64) -> u64
        requires { 0 < count }
        ensures drawn { result ≡ drawn self.old.state count }
        ensures next { self.new.state ≡ stepped self.old.state }
    {
        self.state = self
            .state
            .wrapping_mul(6_364_136_223_846_793_005)
            .wrapping_add(1_442_695_040_888_963_407);
        (self.state >> 33) % count
    }
}

/// For each package, the version whose numbers meet every range on it.
pub(crate) fn starts(alloc: Global, draws: &mut Draws, count: u64) -> Result<Vec<u64>, AllocError>
    ensures drawn { IfOk result (λ starts. starts.items ≡ starts_from draws.old.state count) }
    ensures next { IfOk result (λ _. draws.new.state ≡ state draws.old.state count) }
{
    let mut starts = Vec::new(alloc);
    'starts: for _package in 0..count {
        starts.push(draws.draw(8))?;
    }
    Ok(starts)
}
