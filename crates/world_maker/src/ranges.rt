//! The ranges of a package's dependencies.
ghost use Rattle.std.specs.Prelude.{◌≡◌, ◌*◌, ◌<◌, length, get_or, IfOk};
ghost use Rattle.std.specs.List.{AllByRecursion};
ghost use Rattle.world_maker.specs.Draws.{stepped, state};
ghost use Rattle.world_maker.specs.Drawn.{span_at, spans_from};

use crate::draws::Draws;
use std::alloc::{AllocError, Global};

/// The minor numbers of the versions that are allowed, both ends among them.
#[derive(Clone, Copy)]
pub(crate) struct Span {
    pub(crate) low: u64,
    pub(crate) high: u64,
}

/// Eight ranges for each dependency of a package, in the order of the dependencies.
pub(crate) fn spans_of(
    alloc: Global,
    draws: &mut Draws,
    starts: &[u64],
    needs: &[u64],
) -> Result<Vec<Span>, AllocError>
    requires small { AllByRecursion (λ start. start < 8) starts.now }
    requires known { AllByRecursion (λ need. need < length starts.now) needs.now }
    ensures drawn { IfOk result (λ spans. spans.items ≡ spans_from draws.old.state starts.now needs.now) }
    ensures next { IfOk result (λ _. draws.new.state ≡ state draws.old.state (16 * length needs.now)) }
{
    let mut spans = Vec::new(alloc);
    'spans: for place in 0..8 * needs.len() {
        let start = start_of(starts, needs, place / 8);
        spans.push(draw_span(draws, start))?;
    }
    Ok(spans)
}

/// The version of a dependency that meets every range on it.
fn start_of(starts: &[u64], needs: &[u64], place: usize) -> u64
    requires there { place < length needs.now }
    requires small { AllByRecursion (λ start. start < 8) starts.now }
    requires known { AllByRecursion (λ need. need < length starts.now) needs.now }
    ensures found { result ≡ get_or starts.now (get_or needs.now place 0) 0 }
    ensures small { result < 8 }
{
    starts[needs[place] as usize]
}

/// A range with that version in it.
fn draw_span(draws: &mut Draws, start: u64) -> Span
    requires { start < 8 }
    ensures drawn { result ≡ span_at draws.old.state start }
    ensures next { draws.new.state ≡ stepped (stepped draws.old.state) }
{
    let low = draws.draw(start + 1);
    let high = start + draws.draw(8 - start);
    Span { low, high }
}
