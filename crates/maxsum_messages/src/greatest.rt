//! The greatest of some weights, and how far one is above another.
ghost use Rattle.std.specs.Prelude.{◌≡◌, ◌<◌, ◌≤◌, ◌^◌, ℕ, true, length, slice_index_or, if◌then◌else◌};
ghost use Rattle.version_graph.specs.Domain.{has, row};
ghost use Rattle.std.specs.Ordering.{is_gt};
ghost use Rattle.maxsum_messages.specs.Greatest.{IsGreatest};
ghost use Rattle.maxsum_messages.specs.Searched.{raised};

use lex_weights::Weight;
use version_graph::Domains;

/// The greater of the two, where the second is wanted; the first one on a tie.
pub(crate) fn raised<W: Weight>(best: Option<W>, weight: W, wanted: bool) -> Option<W>
    ensures { result ≡ raised W.cmp best weight wanted }
{
    if !wanted {
        return best;
    }
    match best {
        Some(other) => Some(greater(other, weight)),
        None => Some(weight),
    }
}

/// The greater of the two, the first one on a tie.
fn greater<W: Weight>(first: W, second: W) -> W
    ensures { result ≡ (if is_gt (W.cmp second first) then second else first) }
{
    if second.cmp(&first).is_gt() {
        second
    } else {
        first
    }
}

/// The first weight less the second one.
pub(crate) fn less<W: Weight>(first: W, second: W) -> W
    requires first { W.is_within (2 ^ 52) first }
    requires second { W.is_within (2 ^ 52) second }
    ensures { result ≡ W.minus first second }
{
    first.minus(second)
}

/// The greatest weight of a state of q's domain. There is one.
pub(crate) fn best_state<W: Weight>(domains: &Domains, q: u32, count: u32, weights: &[W]) -> W
    requires known { q < length domains.now }
    requires states { length (row domains.now q) ≡ count }
    requires room { count ≤ length weights.now }
    requires some { (i : ℕ) × (has domains.now q i ≡ true) }
    ensures { IsGreatest W.cmp (has domains.now q) (λ i. slice_index_or weights.now i W.none) result }
{
    let mut best = None;
    for i in 0..count {
        best = raised(best, weights[i as usize], domains.has(q, i));
    }
    match best {
        Some(weight) => weight,
        None => W::zero(),
    }
}
