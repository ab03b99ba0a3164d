//! The states of a package with what they weigh for a neighbour.
ghost use Rattle.std.specs.Prelude.{◌≡◌, ◌≢◌, ◌<◌, ◌≤◌, ◌^◌, ◌&&◌, ◌++◌, ◌∷◌, [], ℕ, Bool, true, not, length, slice_index, slice_index_or, vec_capacity};
ghost use Rattle.std.specs.List.{All};
ghost use Rattle.version_graph.specs.Graph.{packages, states, is_forbidden};
ghost use Rattle.version_graph.specs.Domain.{has, row};
ghost use Rattle.maxsum_messages.specs.Greatest.{IsGreatest};
ghost use Rattle.maxsum_messages.specs.Round.{weight_for};
ghost use Rattle.maxsum_messages.specs.Weighed.{AreWeighed, AreRising};

use crate::fields::Fields;
use crate::inbox::{Inbox, place_of};
use lex_weights::Weight;
use version_graph::{Domains, Instance};

/// Appends a weight with its state into the room that is there.
fn append<W: Weight>(list: &mut Vec<(W, u32)>, weight: W, i: u32)
    requires { length list.old.items < vec_capacity list.old }
    ensures items { list.new.items ≡ list.old.items ++ (weight, i) ∷ [] }
    ensures room { vec_capacity list.old ≤ vec_capacity list.new }
{
    match list.push((weight, i)) {
        Ok(()) => {}
        Err(_) => unreachable!(),
    }
}

/// Lists the states of p's domain with what they weigh for q.
fn list<W: Weight>(
    inbox: &Inbox<W>,
    fields: &Fields<W>,
    domains: &Domains,
    p: u32,
    q: u32,
    weighed: &mut Vec<(W, u32)>,
)
    requires known { p < length inbox.now.sizes }
    requires field_row { p < length fields.now }
    requires field_places { length (slice_index_or fields.now p []) ≡ slice_index inbox.now.sizes p }
    requires domain_row { p < length domains.now }
    requires domain_places { length (row domains.now p) ≡ slice_index inbox.now.sizes p }
    requires room { slice_index inbox.now.sizes p ≤ vec_capacity weighed.old }
    ensures weighed { AreWeighed (has domains.now p) (weight_for W.none W.plus fields.now inbox.now q p) weighed.new.items }
    ensures each { All (λ x. W.is_within (2 ^ 52) x.0 × (x.1 < slice_index inbox.now.sizes p)) weighed.new.items }
    ensures room { vec_capacity weighed.old ≤ vec_capacity weighed.new }
{
    let place = place_of(inbox.senders(p), q);
    weighed.clear();
    for i in 0..inbox.size(p) {
        if domains.has(p, i) {
            append(weighed, inbox.weight(fields, p, i, q, place), i);
        }
    }
}

/// Lists the states of p's domain with what they weigh for q, the least weight first.
pub(crate) fn weigh<W: Weight>(
    inbox: &Inbox<W>,
    fields: &Fields<W>,
    domains: &Domains,
    p: u32,
    q: u32,
    weighed: &mut Vec<(W, u32)>,
)
    requires known { p < length inbox.now.sizes }
    requires field_row { p < length fields.now }
    requires field_places { length (slice_index_or fields.now p []) ≡ slice_index inbox.now.sizes p }
    requires domain_row { p < length domains.now }
    requires domain_places { length (row domains.now p) ≡ slice_index inbox.now.sizes p }
    requires room { slice_index inbox.now.sizes p ≤ vec_capacity weighed.old }
    ensures weighed { AreWeighed (has domains.now p) (weight_for W.none W.plus fields.now inbox.now q p) weighed.new.items }
    ensures rising { AreRising (W.is_within (2 ^ 52)) W.cmp (slice_index inbox.now.sizes p) weighed.new.items }
    ensures room { vec_capacity weighed.old ≤ vec_capacity weighed.new }
{
    list(inbox, fields, domains, p, q, weighed);
    weighed.sort_unstable();
}

/// The greatest listed weight of a state of p that is allowed with the state j of q: the first one from the end. It is
/// zero where no listed state is allowed.
pub(crate) fn best_partner<W: Weight>(
    instance: &Instance,
    p: u32,
    q: u32,
    j: u32,
    weighed: &[(W, u32)],
) -> W
    requires first { p < packages instance.now }
    requires second { q < packages instance.now }
    requires second_state { j < states instance.now q }
    requires apart { p ≢ q }
    requires rising { AreRising (W.is_within (2 ^ 52)) W.cmp (states instance.now p) weighed.now }
    ensures best { (test : ℕ → Bool) (value : ℕ → W) (i : ℕ) → AreWeighed test value weighed.now → (test i && not (is_forbidden instance.now p i q j)) ≡ true →
        IsGreatest W.cmp (λ k. test k && not (is_forbidden instance.now p k q j)) value result }
    ensures small { W.is_within (2 ^ 52) result }
{
    let count = weighed.len();
    for k in 0..count {
        let (weight, i) = weighed[count - 1 - k];
        if instance.allowed(p, i, q, j) {
            return weight;
        }
    }
    W::zero()
}
