//! Which package is decided next, and in which order its states are tried.
ghost use Rattle.std.specs.Prelude.{◌≡◌, ◌≢◌, ◌<◌, ◌≤◌, ◌^◌, ◌&&◌, [], ℕ, true, false, not, length, slice_index, slice_index_or, IfSome, MatchOption, if◌then◌else◌, vec_capacity, ◌+◌, ◌-◌};
ghost use Rattle.std.specs.Ordering.{is_gt, is_lt};
ghost use Rattle.version_graph.specs.Domain.{has, row};
ghost use Rattle.maxsum_messages.specs.Belief.{belief};
ghost use Rattle.maxsum_messages.specs.Greatest.{IsGreatest};
ghost use Rattle.maxsum_messages.specs.Choice.{IsSingle, IsChosen, IsFalling, AreInOrder, standing};
ghost use Rattle.maxsum_messages.specs.Searched.{raised, is_skipped, leading, package_of, HasLead, AreInOrderBelow, IsSplit};
ghost use Rattle.maxsum_messages.specs.Kept.{AreAligned};

use crate::fields::Fields;
use crate::greatest::less;
use crate::inbox::Inbox;
use crate::order::is_before;
use lex_weights::Weight;
use version_graph::Domains;

/// Whether the state i is in p's domain and isn't the one that is passed over.
fn is_other(domains: &Domains, p: u32, i: u32, skip: Option<u32>) -> bool
    requires known { p < length domains.now }
    requires state { i < length (row domains.now p) }
    ensures { result ≡ (has domains.now p i && not (is_skipped skip i)) }
{
    match skip {
        Some(other) => domains.has(p, i) && i != other,
        None => domains.has(p, i),
    }
}

/// The state of p with the greater belief, where the second is wanted; the first one on a tie.
fn better<W: Weight>(
    inbox: &Inbox<W>,
    fields: &Fields<W>,
    p: u32,
    best: Option<u32>,
    i: u32,
    wanted: bool,
) -> Option<u32>
    requires known { p < length inbox.now.sizes }
    requires field_row { p < length fields.now }
    requires field_places { length (slice_index_or fields.now p []) ≡ slice_index inbox.now.sizes p }
    requires state { i < slice_index inbox.now.sizes p }
    requires other_state { IfSome best (λ k. k < slice_index inbox.now.sizes p) }
    ensures { result ≡ raised (λ a b. W.cmp (belief W.none W.plus fields.now inbox.now p a) (belief W.none W.plus fields.now inbox.now p b)) best i wanted }
{
    if !wanted {
        return best;
    }
    match best {
        Some(k) => Some(greater_state(inbox, fields, p, k, i)),
        None => Some(i),
    }
}

/// The one of two states of p with the greater belief, the first one on a tie.
fn greater_state<W: Weight>(inbox: &Inbox<W>, fields: &Fields<W>, p: u32, k: u32, i: u32) -> u32
    requires known { p < length inbox.now.sizes }
    requires field_row { p < length fields.now }
    requires field_places { length (slice_index_or fields.now p []) ≡ slice_index inbox.now.sizes p }
    requires first { k < slice_index inbox.now.sizes p }
    requires second { i < slice_index inbox.now.sizes p }
    ensures { result ≡ (if is_gt (W.cmp (belief W.none W.plus fields.now inbox.now p i) (belief W.none W.plus fields.now inbox.now p k)) then i else k) }
{
    let first = inbox.belief(fields, p, k);
    let second = inbox.belief(fields, p, i);
    if second.cmp(&first).is_gt() { i } else { k }
}

/// The state of p's domain with the greatest belief but the one that is passed over, if there is one.
fn best_but<W: Weight>(
    inbox: &Inbox<W>,
    fields: &Fields<W>,
    domains: &Domains,
    p: u32,
    skip: Option<u32>,
) -> Option<u32>
    requires known { p < length inbox.now.sizes }
    requires aligned { AreAligned inbox.now.sizes fields.now domains.now }
    ensures { MatchOption result ((i : ℕ) → (has domains.now p i && not (is_skipped skip i)) ≡ true → ⊥) (λ k. IsGreatest (λ a b. W.cmp (belief W.none W.plus fields.now inbox.now p a) (belief W.none W.plus fields.now inbox.now p b)) (λ i. has domains.now p i && not (is_skipped skip i)) (λ i. i) k) }
{
    let mut best = None;
    for i in 0..inbox.size(p) {
        best = better(inbox, fields, p, best, i, is_other(domains, p, i, skip));
    }
    best
}

/// How far the best belief of a state of p's domain is above the second best, if there are two states.
fn lead_of<W: Weight>(inbox: &Inbox<W>, fields: &Fields<W>, domains: &Domains, p: u32) -> Option<W>
    requires known { p < length inbox.now.sizes }
    requires aligned { AreAligned inbox.now.sizes fields.now domains.now }
    ensures { HasLead W.cmp W.minus (has domains.now p) (belief W.none W.plus fields.now inbox.now p) result }
{
    let first = match best_but(inbox, fields, domains, p, None) {
        Some(first) => first,
        None => return None,
    };
    match best_but(inbox, fields, domains, p, Some(first)) {
        Some(second) => Some(difference(inbox, fields, p, first, second)),
        None => None,
    }
}

/// How far the belief of the first state is above that of the second.
fn difference<W: Weight>(inbox: &Inbox<W>, fields: &Fields<W>, p: u32, first: u32, second: u32) -> W
    requires known { p < length inbox.now.sizes }
    requires field_row { p < length fields.now }
    requires field_places { length (slice_index_or fields.now p []) ≡ slice_index inbox.now.sizes p }
    requires first { first < slice_index inbox.now.sizes p }
    requires second { second < slice_index inbox.now.sizes p }
    ensures { result ≡ W.minus (belief W.none W.plus fields.now inbox.now p first) (belief W.none W.plus fields.now inbox.now p second) }
{
    let first = inbox.belief(fields, p, first);
    let second = inbox.belief(fields, p, second);
    less(first, second)
}

/// The package with the greater lead; the first one on a tie.
fn leading<W: Weight>(best: Option<(u32, W)>, p: u32, lead: Option<W>) -> Option<(u32, W)>
    ensures { result ≡ leading W.cmp best p lead }
{
    match lead {
        None => best,
        Some(lead) => match best {
            None => Some((p, lead)),
            Some((q, other)) => {
                if lead.cmp(&other).is_gt() {
                    Some((p, lead))
                } else {
                    Some((q, other))
                }
            }
        },
    }
}

/// The package whose best belief is the furthest above its second best, the least number on a tie; None
/// where every domain has one state.
pub(crate) fn most_decisive<W: Weight>(
    inbox: &Inbox<W>,
    fields: &Fields<W>,
    domains: &Domains,
) -> Option<u32>
    requires { AreAligned inbox.now.sizes fields.now domains.now }
    ensures { MatchOption result ((p : ℕ) → p < length inbox.now.sizes → IsSingle (has domains.now p)) (IsChosen W.cmp W.minus (length inbox.now.sizes) (has domains.now) (belief W.none W.plus fields.now inbox.now)) }
{
    let mut best = None;
    for p in 0..inbox.len() {
        best = leading(best, p, lead_of(inbox, fields, domains, p));
    }
    package_of(best)
}

/// The package of the lead, if there is one.
fn package_of<W: Weight>(best: Option<(u32, W)>) -> Option<u32>
    ensures { result ≡ package_of best }
{
    match best {
        Some((p, _)) => Some(p),
        None => None,
    }
}

/// Whether the state i of p is tried before the state j.
fn is_first<W: Weight>(inbox: &Inbox<W>, fields: &Fields<W>, p: u32, i: u32, j: u32) -> bool
    requires known { p < length inbox.now.sizes }
    requires field_row { p < length fields.now }
    requires field_places { length (slice_index_or fields.now p []) ≡ slice_index inbox.now.sizes p }
    requires first { i < slice_index inbox.now.sizes p }
    requires second { j < slice_index inbox.now.sizes p }
    ensures { result ≡ is_lt (standing W.cmp (belief W.none W.plus fields.now inbox.now p) i j) }
{
    let first = inbox.belief(fields, p, i);
    let second = inbox.belief(fields, p, j);
    is_before(first, i, second, j)
}

/// The places from the first number up to the second one, without it.
#[derive(Clone, Copy)]
struct Span {
    low: usize,
    high: usize,
}

/// The half of the span in which the place of the state i of p is.
fn halve<W: Weight>(
    inbox: &Inbox<W>,
    fields: &Fields<W>,
    p: u32,
    states: &[u32],
    i: u32,
    span: Span,
    middle: usize,
) -> Span
    requires known { p < length inbox.now.sizes }
    requires field_row { p < length fields.now }
    requires field_places { length (slice_index_or fields.now p []) ≡ slice_index inbox.now.sizes p }
    requires state { i < slice_index inbox.now.sizes p }
    requires below { (k : ℕ) → k < length states.now → slice_index states.now k < i }
    requires falling { IsFalling W.cmp (belief W.none W.plus fields.now inbox.now p) states.now }
    requires above_low { span.low ≤ middle }
    requires below_high { middle < span.high }
    requires split { IsSplit W.cmp (belief W.none W.plus fields.now inbox.now p) states.now i span.low span.high }
    ensures split { IsSplit W.cmp (belief W.none W.plus fields.now inbox.now p) states.now i result.low result.high }
    ensures less { result.high - result.low < span.high - span.low }
{
    if is_first(inbox, fields, p, states[middle], i) {
        Span {
            low: middle + 1,
            high: span.high,
        }
    } else {
        Span {
            low: span.low,
            high: middle,
        }
    }
}

/// The place of the state i of p among those that stand in order, by halving.
fn place_for<W: Weight>(
    inbox: &Inbox<W>,
    fields: &Fields<W>,
    p: u32,
    states: &[u32],
    i: u32,
) -> usize
    requires known { p < length inbox.now.sizes }
    requires field_row { p < length fields.now }
    requires field_places { length (slice_index_or fields.now p []) ≡ slice_index inbox.now.sizes p }
    requires state { i < slice_index inbox.now.sizes p }
    requires below { (k : ℕ) → k < length states.now → slice_index states.now k < i }
    requires falling { IsFalling W.cmp (belief W.none W.plus fields.now inbox.now p) states.now }
    ensures { IsSplit W.cmp (belief W.none W.plus fields.now inbox.now p) states.now i result result }
{
    let mut span = Span {
        low: 0,
        high: states.len(),
    };
    'halving: while span.low < span.high {
        let middle = span.low + (span.high - span.low) / 2;
        span = halve(inbox, fields, p, states, i, span, middle);
    }
    span.low
}

/// Puts the state i of p's domain into its place.
fn insert_state<W: Weight>(
    inbox: &Inbox<W>,
    fields: &Fields<W>,
    domains: &Domains,
    p: u32,
    i: u32,
    states: &mut Vec<u32>,
)
    requires known { p < length inbox.now.sizes }
    requires aligned { AreAligned inbox.now.sizes fields.now domains.now }
    requires state { i < slice_index inbox.now.sizes p }
    requires there { has domains.now p i ≡ true }
    requires room { length states.old.items < vec_capacity states.old }
    requires sorted { AreInOrderBelow W.cmp i (has domains.now p) (belief W.none W.plus fields.now inbox.now p) states.old.items }
    ensures sorted { AreInOrderBelow W.cmp (i + 1) (has domains.now p) (belief W.none W.plus fields.now inbox.now p) states.new.items }
    ensures longer { length states.new.items ≤ length states.old.items + 1 }
    ensures room { vec_capacity states.old ≤ vec_capacity states.new }
{
    let place = place_for(inbox, fields, p, states.as_slice(), i);
    match states.insert(place, i) {
        Ok(()) => {}
        Err(_) => unreachable!(),
    }
}

/// Puts the state i of p into its place, if it is in p's domain.
fn insert_if<W: Weight>(
    inbox: &Inbox<W>,
    fields: &Fields<W>,
    domains: &Domains,
    p: u32,
    i: u32,
    states: &mut Vec<u32>,
)
    requires known { p < length inbox.now.sizes }
    requires aligned { AreAligned inbox.now.sizes fields.now domains.now }
    requires state { i < slice_index inbox.now.sizes p }
    requires room { length states.old.items < vec_capacity states.old }
    requires sorted { AreInOrderBelow W.cmp i (has domains.now p) (belief W.none W.plus fields.now inbox.now p) states.old.items }
    ensures sorted { AreInOrderBelow W.cmp (i + 1) (has domains.now p) (belief W.none W.plus fields.now inbox.now p) states.new.items }
    ensures longer { length states.new.items ≤ length states.old.items + 1 }
    ensures room { vec_capacity states.old ≤ vec_capacity states.new }
{
    if !domains.has(p, i) {
        return;
    }
    insert_state(inbox, fields, domains, p, i, states);
}

/// Lists the states of p's domain, the one with the greatest belief first, and of equal beliefs that with
/// the greater number.
pub(crate) fn fill<W: Weight>(
    inbox: &Inbox<W>,
    fields: &Fields<W>,
    domains: &Domains,
    p: u32,
    states: &mut Vec<u32>,
)
    requires known { p < length inbox.now.sizes }
    requires aligned { AreAligned inbox.now.sizes fields.now domains.now }
    requires room { slice_index inbox.now.sizes p ≤ vec_capacity states.old }
    ensures order { AreInOrder W.cmp (has domains.now p) (belief W.none W.plus fields.now inbox.now p) states.new.items }
    ensures room { vec_capacity states.old ≤ vec_capacity states.new }
{
    states.clear();
    for i in 0..inbox.size(p) {
        insert_if(inbox, fields, domains, p, i, states);
    }
}
