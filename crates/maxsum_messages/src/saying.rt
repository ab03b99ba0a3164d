//! One message of a round.
ghost use Rattle.std.specs.Prelude.{◌≡◌, ◌≢◌, ◌<◌, ◌≤◌, ◌^◌, ◌&&◌, ◌||◌, ◌==◌, [], ℕ, true, false, not, length, slice_index, slice_index_or, vec_capacity, if◌then◌else◌};
ghost use Rattle.version_graph.specs.Graph.{packages, states, is_forbidden};
ghost use Rattle.version_graph.specs.Domain.{has, size_of, IsFor, row};
ghost use Rattle.version_graph.specs.Family.{IsStable, IsFilled};
ghost use Rattle.maxsum_messages.specs.Field.{field, AreFieldsFor};
ghost use Rattle.maxsum_messages.specs.Post.{senders_of, IsPostFor};
ghost use Rattle.maxsum_messages.specs.Greatest.{IsGreatest};
ghost use Rattle.maxsum_messages.specs.Round.{weight_for, IsMessage};
ghost use Rattle.maxsum_messages.specs.Kept.{AreSenders, AreShaped, HasRoom};
ghost use Rattle.maxsum_messages.specs.Weighed.{AreWeighed, AreRising};

use crate::fields::Fields;
use crate::greatest::{best_state, less};
use crate::grid::Grid;
use crate::inbox::Inbox;
use crate::weighed::{best_partner, weigh};
use lex_weights::Weight;
use version_graph::{Domains, Instance, one_state_is_left};

/// The greatest listed weight of an allowed partner of the state j, or zero for a state outside q's domain.
fn raw_at<W: Weight>(
    instance: &Instance,
    domains: &Domains,
    p: u32,
    q: u32,
    j: u32,
    weighed: &[(W, u32)],
) -> W
    requires first { p < packages instance.now }
    requires second { q < packages instance.now }
    requires second_state { j < states instance.now q }
    requires apart { p ≢ q }
    requires made { IsFor instance.now domains.now }
    requires closed { IsStable instance.now (has domains.now) }
    requires rising { AreRising (W.is_within (2 ^ 52)) W.cmp (states instance.now p) weighed.now }
    ensures best { has domains.now q j ≡ true → (value : ℕ → W) → AreWeighed (has domains.now p) value weighed.now → IsGreatest W.cmp (λ i. has domains.now p i && not (is_forbidden instance.now p i q j)) value result }
    ensures small { W.is_within (2 ^ 52) result }
{
    if domains.has(q, j) {
        best_partner(instance, p, q, j, weighed)
    } else {
        W::zero()
    }
}

/// Writes the greatest listed weights of allowed partners for each state of q.
fn gather<W: Weight>(
    instance: &Instance,
    domains: &Domains,
    p: u32,
    q: u32,
    weighed: &[(W, u32)],
    raw: &mut Vec<W>,
)
    requires first { p < packages instance.now }
    requires second { q < packages instance.now }
    requires apart { p ≢ q }
    requires made { IsFor instance.now domains.now }
    requires closed { IsStable instance.now (has domains.now) }
    requires rising { AreRising (W.is_within (2 ^ 52)) W.cmp (states instance.now p) weighed.now }
    requires raw_room { states instance.now q ≤ length raw.old.items }
    ensures same { length raw.new.items ≡ length raw.old.items }
    ensures best { (j : ℕ) → has domains.now q j ≡ true → (value : ℕ → W) → AreWeighed (has domains.now p) value weighed.now → IsGreatest W.cmp (λ i. has domains.now p i && not (is_forbidden instance.now p i q j)) value (slice_index_or raw.new.items j W.none) }
    ensures small { (j : ℕ) → j < states instance.now q → W.is_within (2 ^ 52) (slice_index_or raw.new.items j W.none) }
{
    for j in 0..instance.states(q) {
        raw[j as usize] = raw_at(instance, domains, p, q, j, weighed);
    }
}

/// The weight brought down by the greatest one and clipped, or zero for a state outside the domain.
fn lowered<W: Weight>(weight: W, top: W, inside: bool) -> W
    requires weight { W.is_within (2 ^ 52) weight }
    requires top { W.is_within (2 ^ 52) top }
    ensures value { result ≡ (if inside then W.clip (W.minus weight top) else W.none) }
    ensures small { W.is_within (2 ^ 40) result }
{
    if inside {
        less(weight, top).clip()
    } else {
        W::zero()
    }
}

/// Writes the message to q in the row k.
fn lower<W: Weight>(
    domains: &Domains,
    q: u32,
    k: usize,
    size: u32,
    raw: &[W],
    top: W,
    grid: &mut Grid<W>,
)
    requires known { q < length domains.now }
    requires states { length (row domains.now q) ≡ size }
    requires room { size ≤ length raw.now }
    requires small { (j : ℕ) → j < size → W.is_within (2 ^ 52) (slice_index_or raw.now j W.none) }
    requires top { W.is_within (2 ^ 52) top }
    requires grid_row { k < length grid.old }
    requires grid_places { length (slice_index_or grid.old k []) ≡ size }
    ensures each { length grid.new ≡ length grid.old }
    ensures places { (r : ℕ) → length (slice_index_or grid.new r []) ≡ length (slice_index_or grid.old r []) }
    ensures others { (r j : ℕ) → r ≢ k → field W.none grid.new r j ≡ field W.none grid.old r j }
    ensures said { (j : ℕ) → j < size → field W.none grid.new k j ≡ (if has domains.now q j then W.clip (W.minus (slice_index_or raw.now j W.none) top) else W.none) }
    ensures small { (j : ℕ) → j < size → W.is_within (2 ^ 40) (field W.none grid.new k j) }
{
    for j in 0..size {
        let weight = lowered(raw[j as usize], top, domains.has(q, j));
        grid.set(k, j as usize, weight);
    }
}

/// Room for the states of one package with what they weigh, and for what is said to those of another.
#[derive(Drop)]
pub(crate) struct Desk<W> {
    pub(crate) weighed: Vec<(W, u32)>,
    pub(crate) raw: Vec<W>,
}

/// Whether one of the two packages has one state left.
fn is_either_decided(domains: &Domains, p: u32, q: u32) -> bool
    requires first { p < length domains.now }
    requires second { q < length domains.now }
    ensures { result ≡ (size_of domains.now p == 1 || size_of domains.now q == 1) }
{
    domains.size(p) == 1 || domains.size(q) == 1
}

/// Writes the message from p to q in the row k. Where one of them has one state left, it is zero at each state.
fn say<W: Weight>(
    inbox: &Inbox<W>,
    instance: &Instance,
    fields: &Fields<W>,
    domains: &Domains,
    p: u32,
    q: u32,
    k: usize,
    desk: &mut Desk<W>,
    grid: &mut Grid<W>,
)
    requires first { p < packages instance.now }
    requires second { q < packages instance.now }
    requires apart { p ≢ q }
    requires messages { IsPostFor instance.now inbox.now }
    requires fields { AreFieldsFor instance.now fields.now }
    requires made { IsFor instance.now domains.now }
    requires closed { IsStable instance.now (has domains.now) }
    requires filled { IsFilled instance.now (has domains.now) }
    requires room { states instance.now p ≤ vec_capacity desk.old.weighed }
    requires raw_room { states instance.now q ≤ length desk.old.raw.items }
    requires grid_row { k < length grid.old }
    requires grid_places { length (slice_index_or grid.old k []) ≡ states instance.now q }
    ensures same { vec_capacity desk.old.weighed ≤ vec_capacity desk.new.weighed }
    ensures raw_same { length desk.new.raw.items ≡ length desk.old.raw.items }
    ensures each { length grid.new ≡ length grid.old }
    ensures places { (r : ℕ) → length (slice_index_or grid.new r []) ≡ length (slice_index_or grid.old r []) }
    ensures others { (r j : ℕ) → r ≢ k → field W.none grid.new r j ≡ field W.none grid.old r j }
    ensures said { IsMessage W.none W.plus W.minus W.clip W.cmp instance.now (has domains.now) (weight_for W.none W.plus fields.now inbox.now q p) p q (field W.none grid.new k) }
    ensures small { (j : ℕ) → j < states instance.now q → W.is_within (2 ^ 40) (field W.none grid.new k j) }
{
    one_state_is_left();
    if is_either_decided(domains, p, q) {
        grid.clear_row(k);
        return;
    }
    weigh(inbox, fields, domains, p, q, &mut desk.weighed);
    gather(
        instance,
        domains,
        p,
        q,
        desk.weighed.as_slice(),
        &mut desk.raw,
    );
    let size = instance.states(q);
    let top = best_state(domains, q, size, desk.raw.as_slice());
    lower(domains, q, k, size, desk.raw.as_slice(), top, grid);
}

/// Writes all messages to q.
fn hear<W: Weight>(
    inbox: &Inbox<W>,
    instance: &Instance,
    fields: &Fields<W>,
    domains: &Domains,
    q: u32,
    desk: &mut Desk<W>,
    grid: &mut Grid<W>,
)
    requires known { q < packages instance.now }
    requires messages { IsPostFor instance.now inbox.now }
    requires fields { AreFieldsFor instance.now fields.now }
    requires made { IsFor instance.now domains.now }
    requires closed { IsStable instance.now (has domains.now) }
    requires filled { IsFilled instance.now (has domains.now) }
    requires room { HasRoom instance.now.sizes (vec_capacity desk.old.weighed) desk.old.raw.items }
    requires rows { length grid.old ≡ length (senders_of inbox.now q) }
    requires grid_places { (k : ℕ) → k < length grid.old → length (slice_index_or grid.old k []) ≡ states instance.now q }
    ensures room { HasRoom instance.now.sizes (vec_capacity desk.new.weighed) desk.new.raw.items }
    ensures each { length grid.new ≡ length grid.old }
    ensures places { (r : ℕ) → length (slice_index_or grid.new r []) ≡ length (slice_index_or grid.old r []) }
    ensures said { (k : ℕ) → k < length (senders_of inbox.now q) → let p = slice_index (senders_of inbox.now q) k in IsMessage W.none W.plus W.minus W.clip W.cmp instance.now (has domains.now) (weight_for W.none W.plus fields.now inbox.now q p) p q (field W.none grid.new k) }
    ensures small { (k j : ℕ) → W.is_within (2 ^ 40) (field W.none grid.new k j) }
{
    let senders = inbox.senders(q);
    for k in 0..senders.len() {
        say(
            inbox, instance, fields, domains, senders[k], q, k, desk, grid,
        );
    }
}

/// Writes all messages of a round.
pub(crate) fn hear_all<W: Weight>(
    inbox: &Inbox<W>,
    instance: &Instance,
    fields: &Fields<W>,
    domains: &Domains,
    desk: &mut Desk<W>,
    next: &mut Vec<Grid<W>>,
)
    requires messages { IsPostFor instance.now inbox.now }
    requires fields { AreFieldsFor instance.now fields.now }
    requires made { IsFor instance.now domains.now }
    requires closed { IsStable instance.now (has domains.now) }
    requires filled { IsFilled instance.now (has domains.now) }
    requires room { HasRoom instance.now.sizes (vec_capacity desk.old.weighed) desk.old.raw.items }
    requires shaped { AreShaped inbox.now.sizes inbox.now.senders next.old.items }
    ensures room { HasRoom instance.now.sizes (vec_capacity desk.new.weighed) desk.new.raw.items }
    ensures shaped { AreShaped inbox.now.sizes inbox.now.senders next.new.items }
    ensures said { (q k : ℕ) → q < packages instance.now → k < length (senders_of inbox.now q) → let p = slice_index (senders_of inbox.now q) k in IsMessage W.none W.plus W.minus W.clip W.cmp instance.now (has domains.now) (weight_for W.none W.plus fields.now inbox.now q p) p q (field W.none (slice_index_or next.new.items q []) k) }
    ensures small { (q k j : ℕ) → W.is_within (2 ^ 40) (field W.none (slice_index_or next.new.items q []) k j) }
{
    for q in 0..instance.packages() {
        let grid = &mut next[q as usize];
        hear(inbox, instance, fields, domains, q, desk, grid);
    }
}
