//! What each package has heard in the last round.
ghost use Rattle.std.specs.Prelude.{◌≡◌, ◌≢◌, ◌<◌, ◌≤◌, ◌^◌, ◌*◌, [], ℕ, length, slice_index, slice_index_or, IfOk, MatchOption};
ghost use Rattle.std.specs.List.Sorted.{IsStrictlyIncreasing};
ghost use Rattle.maxsum_messages.specs.Field.{field};
ghost use Rattle.maxsum_messages.specs.Post.{senders_of, said_to, heard, IsPostFor, IsSilent};
ghost use Rattle.maxsum_messages.specs.Round.{weight_for};
ghost use Rattle.maxsum_messages.specs.Belief.{belief};
ghost use Rattle.maxsum_messages.specs.Kept.{AreSenders, AreShaped, IsPlaceOf};

use crate::building::{senders_of, silence, sizes_of, zero_sums};
use crate::fields::Fields;
use crate::grid::Grid;
use lex_weights::Weight;
use std::alloc::{AllocError, Global};
use std::marker::Model;
use std::mem;
use version_graph::Instance;

/// The messages that each package has from each of its neighbours, with their sum for each state.
#[derive(Drop)]
pub(crate) struct Inbox<W: Weight> {
    sizes: Vec<u32>,
    senders: Vec<Vec<u32>>,
    said: Vec<Grid<W>>,
    sums: Grid<W>,
}

impl<W: Weight> Model for Inbox<W> {
    ghost use Rattle.std.specs.Prelude.{◌^◌};
    ghost use Rattle.version_graph.specs.Stored.{rows_of};
    ghost use Rattle.maxsum_messages.specs.Post.{Post};
    ghost use Rattle.maxsum_messages.specs.Kept.{IsKept};

    ghost Value = { Post W };

    ghost view = { λ a. record { sizes = a.sizes.items; senders = rows_of a.senders.items; said = a.said.items } };

    ghost invariant = { λ a. IsKept (W.is_within (2 ^ 40)) W.none W.plus (record { sizes = a.sizes.items; senders = rows_of a.senders.items; said = a.said.items }) a.sums };
}

impl<W: Weight> Inbox<W> {
    /// Zero messages between the neighbours of the instance.
    pub(crate) fn make(alloc: Global, instance: &Instance) -> Result<Self, AllocError>
        ensures made { IfOk result (λ inbox. IsPostFor instance.now inbox) }
        ensures silent { IfOk result (λ inbox. IsSilent W.none inbox) }
    {
        let sizes = sizes_of(alloc, instance)?;
        let senders = senders_of(alloc, instance)?;
        let said = silence(alloc, sizes.as_slice(), senders.as_slice())?;
        let sums = zero_sums(alloc, sizes.as_slice())?;
        Ok(Inbox {
            sizes,
            senders,
            said,
            sums,
        })
    }

    /// How many states each package has.
    pub(crate) fn sizes(&self) -> &[u32]
        ensures { result.now ≡ self.now.sizes }
    {
        self.sizes.as_slice()
    }

    /// How many packages there are.
    pub(crate) fn len(&self) -> u32
        ensures { result ≡ length self.now.sizes }
    {
        self.sizes.len() as u32
    }

    /// How many states p has.
    pub(crate) fn size(&self, p: u32) -> u32
        requires { p < length self.now.sizes }
        ensures { result ≡ slice_index self.now.sizes p }
    {
        self.sizes[p as usize]
    }

    /// The neighbours of q, rising.
    pub(crate) fn senders(&self, q: u32) -> &[u32]
        requires { q < length self.now.sizes }
        ensures list { result.now ≡ senders_of self.now q }
        ensures senders { AreSenders (length self.now.sizes) q (senders_of self.now q) }
    {
        self.senders[q as usize].as_slice()
    }

    /// Zero messages of the same shape, that a round can write over.
    pub(crate) fn silence(&self, alloc: Global) -> Result<Vec<Grid<W>>, AllocError>
        ensures { IfOk result (λ said. AreShaped self.now.sizes self.now.senders said.items) }
    {
        silence(alloc, self.sizes.as_slice(), self.senders.as_slice())
    }

    /// What is believed of the state i of p.
    pub(crate) fn belief(&self, fields: &Fields<W>, p: u32, i: u32) -> W
        requires known { p < length self.now.sizes }
        requires state { i < slice_index self.now.sizes p }
        requires field_row { p < length fields.now }
        requires field_place { i < length (slice_index_or fields.now p []) }
        ensures belief { result ≡ belief W.none W.plus fields.now self.now p i }
        ensures small { W.is_within (2 ^ 52) result }
        ensures part { W.is_within (2 ^ 24) (field W.none fields.now p i) }
    {
        fields.get(p, i).plus(self.sums.get(p as usize, i as usize))
    }

    /// What the state i of p weighs for q, whose message has that place among those to p: what is believed
    /// of the state, with that message taken off again.
    pub(crate) fn weight(
        &self,
        fields: &Fields<W>,
        p: u32,
        i: u32,
        q: u32,
        place: Option<usize>,
    ) -> W
        requires known { p < length self.now.sizes }
        requires state { i < slice_index self.now.sizes p }
        requires field_row { p < length fields.now }
        requires field_place { i < length (slice_index_or fields.now p []) }
        requires own { IsPlaceOf (senders_of self.now p) q place }
        ensures weight { result ≡ weight_for W.none W.plus fields.now self.now q p i }
        ensures small { W.is_within (2 ^ 52) result }
    {
        let all = self.belief(fields, p, i);
        match place {
            Some(k) => all.minus(self.said[p as usize].get(k, i as usize)),
            None => all,
        }
    }

    /// Takes these messages in place of its own, and hands back its own.
    pub(crate) fn take(&mut self, next: &mut Vec<Grid<W>>)
        requires shaped { AreShaped self.old.sizes self.old.senders next.old.items }
        requires small { (q k j : ℕ) → W.is_within (2 ^ 40) (field W.none (slice_index_or next.old.items q []) k j) }
        ensures sizes { self.new.sizes ≡ self.old.sizes }
        ensures senders { self.new.senders ≡ self.old.senders }
        ensures said { self.new.said ≡ next.old.items }
        ensures back { AreShaped self.old.sizes self.old.senders next.new.items }
    {
        mem::swap(&mut self.said, next);
        add_up(self.sizes.as_slice(), self.said.as_slice(), &mut self.sums);
    }
}

/// Writes for each state the sum of the messages to it.
fn add_up<W: Weight>(sizes: &[u32], said: &[Grid<W>], sums: &mut Grid<W>)
    requires said { length said.now ≡ length sizes.now }
    requires wide { (q k : ℕ) → q < length sizes.now → k < length (slice_index_or said.now q []) → length (slice_index_or (slice_index_or said.now q []) k []) ≡ slice_index sizes.now q }
    requires few { (q : ℕ) → q < length sizes.now → length (slice_index_or said.now q []) ≤ 4095 }
    requires small { (q k j : ℕ) → W.is_within (2 ^ 40) (field W.none (slice_index_or said.now q []) k j) }
    requires sums { length sums.old ≡ length sizes.now }
    requires places { (q : ℕ) → q < length sizes.now → length (slice_index_or sums.old q []) ≡ slice_index sizes.now q }
    ensures each { length sums.new ≡ length sums.old }
    ensures places { (q : ℕ) → length (slice_index_or sums.new q []) ≡ length (slice_index_or sums.old q []) }
    ensures summed { (q i : ℕ) → q < length sizes.now → i < slice_index sizes.now q → field W.none sums.new q i ≡ heard W.none W.plus i (slice_index_or said.now q []) }
{
    for q in 0..sizes.len() {
        add_up_one(&said[q], sizes[q] as usize, q, sums);
    }
}

/// Writes the sum of the messages to each state of q.
fn add_up_one<W: Weight>(said: &Grid<W>, size: usize, q: usize, sums: &mut Grid<W>)
    requires wide { (k : ℕ) → k < length said.now → length (slice_index_or said.now k []) ≡ size }
    requires few { length said.now ≤ 4095 }
    requires small { (k j : ℕ) → W.is_within (2 ^ 40) (field W.none said.now k j) }
    requires row { q < length sums.old }
    requires places { length (slice_index_or sums.old q []) ≡ size }
    ensures each { length sums.new ≡ length sums.old }
    ensures places { (r : ℕ) → length (slice_index_or sums.new r []) ≡ length (slice_index_or sums.old r []) }
    ensures others { (r i : ℕ) → r ≢ q → field W.none sums.new r i ≡ field W.none sums.old r i }
    ensures summed { (i : ℕ) → i < size → field W.none sums.new q i ≡ heard W.none W.plus i said.now }
{
    for i in 0..size {
        sums.set(q, i, sum_at(said, i));
    }
}

/// The sum of the messages to the state i.
fn sum_at<W: Weight>(said: &Grid<W>, i: usize) -> W
    requires wide { (k : ℕ) → k < length said.now → i < length (slice_index_or said.now k []) }
    requires few { length said.now ≤ 4095 }
    requires small { (k j : ℕ) → W.is_within (2 ^ 40) (field W.none said.now k j) }
    ensures { result ≡ heard W.none W.plus i said.now }
{
    let mut k = said.len();
    let mut sum = W::zero();
    while k > 0 {
        k -= 1;
        sum = said.get(k, i).plus(sum);
    }
    sum
}

/// The place of q among the senders, if it is there.
pub(crate) fn place_of(senders: &[u32], q: u32) -> Option<usize>
    requires { IsStrictlyIncreasing senders.now }
    ensures { IsPlaceOf senders.now q result }
{
    match senders.binary_search(&q) {
        Ok(place) => Some(place),
        Err(_) => None,
    }
}
