//! The messages: what neighbours say to each other, round by round, and what is believed then.
ghost use Rattle.std.specs.Prelude.{◌≡◌, ◌<◌, ◌^◌, ℕ, [], length, slice_index, slice_index_or, IfOk, MatchOption, ◌≤◌};
ghost use Rattle.version_graph.specs.Graph.{Graph};
ghost use Rattle.version_graph.specs.Domain.{has, IsFor};
ghost use Rattle.version_graph.specs.Family.{IsStable, IsFilled};
ghost use Rattle.maxsum_messages.specs.Field.{field, AreFieldsFor};
ghost use Rattle.maxsum_messages.specs.Post.{IsPostFor, IsSilent};
ghost use Rattle.maxsum_messages.specs.Round.{IsRound};
ghost use Rattle.maxsum_messages.specs.Belief.{belief};
ghost use Rattle.maxsum_messages.specs.Choice.{IsSingle, IsChosen, AreInOrder};
ghost use Rattle.maxsum_messages.specs.Kept.{AreAligned};

use crate::building::greatest_size;
use crate::choosing::{fill, most_decisive};
use crate::fields::Fields;
use crate::grid::{Grid, zeros};
use crate::inbox::Inbox;
use crate::order::Order;
use crate::saying::{Desk, hear_all};
use lex_weights::Weight;
use std::alloc::{AllocError, Global};
use std::marker::Model;
use version_graph::{Domains, Instance};

/// What each package has heard from each of its neighbours about each of its states.
#[derive(Drop)]
pub struct Messages<W: Weight> {
    inbox: Inbox<W>,
    next: Vec<Grid<W>>,
    desk: Desk<W>,
}

impl<W: Weight> Model for Messages<W> {
    ghost use Rattle.maxsum_messages.specs.Post.{Post};
    ghost use Rattle.std.specs.Prelude.{vec_capacity};
    ghost use Rattle.maxsum_messages.specs.Kept.{IsReady};

    ghost Value = { Post W };

    ghost view = { λ a. a.inbox };

    ghost invariant = { λ a. IsReady a.inbox a.next.items (vec_capacity a.desk.weighed) a.desk.raw.items };
}

impl<W: Weight> Messages<W> {
    /// The messages between the neighbours of the instance, each of them zero. The one error is want of
    /// memory.
    pub fn make(alloc: Global, instance: &Instance) -> Result<Self, AllocError>
        ensures made { IfOk result (λ messages. IsPostFor instance.now messages) }
        ensures silent { IfOk result (λ messages. IsSilent W.none messages) }
    {
        let inbox = Inbox::make(alloc, instance)?;
        let next = inbox.silence(alloc)?;
        let count = greatest_size(inbox.sizes());
        let weighed = Vec::with_capacity(alloc, count as usize)?;
        let raw = zeros(alloc, count)?;
        let desk = Desk { weighed, raw };
        Ok(Messages { inbox, next, desk })
    }

    /// Makes every message zero. It takes no memory.
    pub fn reset(&mut self)
        ensures made { (g : Graph) → IsPostFor g self.old → IsPostFor g self.new }
        ensures silent { IsSilent W.none self.new }
    {
        silence_again(&mut self.next);
        self.inbox.take(&mut self.next);
    }

    /// One round: all messages at once, from those of the round before. The message from p to q at a state
    /// of q's domain is the greatest, over the states of p's domain that are allowed with it, of p's field
    /// with all other messages to p; from these the greatest is taken away, and the rest is clipped. At a
    /// state outside q's domain the message is zero. The domains have to be closed and not empty. It takes
    /// no memory.
    pub fn round(&mut self, instance: &Instance, fields: &Fields<W>, domains: &Domains)
        requires messages { IsPostFor instance.now self.old }
        requires fields { AreFieldsFor instance.now fields.now }
        requires made { IsFor instance.now domains.now }
        requires closed { IsStable instance.now (has domains.now) }
        requires filled { IsFilled instance.now (has domains.now) }
        ensures made { IsPostFor instance.now self.new }
        ensures round { IsRound W.none W.plus W.minus W.clip W.cmp instance.now fields.now (has domains.now) self.old self.new }
    {
        hear_all(
            &self.inbox,
            instance,
            fields,
            domains,
            &mut self.desk,
            &mut self.next,
        );
        self.inbox.take(&mut self.next);
    }

    /// What is believed of the state i of p: its field and all messages to it. It takes no memory.
    pub fn belief(&self, fields: &Fields<W>, p: u32, i: u32) -> W
        requires known { p < length self.now.sizes }
        requires state { i < slice_index self.now.sizes p }
        requires field_row { p < length fields.now }
        requires field_place { i < length (slice_index_or fields.now p []) }
        ensures belief { result ≡ belief W.none W.plus fields.now self.now p i }
        ensures small { W.is_within (2 ^ 52) result }
    {
        self.inbox.belief(fields, p, i)
    }

    /// The package whose best belief is the furthest above its second best, the least number on a tie. The
    /// states of its domain are left in the order in which they are tried: by belief, the greatest first,
    /// and of equal beliefs the greater number first. None comes exactly where no domain has two states,
    /// and then the order is as before. It takes no memory.
    pub fn choose(&self, fields: &Fields<W>, domains: &Domains, order: &mut Order) -> Option<u32>
        requires aligned { AreAligned self.now.sizes fields.now domains.now }
        requires room { (p : ℕ) → p < length self.now.sizes → slice_index self.now.sizes p ≤ order.old.room }
        ensures answer { MatchOption result ((p : ℕ) → p < length self.now.sizes → IsSingle (has domains.now p)) (IsChosen W.cmp W.minus (length self.now.sizes) (has domains.now) (belief W.none W.plus fields.now self.now)) }
        ensures order { MatchOption result (order.new.states ≡ order.old.states) (λ p. AreInOrder W.cmp (has domains.now p) (belief W.none W.plus fields.now self.now p) order.new.states) }
        ensures room { order.old.room ≤ order.new.room }
    {
        match most_decisive(&self.inbox, fields, domains) {
            Some(chosen) => {
                fill(&self.inbox, fields, domains, chosen, &mut order.states);
                Some(chosen)
            }
            None => None,
        }
    }
}

/// Makes every prepared message zero.
fn silence_again<W: Weight>(next: &mut Vec<Grid<W>>)
    ensures each { length next.new.items ≡ length next.old.items }
    ensures rows { (q : ℕ) → length (slice_index_or next.new.items q []) ≡ length (slice_index_or next.old.items q []) }
    ensures places { (q k : ℕ) → length (slice_index_or (slice_index_or next.new.items q []) k []) ≡ length (slice_index_or (slice_index_or next.old.items q []) k []) }
    ensures zero { (q k j : ℕ) → field W.none (slice_index_or next.new.items q []) k j ≡ W.none }
{
    for q in 0..next.len() {
        let grid = &mut next[q];
        grid.clear();
    }
}
