//! Messages that are heard on the closure under choices.
ghost use Rattle.std.specs.Prelude.{◌≡◌, ℕ, true, List, IfOk};
ghost use Rattle.version_graph.specs.Domain.{has, IsFor};
ghost use Rattle.version_graph.specs.Family.{IsClosureOf, IsStable, IsFilled, under};
ghost use Rattle.version_graph.specs.Noted.{Holds};
ghost use Rattle.maxsum_messages.specs.Field.{AreFieldsFor};
ghost use Rattle.maxsum_messages.specs.Post.{Post, IsPostFor, IsSilent};
ghost use Rattle.maxsum_messages.specs.Round.{AreRounds};
ghost use Rattle.decimation_repair.specs.Levels.{Levels, zero_levels, plus_levels, minus_levels, clip_levels, compare_levels};
ghost use Rattle.decimation_repair.specs.Path.{prefix_of};
ghost use Rattle.decimation_repair.specs.Advised.{IsHeard, IsOpenPath};

use crate::lists::write_over;
use crate::path::{Chosen, are_same};
use graph_pruning::{Closed, close, undo_to};
use lex_weights::Lex3;
use maxsum_messages::{Fields, Messages, closure_is_stable};
use std::alloc::{AllocError, Global};
use version_graph::{Domains, Instance, Trail};

/// How many rounds are heard.
const ROUNDS: u32 = 8;

/// Messages, with the choices that they are of.
#[derive(Drop)]
pub(crate) struct Heard {
    /// Whether the messages were made.
    pub(crate) is_made: bool,
    pub(crate) path: Vec<Chosen>,
    pub(crate) messages: Messages<Lex3>,
}

impl Heard {
    /// Messages that are still to be made, with room for a choice of each package.
    pub(crate) fn make(alloc: Global, instance: &Instance) -> Result<Self, AllocError>
        ensures { (f : List (List Levels)) → IfOk result (IsHeard instance.now f) }
    {
        Ok(Heard {
            is_made: false,
            path: Vec::with_capacity(alloc, instance.packages() as usize)?,
            messages: Messages::make(alloc, instance)?,
        })
    }

    /// Whether the messages were made and are of these choices.
    pub(crate) fn is_of(&self, path: &[Chosen]) -> bool
        ensures { result ≡ true → (self.now.is_made ≡ true) × (prefix_of self.now.path.items ≡ prefix_of path.now) }
    {
        self.is_made && are_same(self.path.as_slice(), path)
    }

    /// Makes the messages of these choices. The domains are a slate that is written on.
    pub(crate) fn renew(
        &mut self,
        instance: &Instance,
        fields: &Fields<Lex3>,
        domains: &mut Domains,
        trail: &mut Trail,
        path: &[Chosen],
    )
        requires fields { AreFieldsFor instance.now fields.now }
        requires held { Holds instance.now domains.old trail.old }
        requires heard { IsHeard instance.now fields.now self.old }
        requires open { IsOpenPath instance.now path.now }
        ensures held { Holds instance.now domains.new trail.new }
        ensures heard { IsHeard instance.now fields.now self.new }
        ensures made { self.new.is_made ≡ true }
        ensures path { self.new.path.items ≡ path.now }
    {
        lay(instance, domains, trail, path);
        write_over(&mut self.path, path);
        closure_is_stable();
        hear(&mut self.messages, instance, fields, domains);
        self.is_made = true;
    }
}

/// Brings the domains to the closure under the choices.
fn lay(instance: &Instance, domains: &mut Domains, trail: &mut Trail, path: &[Chosen])
    requires held { Holds instance.now domains.old trail.old }
    requires open { IsOpenPath instance.now path.now }
    ensures held { Holds instance.now domains.new trail.new }
    ensures closed { IsClosureOf instance.now (under instance.now (prefix_of path.now)) (has domains.new) }
    ensures filled { IsFilled instance.now (has domains.new) }
{
    cut_to(instance, domains, trail, path);
    match close(instance, domains, trail) {
        Closed::Stable => {}
        Closed::Empty(_) => unreachable!(),
    }
}

/// Cuts the full domains to the choices.
fn cut_to(instance: &Instance, domains: &mut Domains, trail: &mut Trail, path: &[Chosen])
    requires held { Holds instance.now domains.old trail.old }
    requires open { IsOpenPath instance.now path.now }
    ensures held { Holds instance.now domains.new trail.new }
    ensures cut { (p i : ℕ) → has domains.new p i ≡ under instance.now (prefix_of path.now) p i }
{
    undo_to(domains, trail, 0);
    for chosen in path {
        domains.narrow(chosen.package, chosen.state, trail);
    }
}

/// Hears the messages anew, on closed domains of which none is empty.
fn hear(
    messages: &mut Messages<Lex3>,
    instance: &Instance,
    fields: &Fields<Lex3>,
    domains: &Domains,
)
    requires messages { IsPostFor instance.now messages.old }
    requires fields { AreFieldsFor instance.now fields.now }
    requires made { IsFor instance.now domains.now }
    requires closed { IsStable instance.now (has domains.now) }
    requires filled { IsFilled instance.now (has domains.now) }
    ensures made { IsPostFor instance.now messages.new }
    ensures rounds { (start : Post Levels) × IsPostFor instance.now start × IsSilent zero_levels start ×
        AreRounds zero_levels plus_levels minus_levels clip_levels compare_levels 8 instance.now fields.now (has domains.now) start messages.new }
{
    messages.reset();
    for _round in 0..ROUNDS {
        messages.round(instance, fields, domains);
    }
}
