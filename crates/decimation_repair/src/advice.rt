//! What the search goes by when it chooses.
ghost use Rattle.std.specs.Prelude.{◌≡◌, ◌*◌, ◌/◌, IfOk, length, take};
ghost use Rattle.version_graph.specs.Domain.{has, IsFor};
ghost use Rattle.version_graph.specs.Family.{IsClosureOf, IsFilled, under};
ghost use Rattle.maxsum_messages.specs.Field.{AreFieldsFor};
ghost use Rattle.decimation_repair.specs.Choice.{BeliefChoice};
ghost use Rattle.decimation_repair.specs.Path.{prefix_of};
ghost use Rattle.decimation_repair.specs.Advised.{IsAdvice, IsOpenPath, IsTurnedTo, IsWide};

use crate::heard::Heard;
use crate::path::Chosen;
use lex_weights::Lex3;
use maxsum_messages::{Fields, Order};
use std::alloc::{AllocError, Global};
use std::mem;
use version_graph::{Domains, Instance, Trail};

/// How many choices go by the same messages.
const BLOCK: usize = 16;

/// The fields, and messages that were heard lately: those of two cut prefixes, so that going back over the end of a block
/// finds the ones before it.
#[derive(Drop)]
pub(crate) struct Advice<'a> {
    pub(crate) fields: &'a Fields<Lex3>,
    /// A slate on which the closure under a cut prefix is made.
    pub(crate) domains: Domains,
    pub(crate) trail: Trail,
    pub(crate) recent: Heard,
    pub(crate) earlier: Heard,
    /// The states of the package that was chosen last.
    pub(crate) order: Order,
}

impl<'a> Advice<'a> {
    /// Advice for which no messages were heard.
    pub(crate) fn make(
        alloc: Global,
        instance: &Instance,
        fields: &'a Fields<Lex3>,
    ) -> Result<Self, AllocError>
        requires { AreFieldsFor instance.now fields.now }
        ensures advice { IfOk result (IsAdvice instance.now) }
        ensures fields { IfOk result (λ advice. advice.fields.now ≡ fields.now) }
    {
        Ok(Advice {
            fields,
            domains: Domains::full(alloc, instance)?,
            trail: Trail::make(alloc, instance)?,
            recent: Heard::make(alloc, instance)?,
            earlier: Heard::make(alloc, instance)?,
            order: Order::make(alloc, instance)?,
        })
    }

    /// The package that is decided next where these choices are made and these domains are closed under them. The order
    /// of its states is left beside it.
    pub(crate) fn choose(&mut self, instance: &Instance, domains: &Domains, path: &[Chosen]) -> u32
        requires advice { IsAdvice instance.now self.old }
        requires made { IsFor instance.now domains.now }
        requires closed { IsClosureOf instance.now (under instance.now (prefix_of path.now)) (has domains.now) }
        requires open { IsOpenPath instance.now path.now }
        requires wide { IsWide instance.now domains.now }
        ensures advice { IsAdvice instance.now self.new }
        ensures fields { self.new.fields.now ≡ self.old.fields.now }
        ensures choice { BeliefChoice self.old.fields.now instance.now (prefix_of path.now) result self.new.order.states }
    {
        let cut = cut_back(path);
        self.turn_to(instance, cut);
        match self
            .recent
            .messages
            .choose(self.fields, domains, &mut self.order)
        {
            Some(package) => package,
            None => unreachable!(),
        }
    }

    /// Has the messages of these choices at hand.
    fn turn_to(&mut self, instance: &Instance, path: &[Chosen])
        requires advice { IsAdvice instance.now self.old }
        requires open { IsOpenPath instance.now path.now }
        ensures advice { IsAdvice instance.now self.new }
        ensures fields { self.new.fields.now ≡ self.old.fields.now }
        ensures turned { IsTurnedTo self.new path.now }
    {
        if self.recent.is_of(path) {
            return;
        }
        mem::swap(&mut self.recent, &mut self.earlier);
        if self.recent.is_of(path) {
            return;
        }
        self.recent.renew(
            instance,
            self.fields,
            &mut self.domains,
            &mut self.trail,
            path,
        );
    }
}

/// The choices cut to as many whole blocks as there are.
fn cut_back(path: &[Chosen]) -> &[Chosen]
    ensures { result.now ≡ take (16 * (length path.now / 16)) path.now }
{
    &path[..BLOCK * (path.len() / BLOCK)]
}
