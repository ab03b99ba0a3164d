//! Messages between two roots that share a package: what is believed after eight rounds, and what is chosen then.
ghost use Rattle.std.specs.Prelude.{◌^◌, IsTrue, IfOk, IfSome};
ghost use Rattle.version_graph.specs.Domain.{has, IsFor};
ghost use Rattle.version_graph.specs.Noted.{Holds, IsSettled};
ghost use Rattle.maxsum_messages.specs.Field.{AreFieldsFor};
ghost use Rattle.maxsum_messages.specs.Post.{IsPostFor};

use crate::lex_weights_calls::weight;
use crate::search_calls::two_that_share;
use graph_pruning::{Closed, close};
use lex_weights::{Level, Lex, Lex3, Weight};
use maxsum_messages::{Fields, Messages, Order, closure_is_stable};
use std::alloc::{AllocError, Global};
use std::test::Fail;
use version_graph::{Domains, Instance, Trail};

// a weight of small levels
fn small(first: u8, second: u8, third: u8) -> Lex3
    ensures { ⟦<Lex3 as Weight>⟧.is_within (2 ^ 24) result }
{
    Lex(
        Level(i64::from(first)),
        Lex(Level(i64::from(second)), Level(i64::from(third))),
    )
}

// the field of a state of a package with two offers: an offer's number, at the first level of the two roots and at the
// second one of what they share; for what is absent the last offer's number, and 1 after it
fn field_of(p: u32, i: u32) -> Lex3
    ensures { ⟦<Lex3 as Weight>⟧.is_within (2 ^ 24) result }
{
    if i == 0 {
        small(0, 0, 0)
    } else if i > 1 {
        small(0, 1, 1)
    } else if p < 2 {
        small(1, 0, 0)
    } else {
        small(0, 1, 0)
    }
}

pub(crate) fn fields_of(alloc: Global, instance: &Instance) -> Result<Fields<Lex3>, AllocError>
    ensures { IfOk result (λ fields. AreFieldsFor instance.now fields) }
{
    let mut fields = Fields::make(alloc, instance)?;
    for p in 0..instance.packages() {
        for i in 0..instance.states(p) {
            fields.set(p, i, field_of(p, i));
        }
    }
    Ok(fields)
}

// closes the domains; whether none of them is empty then
fn is_closed(instance: &Instance, domains: &mut Domains, trail: &mut Trail) -> bool
    requires { Holds instance.now domains.old trail.old }
    ensures made { IsFor instance.now domains.new }
    ensures settled { IsTrue result → IsSettled instance.now (has domains.new) }
{
    closure_is_stable();
    match close(instance, domains, trail) {
        Closed::Stable => true,
        Closed::Empty(_) => false,
    }
}

// the closure of what isn't forbidden alone, where none of its domains is empty
fn closed(alloc: Global, instance: &Instance) -> Result<Option<Domains>, AllocError>
    ensures made { IfOk result (λ found. IfSome found (λ domains. IsFor instance.now domains)) }
    ensures settled { IfOk result (λ found. IfSome found (λ domains. IsSettled instance.now (has domains))) }
{
    let mut domains = Domains::full(alloc, instance)?;
    let mut trail = Trail::make(alloc, instance)?;
    if !is_closed(instance, &mut domains, &mut trail) {
        return Ok(None);
    }
    Ok(Some(domains))
}

// the messages after eight rounds from zero
fn said(
    alloc: Global,
    instance: &Instance,
    fields: &Fields<Lex3>,
    domains: &Domains,
) -> Result<Messages<Lex3>, AllocError>
    requires fields { AreFieldsFor instance.now fields.now }
    requires made { IsFor instance.now domains.now }
    requires settled { IsSettled instance.now (has domains.now) }
    ensures { IfOk result (λ messages. IsPostFor instance.now messages) }
{
    let mut messages = Messages::make(alloc, instance)?;
    messages.round(instance, fields, domains);
    messages.reset();
    'rounds: for _ in 0..8 {
        messages.round(instance, fields, domains);
    }
    Ok(messages)
}

// what is believed of each state, package by package
fn beliefs(
    alloc: Global,
    instance: &Instance,
    fields: &Fields<Lex3>,
    messages: &Messages<Lex3>,
) -> Result<Vec<Lex3>, AllocError>
    requires fields { AreFieldsFor instance.now fields.now }
    requires messages { IsPostFor instance.now messages.now }
{
    let mut found = Vec::new(alloc);
    for p in 0..instance.packages() {
        for i in 0..instance.states(p) {
            found.push(messages.belief(fields, p, i))?;
        }
    }
    Ok(found)
}

// the package that is chosen, and its states in the order in which they are tried
fn choice(
    alloc: Global,
    instance: &Instance,
    fields: &Fields<Lex3>,
    domains: &Domains,
    messages: &Messages<Lex3>,
) -> Result<(Option<u32>, Vec<u32>), AllocError>
    requires fields { AreFieldsFor instance.now fields.now }
    requires made { IsFor instance.now domains.now }
    requires messages { IsPostFor instance.now messages.now }
{
    let mut order = Order::make(alloc, instance)?;
    let chosen = messages.choose(fields, domains, &mut order);
    Ok((chosen, order.states().to_vec(alloc)?))
}

#[test]
fn beliefs_choose_the_first_of_two_roots_that_share(rt: HostRuntime) -> Result<(), Fail> {
    let alloc = rt.alloc();
    let world = two_that_share(alloc)?;
    let fields = fields_of(alloc, &world)?;
    let domains = match closed(alloc, &world)? {
        Some(domains) => domains,
        None => return Err(Fail::from("an empty domain")),
    };
    let messages = said(alloc, &world, &fields, &domains)?;
    let want = [
        weight(0, 0, 0),
        weight(0, 1, 0),
        weight(0, 1, 1),
        weight(0, 0, 0),
        weight(0, -1, 0),
        weight(0, 1, 1),
        weight(-1, 0, 0),
        weight(-1, 1, 0),
        weight(0, 1, 1),
    ];
    let believed = beliefs(alloc, &world, &fields, &messages)?;
    assert_eq!(rt; believed.as_slice(), want.as_slice());
    let (chosen, states) = choice(alloc, &world, &fields, &domains, &messages)?;
    assert_eq!(rt; chosen, Some(0));
    assert_eq!(rt; states.as_slice(), [1, 0].as_slice());
    Ok(())
}
