//! Searches on small instances: how they end, with which states and which nodes.
ghost use Rattle.maxsum_messages.specs.Field.{AreFieldsFor};

use crate::graph_calls::{instance_of, ring, two_that_refuse};
use crate::message_calls::fields_of;
use decimation_repair::{Outcome, Search};
use lex_weights::Lex3;
use maxsum_messages::Fields;
use refutation_log::{Log, NodeKind};
use std::alloc::{AllocError, Global};
use std::test::Fail;
use version_graph::{GraphFault, Instance};

// two roots with two versions each that need the third package: the greater version of one takes only its greater one,
// that of the other only its less one
pub(crate) fn two_that_share(alloc: Global) -> Result<Instance, GraphFault> {
    let pairs = [
        (0, 0, 2, 2),
        (0, 1, 2, 2),
        (1, 0, 2, 2),
        (1, 1, 2, 2),
        (0, 1, 2, 0),
        (1, 1, 2, 1),
    ];
    instance_of(alloc, &[3, 3, 3], &[(0, 2), (1, 2)], &pairs)
}

// a node a line: the state that it is entered by, and what it is
fn log_text(alloc: Global, log: &Log) -> Result<String, AllocError> {
    let mut text = String::new(alloc);
    for node in log.items() {
        match node.state {
            Some(state) => text.push_str(format!(in alloc; " {state}")?.as_str())?,
            None => text.push_str(" -")?,
        }
        match node.kind {
            NodeKind::Leaf => text.push_str(" leaf")?,
            NodeKind::Branch { package, children } => {
                text.push_str(format!(in alloc; " branch {package} {children}")?.as_str())?;
            }
        }
    }
    Ok(text)
}

fn outcome_text(alloc: Global, outcome: &Outcome) -> Result<String, AllocError> {
    match outcome {
        Outcome::Found(states, log) => {
            let mut text = String::from_str(alloc, "found")?;
            for state in states.items() {
                text.push_str(format!(in alloc; " {state}")?.as_str())?;
            }
            let nodes = log_text(alloc, log)?;
            format!(in alloc; "{text}:{nodes}")
        }
        Outcome::Empty(log) => {
            let nodes = log_text(alloc, log)?;
            format!(in alloc; "empty:{nodes}")
        }
        Outcome::Spent(log) => {
            let nodes = log_text(alloc, log)?;
            format!(in alloc; "spent:{nodes}")
        }
    }
}

fn searched(
    alloc: Global,
    instance: &Instance,
    fields: &Fields<Lex3>,
    budget: u32,
) -> Result<String, AllocError>
    requires { AreFieldsFor instance.now fields.now }
{
    let search = Search::make(alloc, instance, fields, budget)?;
    let outcome = search.run();
    outcome_text(alloc, &outcome)
}

// a search whose states all weigh the same by themselves
fn searched_evenly(alloc: Global, instance: &Instance, budget: u32) -> Result<String, AllocError> {
    let fields = Fields::make(alloc, instance)?;
    searched(alloc, instance, &fields, budget)
}

#[test]
fn a_search_ends_by_its_walk(rt: HostRuntime) -> Result<(), Fail> {
    let alloc = rt.alloc();
    let shared = two_that_share(alloc)?;
    let refused = two_that_refuse(alloc)?;
    let three = ring(alloc)?;
    let cases: [(&Instance, u32, &str); 7] = [
        (&shared, 64, "found 1 0 1: - branch 0 2"),
        (&shared, 1, "found 1 0 1: - branch 0 2"),
        (&shared, 0, "spent:"),
        (&refused, 64, "empty: - leaf"),
        (&three, 1, "spent: - branch 0 2"),
        (&three, 3, "empty: - branch 0 2 1 leaf 0 leaf"),
        (&three, 64, "empty: - branch 0 2 1 leaf 0 leaf"),
    ];
    for (instance, budget, want) in cases {
        assert_eq!(rt; searched_evenly(alloc, instance, budget)?.as_str(), want);
    }
    Ok(())
}

#[test]
fn a_search_goes_by_its_fields(rt: HostRuntime) -> Result<(), Fail> {
    let alloc = rt.alloc();
    let shared = two_that_share(alloc)?;
    let fields = fields_of(alloc, &shared)?;
    assert_eq!(rt;
        searched(alloc, &shared, &fields, 64)?.as_str(),
        "found 1 0 1: - branch 0 2"
    );
    Ok(())
}
