//! The weight that each state has by itself.
ghost use Rattle.std.specs.Prelude.{◌≡◌, ◌≢◌, ◌<◌, ◌≤◌, ◌^◌, ℕ, length, IfOk};
ghost use Rattle.version_graph.specs.Graph.{packages, states, last, is_root};
ghost use Rattle.version_graph.specs.Part.{package_of, state_of};
ghost use Rattle.maxsum_messages.specs.Field.{field, AreFieldsFor};
ghost use Rattle.graph_pruning.specs.Pruned.{Pruning};
ghost use Rattle.graph_pruning.specs.Reduced.{IsReduction};
ghost use Rattle.decimation_repair.specs.Levels.{zero_levels};
ghost use Rattle.instance_search.specs.Rated.{rated, levels, AreRated, AreRatedAt};

use graph_pruning::Reduced;
use lex_weights::{Level, Lex, Lex3, Weight};
use maxsum_messages::Fields;
use std::alloc::{AllocError, Global};
use version_graph::Instance;

/// The weights of the states of the pruned instance, which are those of the states before pruning. The one error is
/// want of memory.
pub(crate) fn rate(
    alloc: Global,
    instance: &Instance,
    reduced: &Reduced,
) -> Result<Fields<Lex3>, AllocError>
    requires { (pr : Pruning) × IsReduction instance.now pr reduced.now.instance reduced.now.back }
    ensures { IfOk result (AreRated instance.now reduced.now.instance reduced.now.back) }
{
    let mut fields = Fields::make(alloc, &reduced.instance)?;
    for p in 0..reduced.instance.packages() {
        rate_package(instance, reduced, p, &mut fields);
    }
    Ok(fields)
}

/// Sets the weights of the states of the package in the place p.
fn rate_package(instance: &Instance, reduced: &Reduced, p: u32, fields: &mut Fields<Lex3>)
    requires reduced { (pr : Pruning) × IsReduction instance.now pr reduced.now.instance reduced.now.back }
    requires known { p < packages reduced.now.instance }
    requires shape { AreFieldsFor reduced.now.instance fields.old }
    ensures shape { AreFieldsFor reduced.now.instance fields.new }
    ensures rated { AreRatedAt instance.now reduced.now.instance reduced.now.back fields.new p (states reduced.now.instance p) }
    ensures others { (q i : ℕ) → q ≢ p → field zero_levels fields.new q i ≡ field zero_levels fields.old q i }
{
    let package = reduced.back.package(p);
    let offers = instance.states(package) - 1;
    let is_root = !instance.is_offered(package, offers);
    for i in 0..reduced.instance.states(p) {
        let state = reduced.back.state(p, i);
        fields.set(p, i, rated(is_root, offers, state));
    }
}

/// The weight of a state of a package with so many offers. A newer offer weighs more, at the first level for a root and
/// at the second one for another package. What is absent weighs as the newest offer of a package that is no root, and a
/// little more.
fn rated(is_root: bool, offers: u32, state: u32) -> Lex3
    requires few { offers ≤ 65536 }
    ensures weight { result ≡ rated is_root offers state }
    ensures small { ⟦<Lex3 as Weight>⟧.is_within (2 ^ 24) result }
{
    if state >= offers {
        return leveled(0, offers.saturating_sub(1), 1);
    }
    if is_root {
        leveled(state, 0, 0)
    } else {
        leveled(0, state, 0)
    }
}

/// The weight with these levels.
fn leveled(first: u32, second: u32, third: u32) -> Lex3
    requires first { first ≤ 65536 }
    requires second { second ≤ 65536 }
    requires third { third ≤ 65536 }
    ensures weight { result ≡ levels first second third }
    ensures small { ⟦<Lex3 as Weight>⟧.is_within (2 ^ 24) result }
{
    Lex(
        Level(i64::from(first)),
        Lex(Level(i64::from(second)), Level(i64::from(third))),
    )
}
