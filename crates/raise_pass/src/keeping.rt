//! Whether a raised package needs all that it needed before.
ghost use Rattle.std.specs.Prelude.{◌≡◌, ◌≢◌, ◌<◌, ◌||◌, MatchBool, true, false};
ghost use Rattle.version_graph.specs.Graph.{packages, states, is_root, does_need};
ghost use Rattle.version_graph.specs.Needed.{AreNeeds};
ghost use Rattle.raise_pass.specs.Changed.{KeepsNeeds};

use version_graph::{Instance, Needs};

/// Whether the state j of p needs all that its state i needs, but roots. Then all that is reached stays reached.
pub(crate) fn keeps_needs(instance: &Instance, needs: &Needs, p: u32, i: u32, j: u32) -> bool
    requires needs { AreNeeds instance.now needs.now }
    requires known { p < packages instance.now }
    requires old { i < states instance.now p }
    requires new { j < states instance.now p }
    ensures { MatchBool result (KeepsNeeds instance.now p i j) (KeepsNeeds instance.now p i j → ⊥) }
{
    let needed = needs.of(p, i);
    for q in needed {
        if !is_wanted(instance, p, j, *q) {
            return false;
        }
    }
    true
}

/// Whether the state j of p needs q, or q is a root.
fn is_wanted(instance: &Instance, p: u32, j: u32, q: u32) -> bool
    requires first { p < packages instance.now }
    requires state { j < states instance.now p }
    requires second { q < packages instance.now }
    requires apart { q ≢ p }
    ensures { result ≡ (does_need instance.now p j q || is_root instance.now q) }
{
    let absent = instance.states(q) - 1;
    !instance.allowed(p, j, q, absent) || !instance.is_offered(q, absent)
}
