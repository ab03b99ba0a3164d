//! The call that checks a log.
ghost use Rattle.std.specs.Prelude.{◌↔◌, IsTrue};
ghost use Rattle.version_graph.specs.Graph.{IsPlain};
ghost use Rattle.refutation_log.specs.Refutes.{IsRefutation, HasNoSolution};
ghost use Rattle.refutation_log.specs.Scratch.{IsScratchFor};

use crate::laws::refutation_is_sound;
use crate::node::Log;
use crate::scratch::RefuteScratch;
use version_graph::Instance;

/// Whether the log refutes the instance: its nodes are the pre-order list of one whole tree of choices, whose
/// first node has no state and every other one, each leaf of which is a dead end, and each branch of which is on
/// a kept package and leaves out no state of it that is left, but for states that are equal to a child's: of two
/// that allow the same states of every other package, one is enough. Any list of nodes may be handed in. Where
/// the answer is true no solution exists, whoever made the log. It takes no memory, and the scratch values serve
/// again. It calls itself once for each branch on the way to a node, so at most as deep as there are packages,
/// since no package is chosen twice.
pub fn refutes(instance: &Instance, log: &Log, scratch: &mut RefuteScratch) -> bool
    requires plain { IsPlain instance.now }
    requires made { IsScratchFor instance.now scratch.old }
    ensures exact { IsTrue result ↔ IsRefutation instance.now log.now.items }
    ensures sound { IsTrue result → HasNoSolution instance.now }
    ensures made { IsScratchFor instance.now scratch.new }
{
    refutation_is_sound();
    // what is true of every instance
    let _packages = instance.packages();
    scratch.accepts(instance, log.items())
}
