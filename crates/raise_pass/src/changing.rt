//! Changing the state of one package.
ghost use Rattle.std.specs.Prelude.{◌≡◌, ◌<◌, slice_set};
ghost use Rattle.version_graph.specs.Graph.{packages};
ghost use Rattle.raise_pass.specs.Scratch.{IsLooseFor, AreStuck};
ghost use Rattle.raise_pass.specs.Changed.{AreStates};

use crate::loose::Loose;
use pkg_world::States;
use version_graph::Instance;

/// Sets p to its state j. It and its neighbours may then be raised, if they could not before.
pub(crate) fn change(instance: &Instance, states: &mut States, loose: &mut Loose, p: u32, j: u32)
    requires known { p < packages instance.now }
    requires made { AreStates instance.now states.old.items }
    requires loose { IsLooseFor instance.now loose.old }
    requires stuck { AreStuck instance.now states.old.items loose.old.marks.items }
    ensures states { states.new.items ≡ slice_set states.old.items p j }
    ensures loose { IsLooseFor instance.now loose.new }
    ensures stuck { AreStuck instance.now states.new.items loose.new.marks.items }
{
    loose.add(p);
    let neighbours = instance.neighbours(p);
    for q in neighbours {
        loose.add(*q);
    }
    states.set(p as usize, j);
}
