//! Setting packages absent that no root reaches.
ghost use Rattle.std.specs.Prelude.{◌≡◌, ◌<◌, ◌≤◌, ℕ, length, slice_set, slice_index, MatchBool, false, true, if◌then◌else◌, ◌&&◌, not, ◌==◌};
ghost use Rattle.version_graph.specs.Graph.{packages, states, last, is_root, IsListOf, IsPlain, IsSolution};
ghost use Rattle.version_graph.specs.Needed.{AreNeeds};
ghost use Rattle.raise_pass.specs.Finishing.{IsTrimmed, Trims};
ghost use Rattle.raise_pass.specs.Reached.{is_marked};
ghost use Rattle.raise_pass.specs.Scratch.{IsScratchFor, IsLooseFor, AreStuck};
ghost use Rattle.raise_pass.specs.Changed.{AreStates, WasTrimmed, below_last};

use crate::changing::change;
use crate::loose::Loose;
use crate::reaching::{find_reached, is_set, state_of};
use crate::scratch::RaiseScratch;
use pkg_world::States;
use version_graph::{Instance, Needs};

/// Sets each package absent that isn't reached. False where none was to be set.
pub(crate) fn trim(
    instance: &Instance,
    roots: &[u32],
    needs: &Needs,
    states: &mut States,
    scratch: &mut RaiseScratch,
) -> bool
    requires plain { IsPlain instance.now }
    requires roots { IsListOf (is_root instance.now) roots.now }
    requires needs { AreNeeds instance.now needs.now }
    requires solution { IsSolution instance.now states.old.items }
    requires made { IsScratchFor instance.now scratch.old }
    requires stuck { AreStuck instance.now states.old.items scratch.old.loose.marks.items }
    ensures result { MatchBool result (Trims instance.now states.old.items states.new.items) (WasTrimmed instance.now states.old.items states.new.items) }
    ensures trimmed { IsTrimmed instance.now states.new.items }
    ensures solution { IsSolution instance.now states.new.items }
    ensures made { IsScratchFor instance.now scratch.new }
    ensures stuck { AreStuck instance.now states.new.items scratch.new.loose.marks.items }
    ensures below { below_last instance.now states.new.items ≤ below_last instance.now states.old.items }
{
    find_reached(
        instance,
        roots,
        needs,
        states.items(),
        &mut scratch.reached,
        &mut scratch.order,
    );
    let mut trimmed = false;
    for p in 0..instance.packages() {
        if drop_unreached(instance, &scratch.reached, states, &mut scratch.loose, p) {
            trimmed = true;
        }
    }
    trimmed
}

/// Sets p absent where it isn't reached. False where it is reached or absent.
fn drop_unreached(
    instance: &Instance,
    reached: &[bool],
    states: &mut States,
    loose: &mut Loose,
    p: u32,
) -> bool
    requires known { p < packages instance.now }
    requires reached { length reached.now ≡ packages instance.now }
    requires made { AreStates instance.now states.old.items }
    requires loose { IsLooseFor instance.now loose.old }
    requires stuck { AreStuck instance.now states.old.items loose.old.marks.items }
    ensures result { result ≡ (not (is_marked reached.now p) && not (slice_index states.old.items p == last instance.now p)) }
    ensures states { states.new.items ≡ slice_set states.old.items p (if is_marked reached.now p then slice_index states.old.items p else last instance.now p) }
    ensures loose { IsLooseFor instance.now loose.new }
    ensures stuck { AreStuck instance.now states.new.items loose.new.marks.items }
{
    let absent = instance.states(p) - 1;
    if is_set(reached, p) || state_of(states.items(), p) == absent {
        return false;
    }
    change(instance, states, loose, p, absent);
    true
}
