//! The choices on the way to where the walk stands.
ghost use Rattle.std.specs.Prelude.{◌≡◌, ◌<◌, ◌≤◌, ◌+◌, ◌-◌, true, length, slice_set, take, vec_capacity};
ghost use Rattle.decimation_repair.specs.Path.{chosen_at, entered, prefix_of};

/// A choice.
#[derive(Clone, Copy, Debug)]
pub(crate) struct Chosen {
    /// The package that was chosen.
    pub package: u32,
    /// The state that was tried last; 0 before the first.
    pub state: u32,
    /// How many of the package's states were tried.
    pub tried: u32,
    /// How long the trail was before the choice.
    pub mark: u32,
}

/// The state by which the walk came to where it stands.
pub(crate) fn entered(path: &[Chosen]) -> Option<u32>
    ensures { result ≡ entered path.now (length path.now) }
{
    path.last().map(|chosen| chosen.state)
}

/// The deepest choice.
pub(crate) fn last_choice(path: &[Chosen]) -> Chosen
    requires { 0 < length path.now }
    ensures { result ≡ chosen_at path.now (length path.now - 1) }
{
    path[path.len() - 1]
}

/// Sets the state of the deepest choice, one more of which is tried.
pub(crate) fn try_state(path: &mut Vec<Chosen>, state: u32)
    requires some { 0 < length path.old.items }
    requires few { (chosen_at path.old.items (length path.old.items - 1)).tried < 65536 }
    ensures items { let last = chosen_at path.old.items (length path.old.items - 1) in
        path.new.items ≡ slice_set path.old.items (length path.old.items - 1) (record { «package» = last.package; state = state; tried = last.tried + 1; mark = last.mark }) }
    ensures room { vec_capacity path.old ≤ vec_capacity path.new }
{
    let place = path.len() - 1;
    path[place] = Chosen {
        state,
        tried: path[place].tried + 1,
        ..path[place]
    };
}

/// Takes the deepest choice away.
pub(crate) fn drop_last(path: &mut Vec<Chosen>)
    requires { 0 < length path.old.items }
    ensures items { path.new.items ≡ take (length path.old.items - 1) path.old.items }
    ensures room { vec_capacity path.old ≤ vec_capacity path.new }
{
    let _ = path.pop();
}

/// Whether both are the same states of the same packages.
pub(crate) fn are_same(one: &[Chosen], other: &[Chosen]) -> bool
    ensures { result ≡ true → prefix_of one.now ≡ prefix_of other.now }
{
    if one.len() != other.len() {
        return false;
    }
    for k in 0..one.len() {
        if one[k].package != other[k].package || one[k].state != other[k].state {
            return false;
        }
    }
    true
}
