//! Lists into whose room is written.
ghost use Rattle.std.specs.Prelude.{◌≡◌, ◌<◌, ◌≤◌, ◌∷◌, ◌++◌, [], length, vec_capacity};

/// Appends an item into the room that is there.
pub(crate) fn append<T: Copy>(list: &mut Vec<T>, item: T)
    requires { length list.old.items < vec_capacity list.old }
    ensures items { list.new.items ≡ list.old.items ++ item ∷ [] }
    ensures room { vec_capacity list.old ≤ vec_capacity list.new }
{
    match list.push(item) {
        Ok(()) => {}
        Err(_) => unreachable!(),
    }
}

/// Writes the items over those that were there.
pub(crate) fn write_over<T: Copy>(list: &mut Vec<T>, items: &[T])
    requires { length items.now ≤ vec_capacity list.old }
    ensures items { list.new.items ≡ items.now }
    ensures room { vec_capacity list.old ≤ vec_capacity list.new }
{
    list.clear();
    for item in items {
        append(list, *item);
    }
}
