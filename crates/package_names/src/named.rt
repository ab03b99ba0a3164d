//! Looking names up.
ghost use Rattle.std.specs.Prelude.{◌≡◌, IsTrue};
ghost use Rattle.std.specs.Option.{option_copied};
ghost use Rattle.pkg_world.specs.ByName.{is_by_name};
ghost use Rattle.package_tables.specs.Row.{by_bytes, value_of};

use pkg_world::Name;
use std::cmp::Ordering;

/// What stands at a name, by halving. Takes no memory.
pub fn value_named<'a, T>(pairs: &'a [(Name, T)], name: &str) -> Option<&'a T>
    requires { IsTrue (is_by_name pairs.now) }
    ensures { option_copied result ≡ value_of name.now pairs.now }
{
    match pairs.binary_search_by(|pair| against(pair, name)) {
        Ok(place) => Some(&pairs[place].1),
        Err(_) => None,
    }
}

fn against<T>(pair: &(Name, T), name: &str) -> Ordering
    ensures { result ≡ by_bytes pair.now.0 name.now }
{
    pair.0.as_str().as_bytes().cmp(name.as_bytes())
}
