//! What stands under a name.
ghost use Rattle.std.specs.Prelude.{◌≡◌};
ghost use Rattle.std.specs.Option.{option_copied};
ghost use Rattle.extension_rules.specs.ByName as spec;

use pkg_world::Name;

/// What stands first under a name. It takes no memory.
pub fn found_at<'a, T>(found: &'a [(Name, T)], name: &Name) -> Option<&'a T>
    ensures { option_copied result ≡ spec.found_at name.now found.now }
{
    for (key, value) in found {
        if key.as_str() == name.as_str() {
            return Some(value);
        }
    }
    None
}

/// Whether a name is among others. It takes no memory.
pub fn is_among(names: &[Name], name: &Name) -> bool
    ensures { result ≡ spec.is_among name.now names.now }
{
    for key in names {
        if key.as_str() == name.as_str() {
            return true;
        }
    }
    false
}
