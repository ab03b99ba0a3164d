//! Looking for names.
ghost use Rattle.std.specs.Prelude.{◌≡◌};
ghost use Rattle.project_file.specs.Edits.{has_name};

use pkg_world::Name;

/// Whether the list has the name. Takes no memory.
pub(crate) fn has<T>(pairs: &[(Name, T)], name: &Name) -> bool
    ensures { result ≡ has_name name.now pairs.now }
{
    for pair in pairs {
        if pair.0.as_str() == name.as_str() {
            return true;
        }
    }
    false
}
