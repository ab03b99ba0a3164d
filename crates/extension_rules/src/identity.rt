//! Identifiers that are made of names.
ghost use Rattle.std.specs.Prelude.{◌≡◌};
ghost use Rattle.extension_rules.specs.NamedIds as spec;

use pkg_world::Name;
use uuid::Uuid;

/// The identifier of a text in a namespace (RFC 9562, version 5). It takes no memory.
pub fn named_id(namespace: &Uuid, text: &str) -> Uuid
    ensures { result ≡ spec.named_id namespace.now text.now }
{
    Uuid::new_v5(namespace, text.as_bytes())
}

/// The identifier of a package's extension: that of its name in the namespace of the package's identifier. It takes no
/// memory. (Own rule, after Julia's loader; RFC 9562, version 5.)
pub fn extension_id(parent: &Uuid, name: &Name) -> Uuid
    ensures { result ≡ spec.extension_id parent.now name.now }
{
    named_id(parent, name.as_str())
}
