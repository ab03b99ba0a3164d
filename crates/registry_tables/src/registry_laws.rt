//! Laws on what a registry's file says.
ghost use Rattle.registry_tables.specs.RegistryKeys.{RegistryKeyOrder, PackageKeyOrder};

/// A registry's file is refused for the first of its refused keys by the keys' bytes, and so is the table of a package.
pub fn first_refusal_of_a_registry()
    ensures registry { RegistryKeyOrder }
    ensures packages { PackageKeyOrder }
{}
