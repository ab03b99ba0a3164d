//! A registry and its packages.
ghost use Rattle.std.specs.Prelude.{◌≡◌, ◌∷◌, ◌++◌, [], false, find, OnOk};
ghost use Rattle.std.specs.Option.{option_copied};
ghost use Rattle.std.specs.Str.{bytes_eq};
ghost use Rattle.registry_tables.specs.Packages.{is_listed};

use indexmap::IndexMap;
use pkg_world::{Name, NormPath};
use std::alloc::{AllocError, Global};
use std::marker::Model;
use uuid::Uuid;

/// A package that a registry lists: its identifier, its name, and the text of its folder's path, which is taken from
/// the registry's folder.
#[derive(Debug, Drop)]
pub struct Package {
    pub uuid: Uuid,
    pub name: Name,
    pub path: Name,
}

/// The packages of a registry, in the order of their keys' bytes in the registry's file, each identifier once.
#[derive(Debug, Drop)]
pub struct PackageList {
    by_id: IndexMap<Uuid, Package>,
}

impl Model for PackageList {
    ghost use Rattle.std.specs.Prelude.{List};
    ghost use Rattle.std.specs.Map.{values_of};
    ghost use Rattle.registry_tables.specs.Packages.{IsById};
    ghost use Rattle.registry_tables.specs.declared.package_list.Package.{Package};

    ghost Value = { List Package };

    ghost view = { λ a. values_of a.by_id.entries };

    ghost invariant = { λ a. IsById a.by_id.entries };
}

impl PackageList {
    /// No package.
    pub(crate) fn make(alloc: Global) -> PackageList
        ensures { result ≡ [] }
    {
        PackageList {
            by_id: IndexMap::new(alloc),
        }
    }

    /// The packages, in order. Takes no memory.
    pub fn items(&self) -> &[Package]
        ensures { result.now ≡ self.now }
    {
        self.by_id.values().as_slice()
    }

    /// The package of that identifier, None where there is none. Takes no memory; by a hash of the identifier.
    pub fn get(&self, uuid: &Uuid) -> Option<&Package>
        ensures { option_copied result ≡ find (λ it. bytes_eq uuid.now it.uuid) self.now }
    {
        self.by_id.get(uuid)
    }

    /// Whether a package has that identifier. Takes no memory; by a hash of the identifier.
    pub(crate) fn contains(&self, uuid: &Uuid) -> bool
        ensures { result ≡ is_listed self.now uuid.now }
    {
        self.by_id.contains_key(uuid)
    }

    /// Appends a package, whose identifier no other has. The one error is want of memory.
    pub(crate) fn push(&mut self, listed: Package) -> Result<(), AllocError>
        requires { is_listed self.old listed.uuid ≡ false }
        ensures { OnOk result (self.new ≡ self.old ++ listed ∷ []) }
    {
        self.by_id.insert(listed.uuid, listed)?;
        Ok(())
    }
}

/// A registry that was read: its folder, its name and identifier, and its packages.
#[derive(Debug, Drop)]
pub struct Registry {
    pub folder: NormPath,
    pub name: Name,
    pub uuid: Uuid,
    pub packages: PackageList,
}
