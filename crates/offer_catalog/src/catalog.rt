//! The catalog of a command.
ghost use Rattle.std.specs.Prelude.{◌≡◌, map, option_map, option_copied};
ghost use Rattle.package_tables.specs.Row.{value_of};
ghost use Rattle.offer_terms.specs.Demanded.{fixed_said};

use crate::trees::Trees;
use jl_versions::Version;
use offer_terms::FixedList;
use package_offers::TreeExtensions;
use pkg_world::{Home, Listed};
use registered_offers::LoadedRegistry;
use standard_libraries::{Libraries, Library};
use std::marker::Model;
use uuid::Uuid;

/// What the files of a command offer besides the tables of registered packages: which packages the registries list, the
/// standard libraries, the fixed packages, and the extensions that the manifest has for trees. It keeps the paths of the
/// project's two files.
#[derive(Drop)]
pub struct Catalog {
    home: Home,
    registries: Listed<LoadedRegistry>,
    libraries: Libraries,
    fixed: FixedList,
    trees: Trees,
}

impl Model for Catalog {
    ghost use Rattle.std.specs.Prelude.{map};
    ghost use Rattle.offer_terms.specs.Demanded.{fixed_said};
    ghost use Rattle.offer_catalog.specs.SaidCatalog.{SaidCatalog};

    ghost Value = { SaidCatalog };

    ghost view = { λ a. record {
      home = a.home;
      registries = a.registries.items;
      libraries = a.libraries.entries;
      fixed = map fixed_said a.fixed.items;
      trees = a.trees.entries;
    } };
}

impl Catalog {
    /// The catalog of these parts.
    pub(crate) fn of(
        home: Home,
        registries: Listed<LoadedRegistry>,
        libraries: Libraries,
        fixed: FixedList,
        trees: Trees,
    ) -> Catalog
        ensures { result ≡ record {
          home = home;
          registries = registries.items;
          libraries = libraries.entries;
          fixed = map fixed_said fixed.items;
          trees = trees.entries;
        } }
    {
        Catalog {
            home,
            registries,
            libraries,
            fixed,
            trees,
        }
    }

    /// The paths of the project's two files.
    pub fn home(&self) -> &Home
        ensures { result.now ≡ self.now.home }
    {
        &self.home
    }

    /// The registries, in their order: by the depots and then by the names of their folders.
    pub fn registries(&self) -> &[LoadedRegistry]
        ensures { result.now ≡ self.now.registries }
    {
        self.registries.items()
    }

    /// The fixed packages, in the order of their identifiers.
    pub fn fixed(&self) -> &FixedList
        ensures { map fixed_said result.now.items ≡ self.now.fixed }
    {
        &self.fixed
    }

    /// The standard libraries, by their identifiers.
    pub(crate) fn libraries(&self) -> &Libraries
        ensures { result.now.entries ≡ self.now.libraries }
    {
        &self.libraries
    }

    /// The standard library of that identifier. Takes no memory.
    pub fn library(&self, uuid: &Uuid) -> Option<&Library>
        ensures { option_copied result ≡ value_of uuid.now self.now.libraries }
    {
        self.libraries.get(uuid)
    }

    /// The version of the standard library of that identifier. Takes no memory.
    pub fn standard(&self, uuid: &Uuid) -> Option<&Version>
        ensures { option_copied result ≡ option_map (λ library. library.version) (value_of uuid.now self.now.libraries) }
    {
        match self.library(uuid) {
            Some(library) => Some(library.version()),
            None => None,
        }
    }

    /// The tree of the manifest's stanza of that package, with the extensions that the stanza has for it. Takes no memory.
    pub fn tree_extensions(&self, uuid: &Uuid) -> Option<&TreeExtensions>
        ensures { option_copied result ≡ value_of uuid.now self.now.trees }
    {
        self.trees.get(uuid)
    }
}
