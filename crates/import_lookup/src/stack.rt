//! The stack of environments.
ghost use Rattle.std.specs.Prelude.{◌≡◌, ◌≤◌, ℕ, List, Ok, IfSome, IfErr};
ghost use Rattle.env_maps.specs.declared.id.Context.{Context};
ghost use Rattle.project_places.specs.Files.{Loads, Refuses};
ghost use Rattle.project_places.specs.Faults.{ReadFaultRose};
ghost use Rattle.import_lookup.specs.Loading as spec;

use crate::load_path::{elements, environments};
use crate::loaded::{Environment, Loaded, load_each};
use env_maps::{EnvFault, Library};
use pkg_world::{Listed, Names, Place, Store};
use std::alloc::Global;
use std::collections::VecDeque;
use std::marker::Model;

/// The environments that a load path gives, in their order, and what they say of the names with which the stack was
/// loaded. (Julia manual, Code Loading.)
#[derive(Drop)]
pub struct Stack {
    envs: Listed<Loaded>,
    library: Library,
}

impl Model for Stack {
    ghost use Rattle.import_lookup.specs.Loading.{Held};

    ghost Value = { Held };

    ghost view = { λ a. record { envs = a.envs.items; library = a.library } };
}

impl Stack {
    /// The stack of the place's load path, for these names.
    ///
    /// All files are read, needed or not, in this order: for each element of the load path the project file and the
    /// manifest; then for each package folder the project files of the packages of these names; last the project files of
    /// the standard libraries of these names.
    ///
    /// Errors: BadFile, exactly at the first of these files that is refused; ReadFault, where the store can't read; want
    /// of memory.
    pub fn load<S: Store>(
        alloc: Global,
        store: &mut S,
        place: &Place,
        names: &Names,
    ) -> Result<Stack, EnvFault>
        ensures told { IfSome (S.files store.old) (λ all. Loads (spec.stack_in all place.now names.now.items) result) }
        ensures refused { IfSome (S.files store.old) (λ all. IfErr result (λ fault. (context : Context) → (name : List ℕ) → Refuses (spec.import_in all place.now names.now.items context name) fault)) }
        ensures fault { IfErr result (ReadFaultRose (S.read_faults store.old) (S.read_faults store.new)) }
        ensures files { S.files store.new ≡ S.files store.old }
        ensures later { S.read_faults store.old ≤ S.read_faults store.new }
        ensures other { S.write_faults store.new ≡ S.write_faults store.old }
    {
        loaded(alloc, store, place, names)
    }

    /// The environments.
    pub(crate) fn envs(&self) -> &[Loaded]
        ensures { result.now ≡ self.now.envs }
    {
        self.envs.items()
    }

    /// The standard libraries.
    pub(crate) fn library(&self) -> &Library
        ensures { result.now ≡ self.now.library }
    {
        &self.library
    }
}

fn loaded<S: Store>(
    alloc: Global,
    store: &mut S,
    place: &Place,
    names: &Names,
) -> Result<Stack, EnvFault>
    ensures told { IfSome (S.files store.old) (λ all. Loads (spec.stack_in all place.now names.now.items) result) }
    ensures fault { IfErr result (ReadFaultRose (S.read_faults store.old) (S.read_faults store.new)) }
    ensures files { S.files store.new ≡ S.files store.old }
    ensures later { S.read_faults store.old ≤ S.read_faults store.new }
    ensures other { S.write_faults store.new ≡ S.write_faults store.old }
{
    let texts = elements(alloc, &place.load_path)?;
    match environments(alloc, store, place, texts.items()) {
        Ok(envs) => with_envs(alloc, store, place, names, envs),
        Err(fault) => Err(fault),
    }
}

fn with_envs<S: Store>(
    alloc: Global,
    store: &mut S,
    place: &Place,
    names: &Names,
    envs: VecDeque<Environment>,
) -> Result<Stack, EnvFault>
    ensures told { IfSome (S.files store.old) (λ all. Loads (spec.held_of all place.now names.now.items envs.items) result) }
    ensures fault { IfErr result (ReadFaultRose (S.read_faults store.old) (S.read_faults store.new)) }
    ensures files { S.files store.new ≡ S.files store.old }
    ensures later { S.read_faults store.old ≤ S.read_faults store.new }
    ensures other { S.write_faults store.new ≡ S.write_faults store.old }
{
    match load_each(alloc, store, names, envs) {
        Ok(envs) => with_library(alloc, store, place, names, envs),
        Err(fault) => Err(fault),
    }
}

fn with_library<S: Store>(
    alloc: Global,
    store: &mut S,
    place: &Place,
    names: &Names,
    envs: Listed<Loaded>,
) -> Result<Stack, EnvFault>
    ensures told { IfSome (S.files store.old) (λ all. Loads (spec.with_library all place.now names.now.items envs.items) result) }
    ensures fault { IfErr result (ReadFaultRose (S.read_faults store.old) (S.read_faults store.new)) }
    ensures files { S.files store.new ≡ S.files store.old }
    ensures later { S.read_faults store.old ≤ S.read_faults store.new }
    ensures other { S.write_faults store.new ≡ S.write_faults store.old }
{
    match Library::load(alloc, store, &place.stdlib, names) {
        Ok(library) => Ok(Stack { envs, library }),
        Err(fault) => Err(fault),
    }
}
