//! The environments of a stack.
ghost use Rattle.std.specs.Prelude.{◌≡◌, ◌≤◌, Ok, IfSome, IfOk, IfErr, MatchResult};
ghost use Rattle.project_places.specs.Files.{Adds, Refuses};
ghost use Rattle.project_places.specs.Faults.{OnlyReadFault, ReadFaultRose};
ghost use Rattle.env_maps.specs.Contexts.{in_graph};
ghost use Rattle.env_maps.specs.Maps.{dep_answer};
ghost use Rattle.import_lookup.specs.Import.{path_seen};
ghost use Rattle.import_lookup.specs.Loading as spec;

use env_maps::{Context, DepAnswer, EnvFault, FolderEnv, Id, Library, ProjectEnv};
use pkg_world::{Listed, Name, Names, NormPath, Store};
use std::alloc::{AllocError, Global};
use std::collections::VecDeque;

/// An environment of the load path, before the packages of a package folder are looked up.
#[derive(Drop)]
pub enum Environment {
    Project(ProjectEnv),
    Folder(NormPath),
}

/// An environment as a stack keeps it.
#[derive(Drop)]
pub enum Loaded {
    Project(ProjectEnv),
    Folder(FolderEnv),
}

impl Loaded {
    /// The identity that the environment gives a name. The one error is want of memory.
    pub(crate) fn root(&self, alloc: Global, name: &Name) -> Result<Option<Id>, AllocError>
        ensures { IfOk result (λ id. id ≡ spec.loaded_root self.now name.now) }
    {
        match self {
            Loaded::Project(env) => env.root(alloc, name),
            Loaded::Folder(env) => env.root(alloc, name),
        }
    }

    /// What the environment's graph says of a name from a context. The one error is want of memory.
    pub(crate) fn dep(
        &self,
        alloc: Global,
        context: &Context,
        name: &Name,
    ) -> Result<DepAnswer, AllocError>
        ensures { IfOk result (λ answer. answer ≡ dep_answer name.now (in_graph (spec.loaded_graph self.now) context.now)) }
    {
        match self {
            Loaded::Project(env) => env.dep(alloc, context, name),
            Loaded::Folder(env) => env.dep(alloc, context, name),
        }
    }

    /// The entry path of an identity, as it is seen from a context.
    ///
    /// Errors: ReadFault, where the store can't tell what is there; want of memory.
    pub(crate) fn entry<S: Store>(
        &self,
        alloc: Global,
        store: &mut S,
        library: &Library,
        context: &Context,
        id: &Id,
    ) -> Result<Option<NormPath>, EnvFault>
        ensures path { IfSome (S.files store.old) (λ all. IfOk result (λ path. path ≡ path_seen all context.now id.now (spec.loaded_maps all library.now self.now))) }
        ensures refused { IfErr result (OnlyReadFault (S.read_faults store.old) (S.read_faults store.new)) }
        ensures files { S.files store.new ≡ S.files store.old }
        ensures later { S.read_faults store.old ≤ S.read_faults store.new }
        ensures other { S.write_faults store.new ≡ S.write_faults store.old }
    {
        match self {
            Loaded::Project(env) => env.entry_by(alloc, store, library, context, id),
            Loaded::Folder(env) => env.entry(alloc, store, context, id),
        }
    }
}

/// The environments as a stack keeps them: of each package folder the packages of these names.
///
/// Errors: BadFile, exactly at the first project file that is refused; ReadFault, where the store can't read; want of
/// memory.
pub(crate) fn load_each<S: Store>(
    alloc: Global,
    store: &mut S,
    names: &Names,
    envs: VecDeque<Environment>,
) -> Result<Listed<Loaded>, EnvFault>
    ensures told { IfSome (S.files store.old) (λ all. MatchResult result (λ list. spec.all_loaded all names.now.items envs.items ≡ Ok list.items) (Refuses (spec.all_loaded all names.now.items envs.items))) }
    ensures fault { IfErr result (ReadFaultRose (S.read_faults store.old) (S.read_faults store.new)) }
    ensures files { S.files store.new ≡ S.files store.old }
    ensures later { S.read_faults store.old ≤ S.read_faults store.new }
    ensures other { S.write_faults store.new ≡ S.write_faults store.old }
{
    let mut list = Listed::make(alloc);
    match add_each(alloc, store, names, envs, &mut list) {
        Ok(()) => Ok(list),
        Err(fault) => Err(fault),
    }
}

fn add_each<S: Store>(
    alloc: Global,
    store: &mut S,
    names: &Names,
    envs: VecDeque<Environment>,
    list: &mut Listed<Loaded>,
) -> Result<(), EnvFault>
    ensures told { IfSome (S.files store.old) (λ all. Adds (spec.all_loaded all names.now.items envs.items) list.old.items list.new.items result) }
    ensures fault { IfErr result (ReadFaultRose (S.read_faults store.old) (S.read_faults store.new)) }
    ensures files { S.files store.new ≡ S.files store.old }
    ensures later { S.read_faults store.old ≤ S.read_faults store.new }
    ensures other { S.write_faults store.new ≡ S.write_faults store.old }
{
    let mut left = envs;
    'envs: loop {
        let Some(env) = left.pop_front() else {
            return Ok(());
        };
        match add_loaded(alloc, store, names, env, list) {
            Ok(()) => {}
            Err(fault) => return Err(fault),
        }
    }
}

fn add_loaded<S: Store>(
    alloc: Global,
    store: &mut S,
    names: &Names,
    env: Environment,
    list: &mut Listed<Loaded>,
) -> Result<(), EnvFault>
    ensures told { IfSome (S.files store.old) (λ all. Adds (spec.loaded_of all names.now.items env) list.old.items list.new.items result) }
    ensures fault { IfErr result (ReadFaultRose (S.read_faults store.old) (S.read_faults store.new)) }
    ensures files { S.files store.new ≡ S.files store.old }
    ensures later { S.read_faults store.old ≤ S.read_faults store.new }
    ensures other { S.write_faults store.new ≡ S.write_faults store.old }
{
    match env {
        Environment::Project(env) => {
            list.push(Loaded::Project(env))?;
            Ok(())
        }
        Environment::Folder(folder) => add_folder(alloc, store, names, &folder, list),
    }
}

fn add_folder<S: Store>(
    alloc: Global,
    store: &mut S,
    names: &Names,
    folder: &NormPath,
    list: &mut Listed<Loaded>,
) -> Result<(), EnvFault>
    ensures told { IfSome (S.files store.old) (λ all. Adds (spec.loaded_of all names.now.items (Environment.Folder folder.now)) list.old.items list.new.items result) }
    ensures fault { IfErr result (ReadFaultRose (S.read_faults store.old) (S.read_faults store.new)) }
    ensures files { S.files store.new ≡ S.files store.old }
    ensures later { S.read_faults store.old ≤ S.read_faults store.new }
    ensures other { S.write_faults store.new ≡ S.write_faults store.old }
{
    match FolderEnv::load(alloc, store, folder, names) {
        Ok(env) => {
            list.push(Loaded::Folder(env))?;
            Ok(())
        }
        Err(fault) => Err(fault),
    }
}
