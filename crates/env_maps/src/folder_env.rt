//! The environment of a package folder.
ghost use Rattle.std.specs.Prelude.{◌≡◌, ◌≤◌, IfSome, IfOk, IfErr};
ghost use Rattle.std.specs.Option.{option_copied};
ghost use Rattle.env_maps.specs.ByName.{found_in, with_name};
ghost use Rattle.env_maps.specs.Candidates as spec;
ghost use Rattle.project_places.specs.Files.{Adds, Loads};
ghost use Rattle.env_maps.specs.Contexts.{in_graph, path_from};
ghost use Rattle.env_maps.specs.Maps.{dep_answer};
ghost use Rattle.env_maps.specs.ThreeMaps.{folder_maps};
ghost use Rattle.project_places.specs.Faults.{OnlyReadFault, ReadFaultRose};

use crate::candidate::{Candidate, candidate_in, has_uuid};
use crate::context::{base_of, dep_from_extension, dep_from_package, entry_from, package_id};
use crate::id::{Context, DepAnswer, Id};
use crate::uses::UsesRef;
use extension_rules::found_at;
use pkg_world::{Duplicate, Listed, Name, Names, NormPath, Store};
use project_places::EnvFault;
use std::alloc::{AllocError, Global};
use std::marker::Model;

/// The environment of a package folder: what the packages in it make of the names with which it was loaded. (Julia manual,
/// Code Loading.) Of any other name its calls say that there is none.
#[derive(Drop)]
pub struct FolderEnv {
    found: Listed<(Name, Option<Candidate>)>,
}

impl Model for FolderEnv {
    ghost use Rattle.std.specs.Prelude.{List, ℕ, Option};
    ghost use Rattle.env_maps.specs.Candidates.{Candidate};

    ghost Value = { List (List ℕ × Option Candidate) };

    ghost view = { λ a. a.found.items };
}

impl FolderEnv {
    /// The packages of these names in a package folder. The package X is the first that is a file of `X/src/X.jl`,
    /// `X.jl/src/X.jl` and `X.jl`; the project file of the folder `X` or `X.jl` belongs to the first two.
    ///
    /// Errors: BadFile, exactly at the first name whose package has a project file that is refused; ReadFault, where the
    /// store can't read; want of memory.
    pub fn load<S: Store>(
        alloc: Global,
        store: &mut S,
        folder: &NormPath,
        names: &Names,
    ) -> Result<FolderEnv, EnvFault>
        ensures told { IfSome (S.files store.old) (λ all. Loads (spec.candidates_in all folder.now names.now.items) result) }
        ensures fault { IfErr result (ReadFaultRose (S.read_faults store.old) (S.read_faults store.new)) }
        ensures files { S.files store.new ≡ S.files store.old }
        ensures later { S.read_faults store.old ≤ S.read_faults store.new }
        ensures other { S.write_faults store.new ≡ S.write_faults store.old }
    {
        let mut found = Listed::make(alloc);
        match add_candidates(alloc, store, folder, names.items(), &mut found) {
            Ok(()) => Ok(FolderEnv { found }),
            Err(fault) => Err(fault),
        }
    }

    /// The identity of the package of that name: with its project file's identifier, with one that is made of the file's
    /// path where that has none, and without one where there is no project file. The one error is want of memory.
    pub fn root(&self, alloc: Global, name: &Name) -> Result<Option<Id>, AllocError>
        ensures { IfOk result (λ id. id ≡ (folder_maps (found_in self.now)).roots name.now) }
    {
        match self.candidate(name) {
            Some(candidate) => Ok(Some(Id {
                uuid: candidate.uuid,
                name: name.copy(alloc)?,
            })),
            None => Ok(None),
        }
    }

    /// What the folder's graph says of a name from a context: each package with a project file has that file's
    /// dependencies, and each extension that the file names has the package, its triggers and those dependencies. The one
    /// error is want of memory.
    pub fn dep(
        &self,
        alloc: Global,
        context: &Context,
        name: &Name,
    ) -> Result<DepAnswer, AllocError>
        ensures { IfOk result (λ answer. answer ≡ dep_answer name.now (in_graph (folder_maps (found_in self.now)).graph context.now)) }
    {
        match context {
            Context::Top => Ok(DepAnswer::NotMine),
            Context::Package(id) => dep_from_package(alloc, self.uses(id), name),
            Context::Extension(uuid, parent, extension) => {
                let id = package_id(alloc, uuid, parent)?;
                dep_from_extension(alloc, self.uses(&id), uuid, parent, extension, name)
            }
        }
    }

    /// The path of an identity's entry file; None exactly where the folder has no package of that name and identifier. From
    /// an extension the extension itself has its own, beside its parent's `src`.
    ///
    /// Errors: ReadFault, where the store can't tell what is there; want of memory.
    pub fn entry<S: Store>(
        &self,
        alloc: Global,
        store: &mut S,
        context: &Context,
        id: &Id,
    ) -> Result<Option<NormPath>, EnvFault>
        ensures path { IfSome (S.files store.old) (λ all. IfOk result (λ path. path ≡ path_from all (folder_maps (found_in self.now)).graph (folder_maps (found_in self.now)).paths context.now id.now)) }
        ensures refused { IfErr result (OnlyReadFault (S.read_faults store.old) (S.read_faults store.new)) }
        ensures files { S.files store.new ≡ S.files store.old }
        ensures later { S.read_faults store.old ≤ S.read_faults store.new }
        ensures other { S.write_faults store.new ≡ S.write_faults store.old }
    {
        let base = base_of(alloc, context, id)?;
        let entry = self.entry_of(alloc, &base)?;
        entry_from(alloc, store, context, id, self.uses(&base), entry)
    }

    /// The entry file of a package.
    fn entry_of(&self, alloc: Global, id: &Id) -> Result<Option<NormPath>, AllocError>
        ensures { IfOk result (λ path. path ≡ (folder_maps (found_in self.now)).paths id.now) }
    {
        match self.candidate_of(id) {
            Some(candidate) => Ok(Some(candidate.entry.copy(alloc)?)),
            None => Ok(None),
        }
    }

    /// What a package uses; None where it isn't there or has no project file.
    fn uses<'a>(&'a self, id: &Id) -> Option<UsesRef<'a>>
        ensures { result ≡ (folder_maps (found_in self.now)).graph id.now }
    {
        match self.candidate_of(id) {
            Some(candidate) => candidate_uses(candidate),
            None => None,
        }
    }

    /// The package of a name.
    fn candidate(&self, name: &Name) -> Option<&Candidate>
        ensures { option_copied result ≡ found_in self.now name.now }
    {
        match found_at(self.found.items(), name) {
            Some(Some(candidate)) => Some(candidate),
            Some(None) => None,
            None => None,
        }
    }

    /// The package of an identity.
    fn candidate_of(&self, id: &Id) -> Option<&Candidate>
        ensures { option_copied result ≡ spec.with_uuid id.now.uuid (found_in self.now id.now.name) }
    {
        match self.candidate(&id.name) {
            Some(candidate) => {
                if has_uuid(candidate, &id.uuid) {
                    Some(candidate)
                } else {
                    None
                }
            }
            None => None,
        }
    }
}

fn candidate_uses<'a>(candidate: &'a Candidate) -> Option<UsesRef<'a>>
    ensures { result ≡ candidate.now.uses }
{
    match &candidate.uses {
        Some(uses) => Some(uses.lent()),
        None => None,
    }
}

fn add_candidates<S: Store>(
    alloc: Global,
    store: &mut S,
    folder: &NormPath,
    names: &[Name],
    found: &mut Listed<(Name, Option<Candidate>)>,
) -> Result<(), EnvFault>
    ensures told { IfSome (S.files store.old) (λ all. Adds (spec.candidates_in all folder.now names.now) found.old.items found.new.items result) }
    ensures fault { IfErr result (ReadFaultRose (S.read_faults store.old) (S.read_faults store.new)) }
    ensures files { S.files store.new ≡ S.files store.old }
    ensures later { S.read_faults store.old ≤ S.read_faults store.new }
    ensures other { S.write_faults store.new ≡ S.write_faults store.old }
{
    'names: for name in names {
        match add_candidate(alloc, store, folder, name, found) {
            Ok(()) => {}
            Err(fault) => return Err(fault),
        }
    }
    Ok(())
}

fn add_candidate<S: Store>(
    alloc: Global,
    store: &mut S,
    folder: &NormPath,
    name: &Name,
    found: &mut Listed<(Name, Option<Candidate>)>,
) -> Result<(), EnvFault>
    ensures told { IfSome (S.files store.old) (λ all. Adds (with_name (spec.candidate_read all folder.now) name.now) found.old.items found.new.items result) }
    ensures fault { IfErr result (ReadFaultRose (S.read_faults store.old) (S.read_faults store.new)) }
    ensures files { S.files store.new ≡ S.files store.old }
    ensures later { S.read_faults store.old ≤ S.read_faults store.new }
    ensures other { S.write_faults store.new ≡ S.write_faults store.old }
{
    match candidate_in(alloc, store, folder, name) {
        Ok(candidate) => {
            found.push((name.copy(alloc)?, candidate))?;
            Ok(())
        }
        Err(fault) => Err(fault),
    }
}
