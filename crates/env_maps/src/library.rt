//! The standard libraries that lie in a folder.
ghost use Rattle.std.specs.Prelude.{◌≡◌, ◌≤◌, IfSome, IfOk, IfErr, option_map};
ghost use Rattle.project_file.specs.Said.{said as said_project};
ghost use Rattle.project_places.specs.Active.{file_in as file_meant};
ghost use Rattle.env_maps.specs.Library as spec;
ghost use Rattle.env_maps.specs.ByName.{found_in, with_name};
ghost use Rattle.project_places.specs.Files.{Adds, Loads};
ghost use Rattle.project_places.specs.Faults.{ReadFaultRose};

use extension_rules::found_at;
use pkg_world::{Duplicate, Listed, Name, Names, NormPath, Store};
use project_file::Project;
use project_places::{EnvFault, file_in, path_in, project_at};
use std::alloc::{AllocError, Global};
use std::marker::Model;
use uuid::Uuid;

/// The identifiers of standard libraries, by their names: what the project files in the folder of the standard libraries
/// say.
#[derive(Drop)]
pub struct Library {
    found: Listed<(Name, Option<Uuid>)>,
}

impl Model for Library {
    ghost use Rattle.std.specs.Prelude.{List, ℕ, Option};

    ghost Value = { List (List ℕ × Option (List ℕ)) };

    ghost view = { λ a. a.found.items };
}

impl Library {
    /// The standard libraries of these names, by the project files in their folders of the standard library folder.
    ///
    /// Errors: BadFile, exactly at the first name whose project file is refused; ReadFault, where the store can't read;
    /// want of memory.
    pub fn load<S: Store>(
        alloc: Global,
        store: &mut S,
        stdlib: &Option<NormPath>,
        names: &Names,
    ) -> Result<Library, EnvFault>
        ensures told { IfSome (S.files store.old) (λ all. Loads (spec.library_in all stdlib.now names.now.items) result) }
        ensures fault { IfErr result (ReadFaultRose (S.read_faults store.old) (S.read_faults store.new)) }
        ensures files { S.files store.new ≡ S.files store.old }
        ensures later { S.read_faults store.old ≤ S.read_faults store.new }
        ensures other { S.write_faults store.new ≡ S.write_faults store.old }
    {
        let mut found = Listed::make(alloc);
        match add_libraries(alloc, store, stdlib, names.items(), &mut found) {
            Ok(()) => Ok(Library { found }),
            Err(fault) => Err(fault),
        }
    }

    /// The identifier that the standard library of that name has, where it was loaded and has one.
    pub fn uuid(&self, name: &Name) -> Option<Uuid>
        ensures { result ≡ found_in self.now name.now }
    {
        match found_at(self.found.items(), name) {
            Some(uuid) => *uuid,
            None => None,
        }
    }
}

fn add_libraries<S: Store>(
    alloc: Global,
    store: &mut S,
    stdlib: &Option<NormPath>,
    names: &[Name],
    found: &mut Listed<(Name, Option<Uuid>)>,
) -> Result<(), EnvFault>
    ensures told { IfSome (S.files store.old) (λ all. Adds (spec.library_in all stdlib.now names.now) found.old.items found.new.items result) }
    ensures fault { IfErr result (ReadFaultRose (S.read_faults store.old) (S.read_faults store.new)) }
    ensures files { S.files store.new ≡ S.files store.old }
    ensures later { S.read_faults store.old ≤ S.read_faults store.new }
    ensures other { S.write_faults store.new ≡ S.write_faults store.old }
{
    'names: for name in names {
        match add_library(alloc, store, stdlib, name, found) {
            Ok(()) => {}
            Err(fault) => return Err(fault),
        }
    }
    Ok(())
}

fn add_library<S: Store>(
    alloc: Global,
    store: &mut S,
    stdlib: &Option<NormPath>,
    name: &Name,
    found: &mut Listed<(Name, Option<Uuid>)>,
) -> Result<(), EnvFault>
    ensures told { IfSome (S.files store.old) (λ all. Adds (with_name (spec.library_read all stdlib.now) name.now) found.old.items found.new.items result) }
    ensures fault { IfErr result (ReadFaultRose (S.read_faults store.old) (S.read_faults store.new)) }
    ensures files { S.files store.new ≡ S.files store.old }
    ensures later { S.read_faults store.old ≤ S.read_faults store.new }
    ensures other { S.write_faults store.new ≡ S.write_faults store.old }
{
    match library_uuid(alloc, store, stdlib, name) {
        Ok(uuid) => {
            found.push((name.copy(alloc)?, uuid))?;
            Ok(())
        }
        Err(fault) => Err(fault),
    }
}

/// The identifier that the project file of the standard library of that name has; None without such a file or folder.
pub(crate) fn library_uuid<S: Store>(
    alloc: Global,
    store: &mut S,
    stdlib: &Option<NormPath>,
    name: &Name,
) -> Result<Option<Uuid>, EnvFault>
    ensures told { IfSome (S.files store.old) (λ all. Loads (spec.library_read all stdlib.now name.now) result) }
    ensures fault { IfErr result (ReadFaultRose (S.read_faults store.old) (S.read_faults store.new)) }
    ensures files { S.files store.new ≡ S.files store.old }
    ensures later { S.read_faults store.old ≤ S.read_faults store.new }
    ensures other { S.write_faults store.new ≡ S.write_faults store.old }
{
    match library_folder(alloc, stdlib, name) {
        Ok(Some(folder)) => uuid_in(alloc, store, &folder),
        Ok(None) => Ok(None),
        Err(_) => Err(EnvFault::Memory),
    }
}

fn uuid_in<S: Store>(
    alloc: Global,
    store: &mut S,
    folder: &NormPath,
) -> Result<Option<Uuid>, EnvFault>
    ensures told { IfSome (S.files store.old) (λ all. Loads (spec.uuid_at all (file_meant all folder.now)) result) }
    ensures fault { IfErr result (ReadFaultRose (S.read_faults store.old) (S.read_faults store.new)) }
    ensures files { S.files store.new ≡ S.files store.old }
    ensures later { S.read_faults store.old ≤ S.read_faults store.new }
    ensures other { S.write_faults store.new ≡ S.write_faults store.old }
{
    match file_in(alloc, store, folder) {
        Ok(file) => uuid_at(alloc, store, &file),
        Err(fault) => Err(fault),
    }
}

fn uuid_at<S: Store>(
    alloc: Global,
    store: &mut S,
    file: &NormPath,
) -> Result<Option<Uuid>, EnvFault>
    ensures told { IfSome (S.files store.old) (λ all. Loads (spec.uuid_at all file.now) result) }
    ensures fault { IfErr result (ReadFaultRose (S.read_faults store.old) (S.read_faults store.new)) }
    ensures files { S.files store.new ≡ S.files store.old }
    ensures later { S.read_faults store.old ≤ S.read_faults store.new }
    ensures other { S.write_faults store.new ≡ S.write_faults store.old }
{
    match project_at(alloc, store, file) {
        Ok(project) => Ok(uuid_of(&project)),
        Err(fault) => Err(fault),
    }
}

#[tactic(auto, unfolding(project_file::specs::Said::said))]
fn uuid_of(project: &Option<Project>) -> Option<Uuid>
    ensures { result ≡ spec.uuid_of (option_map said_project project.now) }
{
    match project {
        Some(project) => project.uuid,
        None => None,
    }
}

/// The folder of the standard library of that name; None without a standard library folder, and where it would rise above
/// the root.
pub(crate) fn library_folder(
    alloc: Global,
    stdlib: &Option<NormPath>,
    name: &Name,
) -> Result<Option<NormPath>, AllocError>
    ensures { IfOk result (λ folder. folder ≡ spec.library_folder stdlib.now name.now) }
{
    match stdlib {
        Some(stdlib) => path_in(alloc, stdlib, name.as_str()),
        None => Ok(None),
    }
}
