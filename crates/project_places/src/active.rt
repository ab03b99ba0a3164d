//! The active project's file.
ghost use Rattle.std.specs.Prelude.{◌≡◌, ◌≢◌, ◌==◌, ◌≤◌, ℕ, List, Some, length, true, false, MatchOption, IfSome, IfOk, IfErr};
ghost use Rattle.std.specs.List.{position_or_len, after_first};
ghost use Rattle.pkg_world.specs.Path.{joined};
ghost use Rattle.project_places.specs.Active as spec;
ghost use Rattle.project_places.specs.Faults.{OnlyReadFault};
ghost use Rattle.project_places.specs.Seen.{active_of};

use crate::environment_text::{environment_text, version_folder};
use crate::fault::EnvFault;
use crate::folders::{file_in, first_environment, in_first, nearest};
use pkg_world::{Duplicate, NormPath, PathFault, Place, Store};
use std::alloc::{AllocError, Global};

/// Where the place's project text points.
#[derive(Debug, Drop)]
enum Active {
    InFolder(NormPath),
    TheFile(NormPath),
}

/// The path of the active project's file, which need not be there: what the place's project text means. (Julia manual,
/// Code Loading; what stands for the current folder is our own.)
///
/// A path, from the current folder, whose last part ends in `.toml` is that file. Any other is a folder, whose project
/// file is `JuliaProject.toml` where that is there, else `Project.toml`. The other texts mean a folder:
///
/// - no text, and `@`: `environments/vMAJOR.MINOR` in the first depot, or the current folder without a depot;
/// - `@.`: the nearest folder with a project file, from the current folder up to the root;
/// - `@NAME`: the first depot's `environments/NAME` that has a project file, where the first three `#` are the numbers
///   of Julia's version; where no depot has it, that of the first depot.
///
/// An empty text, `@stdlib`, an `@.` that finds nothing, a path that rises above the root, and an `@NAME` without a
/// depot stand for the current folder.
///
/// Errors: ReadFault, where the store can't tell what is there, and want of memory.
pub fn active_project<S: Store>(
    alloc: Global,
    store: &mut S,
    place: &Place,
) -> Result<NormPath, EnvFault>
    ensures path { IfSome (S.files store.old) (λ all. IfOk result (λ path. spec.active_file all place.now ≡ path)) }
    ensures refused { IfErr result (OnlyReadFault (S.read_faults store.old) (S.read_faults store.new)) }
    ensures files { S.files store.new ≡ S.files store.old }
    ensures later { S.read_faults store.old ≤ S.read_faults store.new }
    ensures other { S.write_faults store.new ≡ S.write_faults store.old }
{
    match named_by(alloc, store, place) {
        Ok(Active::InFolder(folder)) => file_in(alloc, store, &folder),
        Ok(Active::TheFile(path)) => Ok(path),
        Err(fault) => Err(fault),
    }
}

fn named_by<S: Store>(alloc: Global, store: &mut S, place: &Place) -> Result<Active, EnvFault>
    ensures active { IfSome (S.files store.old) (λ all. IfOk result (λ active. active_of active ≡ spec.named_by all place.now place.now.project)) }
    ensures refused { IfErr result (OnlyReadFault (S.read_faults store.old) (S.read_faults store.new)) }
    ensures files { S.files store.new ≡ S.files store.old }
    ensures later { S.read_faults store.old ≤ S.read_faults store.new }
    ensures other { S.write_faults store.new ≡ S.write_faults store.old }
{
    match &place.project {
        Some(text) => by_text(alloc, store, place, text.as_str()),
        None => Ok(Active::InFolder(default_folder(alloc, place)?)),
    }
}

#[tactic(auto, unfolding(crate::specs::Active::by_text))]
fn by_text<S: Store>(
    alloc: Global,
    store: &mut S,
    place: &Place,
    text: &str,
) -> Result<Active, EnvFault>
    ensures active { IfSome (S.files store.old) (λ all. IfOk result (λ active. active_of active ≡ spec.by_text all place.now text.now)) }
    ensures refused { IfErr result (OnlyReadFault (S.read_faults store.old) (S.read_faults store.new)) }
    ensures files { S.files store.new ≡ S.files store.old }
    ensures later { S.read_faults store.old ≤ S.read_faults store.new }
    ensures other { S.write_faults store.new ≡ S.write_faults store.old }
{
    if text.is_empty() {
        return Ok(Active::InFolder(place.cwd.copy(alloc)?));
    }
    match behind_sign(text) {
        Some(name) => match by_sign(alloc, store, place, name) {
            Ok(folder) => Ok(Active::InFolder(folder)),
            Err(fault) => Err(fault),
        },
        None => Ok(by_join(alloc, &place.cwd, text)?),
    }
}

/// What follows an at sign that comes first in a text.
pub(crate) fn behind_sign(text: &str) -> Option<&str>
    requires { length text.now ≢ 0 }
    ensures { MatchOption result ((position_or_len spec.is_sign text.now == 0) ≡ false)
        (λ name. ((position_or_len spec.is_sign text.now == 0) ≡ true) × (name.now ≡ after_first spec.is_sign text.now)) }
{
    match text.split_once('@') {
        Some((front, name)) => { if front.is_empty() { Some(name) } else { None } }
        None => None,
    }
}

fn by_join(alloc: Global, cwd: &NormPath, text: &str) -> Result<Active, AllocError>
    ensures { IfOk result (λ active. active_of active ≡ spec.by_path cwd.now (joined cwd.now text.now)) }
{
    match NormPath::join(alloc, cwd, text) {
        Ok(path) => Ok(by_path(path)),
        Err(PathFault::Escapes) => Ok(Active::InFolder(cwd.copy(alloc)?)),
        Err(PathFault::Memory) => Err(AllocError),
    }
}

fn by_path(path: NormPath) -> Active
    ensures { (cwd : List (List ℕ)) → active_of result ≡ spec.by_path cwd (Some path) }
{
    if path.last_ends_in(".toml") {
        Active::TheFile(path)
    } else {
        Active::InFolder(path)
    }
}

/// The folder that the text behind an at sign means.
#[tactic(auto, unfolding(crate::specs::Active::by_sign))]
fn by_sign<S: Store>(
    alloc: Global,
    store: &mut S,
    place: &Place,
    name: &str,
) -> Result<NormPath, EnvFault>
    ensures path { IfSome (S.files store.old) (λ all. IfOk result (λ path. path ≡ spec.by_sign all place.now name.now)) }
    ensures refused { IfErr result (OnlyReadFault (S.read_faults store.old) (S.read_faults store.new)) }
    ensures files { S.files store.new ≡ S.files store.old }
    ensures later { S.read_faults store.old ≤ S.read_faults store.new }
    ensures other { S.write_faults store.new ≡ S.write_faults store.old }
{
    if name.is_empty() {
        Ok(default_folder(alloc, place)?)
    } else if name == "." {
        nearest_or(alloc, store, &place.cwd)
    } else if name == "stdlib" {
        Ok(place.cwd.copy(alloc)?)
    } else {
        by_name(alloc, store, place, name)
    }
}

/// The folder of a named environment.
fn by_name<S: Store>(
    alloc: Global,
    store: &mut S,
    place: &Place,
    name: &str,
) -> Result<NormPath, EnvFault>
    ensures path { IfSome (S.files store.old) (λ all. IfOk result (λ path. path ≡ spec.by_environment all place.now (spec.environment_text place.now.julia name.now))) }
    ensures refused { IfErr result (OnlyReadFault (S.read_faults store.old) (S.read_faults store.new)) }
    ensures files { S.files store.new ≡ S.files store.old }
    ensures later { S.read_faults store.old ≤ S.read_faults store.new }
    ensures other { S.write_faults store.new ≡ S.write_faults store.old }
{
    match environment_text(alloc, &place.julia, name) {
        Ok(text) => by_environment(alloc, store, place, text.as_str()),
        Err(_) => Err(EnvFault::Memory),
    }
}

/// The nearest folder with a project file, else the folder itself.
fn nearest_or<S: Store>(
    alloc: Global,
    store: &mut S,
    folder: &NormPath,
) -> Result<NormPath, EnvFault>
    ensures path { IfSome (S.files store.old) (λ all. IfOk result (λ path. path ≡ spec.or_else folder.now (spec.nearest all folder.now))) }
    ensures refused { IfErr result (OnlyReadFault (S.read_faults store.old) (S.read_faults store.new)) }
    ensures files { S.files store.new ≡ S.files store.old }
    ensures later { S.read_faults store.old ≤ S.read_faults store.new }
    ensures other { S.write_faults store.new ≡ S.write_faults store.old }
{
    match nearest(alloc, store, folder) {
        Ok(Some(found)) => Ok(found),
        Ok(None) => Ok(folder.copy(alloc)?),
        Err(fault) => Err(fault),
    }
}

/// The folder of a named environment, in the first depot that has it, else in the first depot.
fn by_environment<S: Store>(
    alloc: Global,
    store: &mut S,
    place: &Place,
    text: &str,
) -> Result<NormPath, EnvFault>
    ensures path { IfSome (S.files store.old) (λ all. IfOk result (λ path. path ≡ spec.by_environment all place.now text.now)) }
    ensures refused { IfErr result (OnlyReadFault (S.read_faults store.old) (S.read_faults store.new)) }
    ensures files { S.files store.new ≡ S.files store.old }
    ensures later { S.read_faults store.old ≤ S.read_faults store.new }
    ensures other { S.write_faults store.new ≡ S.write_faults store.old }
{
    match first_environment(alloc, store, place.depots.items(), text) {
        Ok(Some(folder)) => Ok(folder),
        Ok(None) => Ok(in_first(alloc, &place.cwd, place.depots.items(), text)?),
        Err(fault) => Err(fault),
    }
}

/// The folder where no text names a project.
fn default_folder(alloc: Global, place: &Place) -> Result<NormPath, AllocError>
    ensures { IfOk result (λ path. path ≡ spec.default_folder place.now) }
{
    let name = version_folder(alloc, &place.julia)?;
    in_first(alloc, &place.cwd, place.depots.items(), name.as_str())
}
