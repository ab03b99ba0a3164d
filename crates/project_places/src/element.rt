//! The elements of the load path.
ghost use Rattle.std.specs.Prelude.{◌≡◌, ◌==◌, ◌≤◌, Some, IfSome, IfOk, IfErr};
ghost use Rattle.std.specs.List.{ends_with};
ghost use Rattle.pkg_world.specs.Path.{joined, path_text};
ghost use Rattle.pkg_world.specs.Tree.{a_folder};
ghost use Rattle.project_places.specs.Active.{nearest as nearest_meant, first_environment as environment_meant, environment_text as text_meant};
ghost use Rattle.project_places.specs.Elements as spec;
ghost use Rattle.project_places.specs.Faults.{OnlyReadFault};

use crate::active::{active_project, behind_sign};
use crate::environment_text::environment_text;
use crate::fault::EnvFault;
use crate::folders::{file_in, first_environment, has_project, nearest};
use crate::there::path_in;
use pkg_world::{Duplicate, KindAnswer, NormPath, Place, Store};
use std::alloc::Global;

/// What an element of the load path means (Julia manual, Code Loading).
#[derive(Debug, Drop)]
pub enum Element {
    /// The project of that file, which need not be there.
    Project(NormPath),
    /// A package folder.
    Folder(NormPath),
    /// Nothing: an environment without entries.
    Nothing,
}

/// What an element of the load path means (Julia manual, Code Loading). An empty one is nothing: it stands for others.
///
/// - `@` is the active project where a text other than `@` names it, else nothing.
/// - `@.` is the nearest folder with a project file, from the current folder up to the root.
/// - `@stdlib` is the folder of the standard libraries.
/// - `@NAME` is the first depot's `environments/NAME` that has a project file, where the first three `#` are the numbers
///   of Julia's version.
/// - Any other text is a path from the current folder.
///
/// A folder with a project file is that project, and a folder without one is a package folder. A file named as a project
/// file is that project. All else is nothing, also a path that rises above the root.
///
/// Errors: ReadFault, where the store can't tell what is there; want of memory.
#[tactic(auto, unfolding(crate::specs::Elements::element))]
pub fn element_of<S: Store>(
    alloc: Global,
    store: &mut S,
    place: &Place,
    text: &str,
) -> Result<Element, EnvFault>
    ensures element { IfSome (S.files store.old) (λ all. IfOk result (λ element. element ≡ spec.element all place.now text.now)) }
    ensures refused { IfErr result (OnlyReadFault (S.read_faults store.old) (S.read_faults store.new)) }
    ensures files { S.files store.new ≡ S.files store.old }
    ensures later { S.read_faults store.old ≤ S.read_faults store.new }
    ensures other { S.write_faults store.new ≡ S.write_faults store.old }
{
    if text.is_empty() {
        return Ok(Element::Nothing);
    }
    match behind_sign(text) {
        Some(name) => by_sign(alloc, store, place, name),
        None => by_text(alloc, store, &place.cwd, text),
    }
}

/// What stands behind an at sign.
#[tactic(auto, unfolding(crate::specs::Elements::by_sign))]
fn by_sign<S: Store>(
    alloc: Global,
    store: &mut S,
    place: &Place,
    name: &str,
) -> Result<Element, EnvFault>
    ensures element { IfSome (S.files store.old) (λ all. IfOk result (λ element. element ≡ spec.by_sign all place.now name.now)) }
    ensures refused { IfErr result (OnlyReadFault (S.read_faults store.old) (S.read_faults store.new)) }
    ensures files { S.files store.new ≡ S.files store.old }
    ensures later { S.read_faults store.old ≤ S.read_faults store.new }
    ensures other { S.write_faults store.new ≡ S.write_faults store.old }
{
    if name.is_empty() {
        active(alloc, store, place)
    } else if name == "." {
        upwards(alloc, store, place)
    } else if name == "stdlib" {
        by_path(alloc, store, &place.stdlib)
    } else {
        by_name(alloc, store, place, name)
    }
}

/// The active project, where a text other than `@` names it.
fn active<S: Store>(alloc: Global, store: &mut S, place: &Place) -> Result<Element, EnvFault>
    ensures element { IfSome (S.files store.old) (λ all. IfOk result (λ element. element ≡ spec.active all place.now place.now.project)) }
    ensures refused { IfErr result (OnlyReadFault (S.read_faults store.old) (S.read_faults store.new)) }
    ensures files { S.files store.new ≡ S.files store.old }
    ensures later { S.read_faults store.old ≤ S.read_faults store.new }
    ensures other { S.write_faults store.new ≡ S.write_faults store.old }
{
    let Some(text) = &place.project else {
        return Ok(Element::Nothing);
    };
    if text.as_str() == "@" {
        return Ok(Element::Nothing);
    }
    match active_project(alloc, store, place) {
        Ok(file) => Ok(Element::Project(file)),
        Err(fault) => Err(fault),
    }
}

/// The nearest folder with a project file.
fn upwards<S: Store>(alloc: Global, store: &mut S, place: &Place) -> Result<Element, EnvFault>
    ensures element { IfSome (S.files store.old) (λ all. IfOk result (λ element. element ≡ spec.by_project all (nearest_meant all place.now.cwd))) }
    ensures refused { IfErr result (OnlyReadFault (S.read_faults store.old) (S.read_faults store.new)) }
    ensures files { S.files store.new ≡ S.files store.old }
    ensures later { S.read_faults store.old ≤ S.read_faults store.new }
    ensures other { S.write_faults store.new ≡ S.write_faults store.old }
{
    match nearest(alloc, store, &place.cwd) {
        Ok(folder) => by_project(alloc, store, &folder),
        Err(fault) => Err(fault),
    }
}

/// A named environment.
fn by_name<S: Store>(
    alloc: Global,
    store: &mut S,
    place: &Place,
    name: &str,
) -> Result<Element, EnvFault>
    ensures element { IfSome (S.files store.old) (λ all. IfOk result (λ element. element ≡ spec.by_project all (environment_meant all place.now.depots.items (text_meant place.now.julia name.now)))) }
    ensures refused { IfErr result (OnlyReadFault (S.read_faults store.old) (S.read_faults store.new)) }
    ensures files { S.files store.new ≡ S.files store.old }
    ensures later { S.read_faults store.old ≤ S.read_faults store.new }
    ensures other { S.write_faults store.new ≡ S.write_faults store.old }
{
    match environment_text(alloc, &place.julia, name) {
        Ok(text) => by_environment(alloc, store, place, text.as_str()),
        Err(_) => Err(EnvFault::Memory),
    }
}

fn by_environment<S: Store>(
    alloc: Global,
    store: &mut S,
    place: &Place,
    text: &str,
) -> Result<Element, EnvFault>
    ensures element { IfSome (S.files store.old) (λ all. IfOk result (λ element. element ≡ spec.by_project all (environment_meant all place.now.depots.items text.now))) }
    ensures refused { IfErr result (OnlyReadFault (S.read_faults store.old) (S.read_faults store.new)) }
    ensures files { S.files store.new ≡ S.files store.old }
    ensures later { S.read_faults store.old ≤ S.read_faults store.new }
    ensures other { S.write_faults store.new ≡ S.write_faults store.old }
{
    match first_environment(alloc, store, place.depots.items(), text) {
        Ok(folder) => by_project(alloc, store, &folder),
        Err(fault) => Err(fault),
    }
}

/// The project of a folder that has a project file.
fn by_project<S: Store>(
    alloc: Global,
    store: &mut S,
    folder: &Option<NormPath>,
) -> Result<Element, EnvFault>
    ensures element { IfSome (S.files store.old) (λ all. IfOk result (λ element. element ≡ spec.by_project all folder.now)) }
    ensures refused { IfErr result (OnlyReadFault (S.read_faults store.old) (S.read_faults store.new)) }
    ensures files { S.files store.new ≡ S.files store.old }
    ensures later { S.read_faults store.old ≤ S.read_faults store.new }
    ensures other { S.write_faults store.new ≡ S.write_faults store.old }
{
    match folder {
        Some(folder) => project_in(alloc, store, folder),
        None => Ok(Element::Nothing),
    }
}

fn project_in<S: Store>(
    alloc: Global,
    store: &mut S,
    folder: &NormPath,
) -> Result<Element, EnvFault>
    ensures element { IfSome (S.files store.old) (λ all. IfOk result (λ element. element ≡ spec.by_project all (Some folder.now))) }
    ensures refused { IfErr result (OnlyReadFault (S.read_faults store.old) (S.read_faults store.new)) }
    ensures files { S.files store.new ≡ S.files store.old }
    ensures later { S.read_faults store.old ≤ S.read_faults store.new }
    ensures other { S.write_faults store.new ≡ S.write_faults store.old }
{
    match file_in(alloc, store, folder) {
        Ok(file) => Ok(Element::Project(file)),
        Err(fault) => Err(fault),
    }
}

/// A path from the current folder.
fn by_text<S: Store>(
    alloc: Global,
    store: &mut S,
    cwd: &NormPath,
    text: &str,
) -> Result<Element, EnvFault>
    ensures element { IfSome (S.files store.old) (λ all. IfOk result (λ element. element ≡ spec.by_path all (joined cwd.now text.now))) }
    ensures refused { IfErr result (OnlyReadFault (S.read_faults store.old) (S.read_faults store.new)) }
    ensures files { S.files store.new ≡ S.files store.old }
    ensures later { S.read_faults store.old ≤ S.read_faults store.new }
    ensures other { S.write_faults store.new ≡ S.write_faults store.old }
{
    match path_in(alloc, cwd, text) {
        Ok(path) => by_path(alloc, store, &path),
        Err(_) => Err(EnvFault::Memory),
    }
}

fn by_path<S: Store>(
    alloc: Global,
    store: &mut S,
    path: &Option<NormPath>,
) -> Result<Element, EnvFault>
    ensures element { IfSome (S.files store.old) (λ all. IfOk result (λ element. element ≡ spec.by_path all path.now)) }
    ensures refused { IfErr result (OnlyReadFault (S.read_faults store.old) (S.read_faults store.new)) }
    ensures files { S.files store.new ≡ S.files store.old }
    ensures later { S.read_faults store.old ≤ S.read_faults store.new }
    ensures other { S.write_faults store.new ≡ S.write_faults store.old }
{
    match path {
        Some(path) => at_path(alloc, store, path),
        None => Ok(Element::Nothing),
    }
}

/// What stands at a path.
fn at_path<S: Store>(alloc: Global, store: &mut S, path: &NormPath) -> Result<Element, EnvFault>
    ensures element { IfSome (S.files store.old) (λ all. IfOk result (λ element. element ≡ spec.by_path all (Some path.now))) }
    ensures refused { IfErr result (OnlyReadFault (S.read_faults store.old) (S.read_faults store.new)) }
    ensures files { S.files store.new ≡ S.files store.old }
    ensures later { S.read_faults store.old ≤ S.read_faults store.new }
    ensures other { S.write_faults store.new ≡ S.write_faults store.old }
{
    match store.kind(alloc, path) {
        KindAnswer::File => named_file(alloc, path),
        KindAnswer::Folder => folder_at(alloc, store, path),
        KindAnswer::Missing => Ok(Element::Nothing),
        KindAnswer::Failed => Err(EnvFault::ReadFault(path.copy(alloc)?)),
        KindAnswer::Memory => Err(EnvFault::Memory),
    }
}

/// A file is a project where it is named as one.
fn named_file(alloc: Global, path: &NormPath) -> Result<Element, EnvFault>
    ensures element { IfOk result (λ element. element ≡ spec.by_file_name path.now) }
    ensures memory { IfErr result (λ fault. fault ≡ EnvFault.Memory) }
{
    if has_project_name(path) {
        Ok(Element::Project(path.copy(alloc)?))
    } else {
        Ok(Element::Nothing)
    }
}

/// Whether a file is named as a project file.
fn has_project_name(path: &NormPath) -> bool
    ensures { result ≡ spec.is_project_name path.now }
{
    ends_in(path, "/Project.toml") || ends_in(path, "/JuliaProject.toml")
}

fn ends_in(path: &NormPath, end: &str) -> bool
    ensures { result ≡ ends_with (λ a b. a == b) (path_text path.now) end.now }
{
    path.as_str().as_bytes().ends_with(end.as_bytes())
}

/// A folder is a project where it has a project file, else a package folder.
fn folder_at<S: Store>(alloc: Global, store: &mut S, folder: &NormPath) -> Result<Element, EnvFault>
    ensures element { IfSome (S.files store.old) (λ all. IfOk result (λ element. element ≡ spec.by_content all folder.now a_folder)) }
    ensures refused { IfErr result (OnlyReadFault (S.read_faults store.old) (S.read_faults store.new)) }
    ensures files { S.files store.new ≡ S.files store.old }
    ensures later { S.read_faults store.old ≤ S.read_faults store.new }
    ensures other { S.write_faults store.new ≡ S.write_faults store.old }
{
    match has_project(alloc, store, folder) {
        Ok(true) => project_in(alloc, store, folder),
        Ok(false) => Ok(Element::Folder(folder.copy(alloc)?)),
        Err(fault) => Err(fault),
    }
}
