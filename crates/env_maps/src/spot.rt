//! Where a package lies in a package folder.
ghost use Rattle.std.specs.Prelude.{◌≡◌, ◌++◌, ◌≤◌, Some, None, codes, IfSome, IfOk, IfErr, string_bytes};
ghost use Rattle.std.specs.Option.{option_and_then};
ghost use Rattle.pkg_world.specs.Path.{joined};
ghost use Rattle.project_places.specs.Active.{or_next};
ghost use Rattle.env_maps.specs.Candidates as spec;
ghost use Rattle.entry_files.specs.Entries.{source_text};
ghost use Rattle.project_places.specs.Faults.{OnlyReadFault};

use entry_files::source_inside;
use pkg_world::{Name, NormPath, Store};
use project_places::{EnvFault, is_there, path_in};
use std::alloc::{AllocError, Global};

/// The entry file of a package, and the folder whose project file belongs to it, where there is one.
#[derive(Debug, Drop)]
pub(crate) struct Spot {
    pub entry: NormPath,
    pub home: Option<NormPath>,
}

/// Where the package of that name lies in a package folder: the first that is a file of `X/src/X.jl`, `X.jl/src/X.jl` and
/// `X.jl`.
pub(crate) fn spot_of<S: Store>(
    alloc: Global,
    store: &mut S,
    folder: &NormPath,
    name: &Name,
) -> Result<Option<Spot>, EnvFault>
    ensures spot { IfSome (S.files store.old) (λ all. IfOk result (λ spot. spot ≡ spec.spot all folder.now name.now)) }
    ensures refused { IfErr result (OnlyReadFault (S.read_faults store.old) (S.read_faults store.new)) }
    ensures files { S.files store.new ≡ S.files store.old }
    ensures later { S.read_faults store.old ≤ S.read_faults store.new }
    ensures other { S.write_faults store.new ≡ S.write_faults store.old }
{
    match inside(alloc, store, folder, name.as_str(), name) {
        Ok(Some(spot)) => Ok(Some(spot)),
        Ok(None) => by_file_name(alloc, store, folder, name),
        Err(fault) => Err(fault),
    }
}

/// The second and the third candidate.
fn by_file_name<S: Store>(
    alloc: Global,
    store: &mut S,
    folder: &NormPath,
    name: &Name,
) -> Result<Option<Spot>, EnvFault>
    ensures spot { IfSome (S.files store.old) (λ all. IfOk result (λ spot. spot ≡ or_next (spec.inside all folder.now (name.now ++ codes ".jl") name.now) (spec.alone all folder.now (name.now ++ codes ".jl")))) }
    ensures refused { IfErr result (OnlyReadFault (S.read_faults store.old) (S.read_faults store.new)) }
    ensures files { S.files store.new ≡ S.files store.old }
    ensures later { S.read_faults store.old ≤ S.read_faults store.new }
    ensures other { S.write_faults store.new ≡ S.write_faults store.old }
{
    match file_name(alloc, name) {
        Ok(inner) => inside_or_alone(alloc, store, folder, inner.as_str(), name),
        Err(_) => Err(EnvFault::Memory),
    }
}

fn inside_or_alone<S: Store>(
    alloc: Global,
    store: &mut S,
    folder: &NormPath,
    inner: &str,
    name: &Name,
) -> Result<Option<Spot>, EnvFault>
    ensures spot { IfSome (S.files store.old) (λ all. IfOk result (λ spot. spot ≡ or_next (spec.inside all folder.now inner.now name.now) (spec.alone all folder.now inner.now))) }
    ensures refused { IfErr result (OnlyReadFault (S.read_faults store.old) (S.read_faults store.new)) }
    ensures files { S.files store.new ≡ S.files store.old }
    ensures later { S.read_faults store.old ≤ S.read_faults store.new }
    ensures other { S.write_faults store.new ≡ S.write_faults store.old }
{
    match inside(alloc, store, folder, inner, name) {
        Ok(Some(spot)) => Ok(Some(spot)),
        Ok(None) => alone(alloc, store, folder, inner),
        Err(fault) => Err(fault),
    }
}

/// `src/X.jl` in a folder of that name.
fn inside<S: Store>(
    alloc: Global,
    store: &mut S,
    folder: &NormPath,
    inner: &str,
    name: &Name,
) -> Result<Option<Spot>, EnvFault>
    ensures spot { IfSome (S.files store.old) (λ all. IfOk result (λ spot. spot ≡ spec.inside all folder.now inner.now name.now)) }
    ensures refused { IfErr result (OnlyReadFault (S.read_faults store.old) (S.read_faults store.new)) }
    ensures files { S.files store.new ≡ S.files store.old }
    ensures later { S.read_faults store.old ≤ S.read_faults store.new }
    ensures other { S.write_faults store.new ≡ S.write_faults store.old }
{
    match path_in(alloc, folder, inner) {
        Ok(Some(home)) => inside_home(alloc, store, home, name),
        Ok(None) => Ok(None),
        Err(_) => Err(EnvFault::Memory),
    }
}

fn inside_home<S: Store>(
    alloc: Global,
    store: &mut S,
    home: NormPath,
    name: &Name,
) -> Result<Option<Spot>, EnvFault>
    ensures spot { IfSome (S.files store.old) (λ all. IfOk result (λ spot. spot ≡ option_and_then (spec.spot_if all (Some home)) (joined home (source_text name.now)))) }
    ensures refused { IfErr result (OnlyReadFault (S.read_faults store.old) (S.read_faults store.new)) }
    ensures files { S.files store.new ≡ S.files store.old }
    ensures later { S.read_faults store.old ≤ S.read_faults store.new }
    ensures other { S.write_faults store.new ≡ S.write_faults store.old }
{
    match source_inside(alloc, &home, name) {
        Ok(Some(entry)) => spot_if(alloc, store, Some(home), entry),
        Ok(None) => Ok(None),
        Err(_) => Err(EnvFault::Memory),
    }
}

/// A file of that name alone.
fn alone<S: Store>(
    alloc: Global,
    store: &mut S,
    folder: &NormPath,
    inner: &str,
) -> Result<Option<Spot>, EnvFault>
    ensures spot { IfSome (S.files store.old) (λ all. IfOk result (λ spot. spot ≡ spec.alone all folder.now inner.now)) }
    ensures refused { IfErr result (OnlyReadFault (S.read_faults store.old) (S.read_faults store.new)) }
    ensures files { S.files store.new ≡ S.files store.old }
    ensures later { S.read_faults store.old ≤ S.read_faults store.new }
    ensures other { S.write_faults store.new ≡ S.write_faults store.old }
{
    match path_in(alloc, folder, inner) {
        Ok(Some(entry)) => spot_if(alloc, store, None, entry),
        Ok(None) => Ok(None),
        Err(_) => Err(EnvFault::Memory),
    }
}

/// The entry where it is a file.
fn spot_if<S: Store>(
    alloc: Global,
    store: &mut S,
    home: Option<NormPath>,
    entry: NormPath,
) -> Result<Option<Spot>, EnvFault>
    ensures spot { IfSome (S.files store.old) (λ all. IfOk result (λ spot. spot ≡ spec.spot_if all home entry)) }
    ensures refused { IfErr result (OnlyReadFault (S.read_faults store.old) (S.read_faults store.new)) }
    ensures files { S.files store.new ≡ S.files store.old }
    ensures later { S.read_faults store.old ≤ S.read_faults store.new }
    ensures other { S.write_faults store.new ≡ S.write_faults store.old }
{
    match is_there(alloc, store, &entry) {
        Ok(true) => Ok(Some(Spot { entry, home })),
        Ok(false) => Ok(None),
        Err(fault) => Err(fault),
    }
}

/// `X.jl`.
fn file_name(alloc: Global, name: &Name) -> Result<String, AllocError>
    ensures { IfOk result (λ text. string_bytes text ≡ name.now ++ codes ".jl") }
{
    let text = name.as_str();
    format!(in alloc; "{text}.jl")
}
