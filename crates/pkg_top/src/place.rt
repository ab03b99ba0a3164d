//! The place of a command, from the texts of its environment.
ghost use Rattle.std.specs.Prelude.{◌≡◌, IfOk};
ghost use Rattle.std.specs.Option.{option_copied};
ghost use Rattle.pkg_top.specs.Placing.{Places, paths_from, paths_of, path_from, depots_from as depots_meant, depots_of, home_depot, stdlib_from as stdlib_meant, julia_from as julia_meant, triple_meant, ReadsJulia, GivesPlace};
ghost use Rattle.jl_versions.specs.Meant.{version_meant};
ghost use Rattle.pkg_world.specs.Path.{pieces_at};
ghost use Rattle.pkg_top.specs.PlaceViews.{items_of, itself, PushesDepot};

use jl_versions::{Version, VersionFault};
use pkg_world::{Listed, NormPath, NormPaths, PathFault, Place, Text, first_piece};
use std::alloc::{AllocError, Global};
use thiserror::Error;

/// Why the texts of an environment give no place.
#[derive(Debug, Drop, Error)]
pub enum PlaceFault {
    /// This text is no path: it rises above the root.
    #[error("a text is no path")]
    BadPath(Text),
    /// Julia's text is no version; the place is the length of its longest front that begins one.
    #[error("no version of Julia from byte {0} on")]
    BadJulia(u64),
    #[error("no memory")]
    Memory,
}

impl From<AllocError> for PlaceFault {
    ghost use Rattle.pkg_top.specs.declared.place.PlaceFault.TheVariants.{Memory};

    ghost from_gives = { λ _ fault. fault ≡ Memory };

    fn from(_none: AllocError) -> PlaceFault {
        PlaceFault::Memory
    }
}

/// The place of these texts: the current folder from the root, the depots of a depot path that is split at `:` (empty
/// pieces are dropped; without one `.julia` in the home folder, and without both none), the load path and the project
/// as they are, the folder of the standard libraries, the paths from the current folder.
///
/// Julia's version is that of Julia's text, its three numbers alone; 1.11.0 where none is handed in.
///
/// Errors: BadPath with the first text that rises above the root; after the paths BadJulia where Julia's text is no
/// version text (Julia manual, Version Number Literals), with the length of its longest front that begins one; want of
/// memory.
pub fn place_from(
    alloc: Global,
    cwd: &str,
    home: Option<&str>,
    depots: Option<&str>,
    load_path: Option<&str>,
    project: Option<&str>,
    stdlib: Option<&str>,
    julia: Option<&str>,
) -> Result<Place, PlaceFault>
    ensures { GivesPlace result (paths_from cwd.now (option_copied home.entry) (option_copied depots.entry) (option_copied stdlib.entry))
        (option_copied load_path.entry) (option_copied project.entry) (julia_meant (option_copied julia.entry)) }
{
    let cwd = path_at(alloc, &NormPath::root(alloc), cwd)?;
    let depots = depots_from(alloc, &cwd, home, depots)?;
    let stdlib = stdlib_from(alloc, &cwd, stdlib)?;
    let julia = julia_from(alloc, julia)?;
    Ok(Place {
        cwd,
        depots,
        load_path: text_of(alloc, load_path)?,
        project: text_of(alloc, project)?,
        stdlib,
        julia,
    })
}

/// The three numbers of Julia's version.
fn julia_from(alloc: Global, text: Option<&str>) -> Result<[u32; 3], PlaceFault>
    ensures { ReadsJulia result (julia_meant (option_copied text.entry)) }
{
    match text {
        Some(text) => triple_at(alloc, text),
        None => Ok([1, 11, 0]),
    }
}

fn triple_at(alloc: Global, text: &str) -> Result<[u32; 3], PlaceFault>
    ensures { ReadsJulia result (triple_meant (version_meant text.now)) }
{
    match Version::read(alloc, text) {
        Ok(version) => Ok(version.triple()),
        Err(VersionFault::BadVersion(place)) => Err(PlaceFault::BadJulia(place)),
        Err(VersionFault::Memory) => Err(PlaceFault::Memory),
    }
}

fn text_of(alloc: Global, text: Option<&str>) -> Result<Option<Text>, AllocError>
    ensures { IfOk result (λ made. made ≡ option_copied text.entry) }
{
    match text {
        Some(text) => Ok(Some(Text::of(alloc, text)?)),
        None => Ok(None),
    }
}

fn path_at(alloc: Global, base: &NormPath, text: &str) -> Result<NormPath, PlaceFault>
    ensures { Places itself result (path_from base.now text.now) }
{
    match NormPath::join(alloc, base, text) {
        Ok(path) => Ok(path),
        Err(PathFault::Escapes) => Err(PlaceFault::BadPath(Text::of(alloc, text)?)),
        Err(PathFault::Memory) => Err(PlaceFault::Memory),
    }
}

fn depots_from(
    alloc: Global,
    cwd: &NormPath,
    home: Option<&str>,
    depots: Option<&str>,
) -> Result<NormPaths, PlaceFault>
    ensures { Places items_of result (depots_meant cwd.now (option_copied home.entry) (option_copied depots.entry)) }
{
    match depots {
        Some(text) => split_depots(alloc, cwd, text),
        None => home_depots(alloc, cwd, home),
    }
}

fn home_depots(alloc: Global, cwd: &NormPath, home: Option<&str>) -> Result<NormPaths, PlaceFault>
    ensures { Places items_of result (home_depot cwd.now (option_copied home.entry)) }
{
    let mut depots = Listed::make(alloc);
    let Some(home) = home else {
        return Ok(depots);
    };
    let folder = path_at(alloc, cwd, home)?;
    depots.push(folder.child(alloc, ".julia")?)?;
    Ok(depots)
}

#[tactic(auto, using(crate::proofs::Depots::after_all, crate::proofs::Depots::after_last, crate::proofs::Depots::after_none))]
fn split_depots(alloc: Global, cwd: &NormPath, text: &str) -> Result<NormPaths, PlaceFault>
    ensures { Places items_of result (depots_of cwd.now (pieces_at 58 text.now)) }
{
    let mut depots = Listed::make(alloc);
    let mut rest = text;
    loop {
        match first_piece(rest, ':') {
            Some((piece, more)) => {
                push_depot(alloc, &mut depots, cwd, piece)?;
                rest = more;
            }
            None => {
                push_depot(alloc, &mut depots, cwd, rest)?;
                return Ok(depots);
            }
        }
    }
}

/// Appends the depot of one piece of a depot path, none for an empty piece.
fn push_depot(
    alloc: Global,
    depots: &mut NormPaths,
    cwd: &NormPath,
    piece: &str,
) -> Result<(), PlaceFault>
    ensures { PushesDepot depots.old.items depots.new.items cwd.now piece.now result }
{
    if piece.is_empty() {
        return Ok(());
    }
    let path = path_at(alloc, cwd, piece)?;
    depots.push(path)?;
    Ok(())
}

fn stdlib_from(
    alloc: Global,
    cwd: &NormPath,
    text: Option<&str>,
) -> Result<Option<NormPath>, PlaceFault>
    ensures { Places itself result (stdlib_meant cwd.now (option_copied text.entry)) }
{
    match text {
        Some(text) => Ok(Some(path_at(alloc, cwd, text)?)),
        None => Ok(None),
    }
}
