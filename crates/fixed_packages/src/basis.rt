//! What is known of a fixed package before files are read.
ghost use Rattle.std.specs.Prelude.{◌≡◌, ◌++◌, codes, IfOk};
ghost use Rattle.pkg_world.specs.Path.{joined, folder_of};
ghost use Rattle.manifest_file.specs.Said.{said_stanza};
ghost use Rattle.fixed_packages.specs.Candidates as spec;

use crate::given::{Given, of_stanza};
use manifest_file::{Origin, Stanza};
use pkg_world::{Duplicate, Name, NormPath, Text};
use project_places::path_in;
use std::alloc::{AllocError, Global};

/// What is known of a fixed package before files are read.
#[derive(Drop)]
pub(crate) enum Basis {
    /// The folder of its project file, and where the package comes from.
    Folder(NormPath, Origin),
    /// A path that rises above the root: the file that has it, and its key there.
    Escaping(NormPath, Text),
    /// What its stanza says.
    Stated(Given),
}

/// The folder that the project gives a package from its own folder.
pub(crate) fn basis_of_source(
    alloc: Global,
    file: &NormPath,
    name: &Name,
    text: &Name,
) -> Result<Basis, AllocError>
    ensures { IfOk result (λ basis. basis ≡ spec.source_basis file.now name.now (joined (folder_of file.now) text.now)) }
{
    let folder = file.folder(alloc)?;
    let inside = path_in(alloc, &folder, text.as_str())?;
    match inside {
        Some(path) => {
            let text = Name::of(alloc, path.as_str())?;
            Ok(Basis::Folder(path, Origin::Path(text)))
        }
        None => escaping(alloc, file, "sources", name),
    }
}

/// What a stanza gives its package; None where it comes from a registry or from Julia.
pub(crate) fn basis_of_stanza(
    alloc: Global,
    manifest: &NormPath,
    stanza: &Stanza,
) -> Result<Option<Basis>, AllocError>
    ensures { IfOk result (λ basis. basis ≡ spec.stanza_basis manifest.now (said_stanza stanza.now)) }
{
    match &stanza.origin {
        Origin::Path(text) => Ok(Some(basis_of_path(alloc, manifest, &stanza.name, text)?)),
        Origin::Repo { .. } => Ok(Some(Basis::Stated(of_stanza(alloc, stanza)?))),
        Origin::Tree(_) => Ok(None),
        Origin::Std => Ok(None),
    }
}

/// The folder that a stanza gives its package from the manifest's folder.
fn basis_of_path(
    alloc: Global,
    manifest: &NormPath,
    name: &Name,
    text: &Name,
) -> Result<Basis, AllocError>
    ensures { IfOk result (λ basis. basis ≡ spec.path_basis manifest.now name.now text.now (joined (folder_of manifest.now) text.now)) }
{
    let folder = manifest.folder(alloc)?;
    let inside = path_in(alloc, &folder, text.as_str())?;
    match inside {
        Some(path) => Ok(Basis::Folder(path, Origin::Path(text.copy(alloc)?))),
        None => escaping(alloc, manifest, "deps", name),
    }
}

fn escaping(alloc: Global, file: &NormPath, table: &str, name: &Name) -> Result<Basis, AllocError>
    ensures { IfOk result (λ basis. basis ≡ Basis.Escaping file.now (spec.path_key table.now name.now)) }
{
    let keys = path_key(alloc, table, name.as_str())?;
    Ok(Basis::Escaping(file.copy(alloc)?, keys))
}

fn path_key(alloc: Global, table: &str, name: &str) -> Result<Text, AllocError>
    ensures { IfOk result (λ keys. keys ≡ spec.path_key table.now name.now) }
{
    let keys = format!(in alloc; "{table}.{name}.path")?;
    Text::of(alloc, keys.as_str())
}
