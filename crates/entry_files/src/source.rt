//! The entry file of a package in its folder.
ghost use Rattle.std.specs.Prelude.{◌≡◌, IfOk, string_bytes};
ghost use Rattle.pkg_world.specs.Path.{joined, folder_of};
ghost use Rattle.entry_files.specs.Entries as spec;

use pkg_world::{Name, NormPath};
use project_places::path_in;
use std::alloc::{AllocError, Global};

/// `src/X.jl` beside a file; None exactly where it would rise above the root. The one error is want of memory. (Julia
/// manual, Code Loading.)
pub fn source_beside(
    alloc: Global,
    file: &NormPath,
    name: &Name,
) -> Result<Option<NormPath>, AllocError>
    ensures { IfOk result (λ path. path ≡ joined (folder_of file.now) (spec.source_text name.now)) }
{
    let folder = file.folder(alloc)?;
    source_inside(alloc, &folder, name)
}

/// `src/X.jl` inside a folder; None exactly where it would rise above the root. The one error is want of memory. (Julia
/// manual, Code Loading.)
pub fn source_inside(
    alloc: Global,
    folder: &NormPath,
    name: &Name,
) -> Result<Option<NormPath>, AllocError>
    ensures { IfOk result (λ path. path ≡ joined folder.now (spec.source_text name.now)) }
{
    let text = source_text(alloc, name)?;
    path_in(alloc, folder, text.as_str())
}

fn source_text(alloc: Global, name: &Name) -> Result<String, AllocError>
    ensures { IfOk result (λ text. string_bytes text ≡ spec.source_text name.now) }
{
    let text = name.as_str();
    format!(in alloc; "src/{text}.jl")
}
