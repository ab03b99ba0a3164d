//! The paths of a folder's names.
ghost use Rattle.std.specs.Prelude.{◌≡◌, ◌==◌, ◌||◌, not, IfOk};
ghost use Rattle.std.specs.List.{list_all};
ghost use Rattle.pkg_world.specs.Path.{is_plain as is_part};
ghost use Rattle.registry_tables.specs.Registries as spec;

use pkg_world::{Name, NormPath, NormPaths};
use std::alloc::{AllocError, Global};

/// The paths of those names in a folder that can stand in a path. The one error is want of memory.
pub(crate) fn children(
    alloc: Global,
    folder: &NormPath,
    names: &[Name],
) -> Result<NormPaths, AllocError>
    ensures { IfOk result (λ paths. paths.items ≡ spec.children folder.now names.now) }
{
    let mut paths = NormPaths::make(alloc);
    for name in names {
        if is_plain(name.as_str()) {
            paths.push(folder.child(alloc, name.as_str())?)?;
        }
    }
    Ok(paths)
}

/// Whether a name is a part of a path.
fn is_plain(name: &str) -> bool
    ensures { result ≡ is_part name.now }
{
    !(name.is_empty() || name == "." || name == "..") && has_no_slash(name.as_bytes())
}

fn has_no_slash(name: &[u8]) -> bool
    ensures { result ≡ list_all (λ b. not (b == 47)) name.now }
{
    name.iter().all(|b| *b != b'/')
}
