//! The bytes of a manifest's file.
ghost use Rattle.std.specs.Prelude.{◌≡◌, IfOk, IsTrue, Ok};
ghost use Rattle.toml_view.specs.Document.{viewed};
ghost use Rattle.manifest_file.specs.Said.{said};
ghost use Rattle.manifest_file.specs.Saying.{read_of};
ghost use Rattle.manifest_file.specs.Written.{are_by_name, written};
ghost use Rattle.manifest_file.specs.ReadsBack.{StandOnce};

use manifest_file::Manifest;
use pkg_world::Bytes;
use std::alloc::{AllocError, Global};
use toml_view::{PrintFault, print_table};

/// The bytes of the file that says a manifest (Pkg, Manifest.toml, format 2.0): they read as the table that says it, and where
/// no two stanzas have one identifier as an equal manifest. The caller's stanzas stand in the order of their names' bytes.
/// The one error is want of memory.
pub fn manifest_text(alloc: Global, manifest: &Manifest) -> Result<Bytes, AllocError>
    requires by_name { IsTrue (are_by_name (said manifest.now).stanzas) }
    ensures written { IfOk result (λ bytes. viewed bytes.items ≡ Ok (written (said manifest.now))) }
    ensures back { StandOnce (said manifest.now).stanzas → IfOk result (λ bytes. read_of bytes.items ≡ Ok (said manifest.now)) }
{
    let table = manifest.to_table(alloc)?;
    match print_table(alloc, &table) {
        Ok(bytes) => Ok(bytes),
        Err(PrintFault::BadDate) => unreachable!(),
        Err(PrintFault::Memory) => Err(AllocError),
    }
}
