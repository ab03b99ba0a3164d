//! Laying files into a store.
ghost use Rattle.std.specs.Prelude.{◌≡◌, Ok, map, IfOk, OnOk};
ghost use Rattle.toml_view.specs.Document.{viewed};
ghost use Rattle.pkg_world.specs.Held.{sure_files};
ghost use Rattle.toml.specs.View.{table_view};
ghost use Rattle.world_maker.specs.Laid.{file_of, AreParted, ArePlain, IsPlain, IsFree, Lays, HasExactly};

use crate::files::TableFile;
use pkg_world::{Bytes, SureStore, writing_sets_one_path};
use std::alloc::{AllocError, Global};
use toml_view::{PrintFault, Table, print_table};

/// A store with these files, their folders and nothing else.
pub(crate) fn lay_all(alloc: Global, files: &[TableFile]) -> Result<SureStore, AllocError>
    requires parted { AreParted (map file_of files.now) }
    requires plain { ArePlain (map file_of files.now) }
    ensures { IfOk result (λ store. HasExactly (map file_of files.now) (sure_files store)) }
{
    writing_sets_one_path();
    let mut store = SureStore::make(alloc)?;
    'files: for file in files {
        lay(alloc, &mut store, file)?;
    }
    Ok(store)
}

/// Puts a file with its table's text.
fn lay(alloc: Global, store: &mut SureStore, file: &TableFile) -> Result<(), AllocError>
    requires free { IsFree file.now.path (sure_files store.old) }
    requires plain { IsPlain (table_view file.now.table) }
    ensures { OnOk result (Lays (file_of file.now) (sure_files store.old) (sure_files store.new)) }
{
    let text = table_text(alloc, &file.table)?;
    store.put_file(alloc, &file.path, text.items())
}

/// The text of a table, which has one.
fn table_text(alloc: Global, table: &Table) -> Result<Bytes, AllocError>
    requires { IsPlain (table_view table.now) }
    ensures { IfOk result (λ text. viewed text.items ≡ Ok (table_view table.now)) }
{
    match print_table(alloc, table) {
        Ok(text) => Ok(text),
        Err(PrintFault::BadDate) => unreachable!(),
        Err(PrintFault::Memory) => Err(AllocError),
    }
}
