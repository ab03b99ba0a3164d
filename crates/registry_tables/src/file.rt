//! The tables of a registry's files.
ghost use Rattle.std.specs.Prelude.{◌≡◌, ◌≤◌, IfSome, IfErr};
ghost use Rattle.registry_tables.specs.Answers.{needed_table, optional_table, at_file, members_of, LoadsTable, LoadsOption, IsRefusedAt, NoReadFault, ReadFaultRose};

use crate::fault::RegFault;
use pkg_world::{Duplicate, NormPath, Store, file_at};
use std::alloc::Global;
use toml_view::{Halt, Table, unviewed, view};

/// The table of a file that has to be there.
pub(crate) fn needed_table<S: Store>(
    alloc: Global,
    store: &mut S,
    file: &NormPath,
) -> Result<Table, RegFault>
    ensures told { IfSome (S.files store.old) (λ all. LoadsTable (needed_table all file.now) result) }
    ensures fault { IfErr result (ReadFaultRose (S.read_faults store.old) (S.read_faults store.new)) }
    ensures files { S.files store.new ≡ S.files store.old }
    ensures later { S.read_faults store.old ≤ S.read_faults store.new }
    ensures other { S.write_faults store.new ≡ S.write_faults store.old }
{
    match optional_table(alloc, store, file) {
        Ok(Some(table)) => Ok(table),
        Ok(None) => Err(RegFault::MissingFile(file.copy(alloc)?)),
        Err(fault) => Err(fault),
    }
}

/// The table of a file that may be absent.
pub(crate) fn optional_table<S: Store>(
    alloc: Global,
    store: &mut S,
    file: &NormPath,
) -> Result<Option<Table>, RegFault>
    ensures told { IfSome (S.files store.old) (λ all. LoadsOption (optional_table all file.now) result) }
    ensures fault { IfErr result (ReadFaultRose (S.read_faults store.old) (S.read_faults store.new)) }
    ensures files { S.files store.new ≡ S.files store.old }
    ensures later { S.read_faults store.old ≤ S.read_faults store.new }
    ensures other { S.write_faults store.new ≡ S.write_faults store.old }
{
    match file_at(alloc, store, file) {
        Ok(Some(bytes)) => match table_of(alloc, file, bytes.items()) {
            Ok(table) => Ok(Some(table)),
            Err(fault) => Err(fault),
        },
        Ok(None) => Ok(None),
        Err(unread) => Err(RegFault::from(unread)),
    }
}

/// The table of a file's bytes.
fn table_of(alloc: Global, file: &NormPath, bytes: &[u8]) -> Result<Table, RegFault>
    ensures told { LoadsTable (at_file file.now (members_of bytes.now)) result }
    ensures fault { IfErr result NoReadFault }
{
    match view(alloc, bytes) {
        Ok(table) => Ok(table),
        Err(fault) => Err(refused_at(alloc, file, unviewed(fault))),
    }
}

/// The refusal of a file whose bytes' reading halted.
pub(crate) fn refused_at(alloc: Global, file: &NormPath, halt: Halt) -> RegFault
    ensures { IsRefusedAt file.now halt result }
{
    match halt {
        Halt::Refused(cause) => match file.copy(alloc) {
            Ok(path) => RegFault::BadFile(path, cause),
            Err(_) => RegFault::Memory,
        },
        Halt::Memory => RegFault::Memory,
    }
}
