//! A package's own table: its name and its identifier.
ghost use Rattle.std.specs.Prelude.{◌≡◌, IfErr};
ghost use Rattle.toml.specs.View.{table_view};
ghost use Rattle.toml_view.specs.Answers.{HasPath};
ghost use Rattle.toml_view.specs.Causes.{caused, Reads};
ghost use Rattle.package_tables.specs.Sections as spec;

use pkg_world::Name;
use std::alloc::Global;
use toml_view::{
    Halt, NameReader, Reader, Stop, Table, UuidReader, Value, halted, need, other_shape,
};
use uuid::Uuid;

/// Tests that the table of a Package.toml has this name and this identifier (Pkg, registries).
///
/// Errors: Refused, exactly where one of them is absent or another one, as BadShape of `name` or else of `uuid`; want of
/// memory.
pub fn check_package(alloc: Global, name: &Name, uuid: &Uuid, table: &Table) -> Result<(), Halt>
    ensures { Reads result (caused (spec.package_of name.now uuid.now (table_view table.now))) }
{
    match is_of(alloc, name, uuid, table) {
        Ok(()) => Ok(()),
        Err(stop) => Err(halted(stop)),
    }
}

fn is_of(alloc: Global, name: &Name, uuid: &Uuid, table: &Table) -> Result<(), Stop>
    ensures read { spec.Gives result (spec.package_of name.now uuid.now (table_view table.now)) }
    ensures path { IfErr result HasPath }
{
    need(alloc, &ThatName { name }, table, "name")?;
    need(alloc, &ThatUuid { uuid: *uuid }, table, "uuid")
}

/// Reads that name.
#[derive(Drop)]
struct ThatName<'a> {
    name: &'a Name,
}

impl<'a> Reader for ThatName<'a> {
    type Out = ();

    ghost gives = { λ it value. spec.that_name it.name.now value };

    fn read(&self, alloc: Global, value: &Value) -> Result<(), Stop> {
        let found = NameReader.read(alloc, value)?;
        if found.as_str() == self.name.as_str() {
            Ok(())
        } else {
            Err(other_shape())
        }
    }
}

/// Reads that identifier.
#[derive(Drop)]
struct ThatUuid {
    uuid: Uuid,
}

impl Reader for ThatUuid {
    type Out = ();

    ghost gives = { λ it value. spec.that_uuid it.uuid value };

    fn read(&self, alloc: Global, value: &Value) -> Result<(), Stop> {
        let found = UuidReader.read(alloc, value)?;
        if found == self.uuid {
            Ok(())
        } else {
            Err(other_shape())
        }
    }
}
