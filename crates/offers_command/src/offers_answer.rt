//! `offers`: what the registries of all depots offer of the packages of a name.
ghost use Rattle.std.specs.Prelude.{◌≡◌, ◌≤◌, ℕ, List, Ok, Err, IfSome, IfOk, IfErr, OnOk, MatchResult, string_bytes};
ghost use Rattle.registry_tables.specs.Answers.{Refuses as ReadRefuses, ReadFaultRose as ReadRose};
ghost use Rattle.registered_offers.specs.ListedTables.{Adds};
ghost use Rattle.offers_command.specs.OffersDue as spec;
ghost use Rattle.command_answers.specs.Answers.{Answers, Refuses, ReadFaultRose, NoFault, IsLate, IsUnprinted};

use crate::offer_lines::push_package;
use command_answers::Status;
use pkg_world::{Duplicate, Ids, Listed, Name, NormPath, Place, Store};
use registered_offers::{LoadedRegistry, registries_in, tables_in};
use registry_tables::{Package, RegFault, registries};
use std::alloc::{AllocError, Global};
use std::collections::BTreeSet;
use uuid::Uuid;

/// The lines of `offers`, or its refusal: the registries are read, in the order of the depots and then of their folders'
/// names, and then the tables of each package that some registry lists under the name, in the order of the identifiers.
/// (Pkg, registries; the order and the lines are own rules.)
///
/// Refusals: MissingFile or BadFile of the first file that has to be there and isn't, or that is refused, in the order of
/// reading; UnknownName where all registries can be read and none lists the name; ReadFault where the store fails; want
/// of memory.
pub fn offers<S: Store>(
    alloc: Global,
    name: &Name,
    place: &Place,
    store: &mut S,
) -> Result<String, Status>
    ensures answer { IfSome (S.files store.old) (λ all. Answers (spec.offers_due all place.now name.now) result) }
    ensures late { IfErr result IsLate }
    ensures unprinted { IfErr result IsUnprinted }
    ensures fault { IfErr result (ReadFaultRose (S.read_faults store.old) (S.read_faults store.new)) }
    ensures files { S.files store.new ≡ S.files store.old }
    ensures later { S.read_faults store.old ≤ S.read_faults store.new }
    ensures other { S.write_faults store.new ≡ S.write_faults store.old }
{
    match registries(alloc, store, &place.depots) {
        Ok(found) => of_folders(alloc, name, store, found.folders.items()),
        Err(RegFault::ReadFault(path)) => Err(Status::ReadFault(path)),
        Err(RegFault::MissingFile(_)) => unreachable!(),
        Err(RegFault::BadFile(..)) => unreachable!(),
        Err(RegFault::Memory) => Err(Status::Memory),
    }
}

fn of_folders<S: Store>(
    alloc: Global,
    name: &Name,
    store: &mut S,
    folders: &[NormPath],
) -> Result<String, Status>
    ensures answer { IfSome (S.files store.old) (λ all. Answers (spec.of_folders all name.now folders.now) result) }
    ensures late { IfErr result IsLate }
    ensures unprinted { IfErr result IsUnprinted }
    ensures fault { IfErr result (ReadFaultRose (S.read_faults store.old) (S.read_faults store.new)) }
    ensures files { S.files store.new ≡ S.files store.old }
    ensures later { S.read_faults store.old ≤ S.read_faults store.new }
    ensures other { S.write_faults store.new ≡ S.write_faults store.old }
{
    match registries_in(alloc, store, folders) {
        Ok(list) => of_registries(alloc, name, store, list.items()),
        Err(RegFault::ReadFault(path)) => Err(Status::ReadFault(path)),
        Err(RegFault::MissingFile(path)) => Err(Status::MissingFile(path)),
        Err(RegFault::BadFile(path, cause)) => Err(Status::BadFile(path, cause)),
        Err(RegFault::Memory) => Err(Status::Memory),
    }
}

fn of_registries<S: Store>(
    alloc: Global,
    name: &Name,
    store: &mut S,
    list: &[LoadedRegistry],
) -> Result<String, Status>
    ensures answer { IfSome (S.files store.old) (λ all. Answers (spec.of_registries all name.now list.now) result) }
    ensures late { IfErr result IsLate }
    ensures unprinted { IfErr result IsUnprinted }
    ensures fault { IfErr result (ReadFaultRose (S.read_faults store.old) (S.read_faults store.new)) }
    ensures files { S.files store.new ≡ S.files store.old }
    ensures later { S.read_faults store.old ≤ S.read_faults store.new }
    ensures other { S.write_faults store.new ≡ S.write_faults store.old }
{
    match uuids_named(alloc, name.as_str(), list) {
        Ok(uuids) => of_uuids(alloc, name, store, list, uuids.items()),
        Err(_) => Err(Status::Memory),
    }
}

fn of_uuids<S: Store>(
    alloc: Global,
    name: &Name,
    store: &mut S,
    list: &[LoadedRegistry],
    uuids: &[Uuid],
) -> Result<String, Status>
    ensures answer { IfSome (S.files store.old) (λ all. Answers (spec.of_uuids all name.now list.now uuids.now) result) }
    ensures late { IfErr result IsLate }
    ensures unprinted { IfErr result IsUnprinted }
    ensures fault { IfErr result (ReadFaultRose (S.read_faults store.old) (S.read_faults store.new)) }
    ensures files { S.files store.new ≡ S.files store.old }
    ensures later { S.read_faults store.old ≤ S.read_faults store.new }
    ensures other { S.write_faults store.new ≡ S.write_faults store.old }
{
    match uuids {
        [] => Err(unknown_name(alloc, name)),
        [_, ..] => of_packages(alloc, store, list, uuids),
    }
}

fn unknown_name(alloc: Global, name: &Name) -> Status
    ensures refusal { Refuses {T = List ℕ} (Err (Status.UnknownName name.now)) result }
    ensures late { IsLate result }
    ensures unprinted { IsUnprinted result }
    ensures fault { NoFault result }
{
    match name.copy(alloc) {
        Ok(name) => Status::UnknownName(name),
        Err(_) => Status::Memory,
    }
}

fn of_packages<S: Store>(
    alloc: Global,
    store: &mut S,
    list: &[LoadedRegistry],
    uuids: &[Uuid],
) -> Result<String, Status>
    ensures answer { IfSome (S.files store.old) (λ all. Answers (spec.told_read (spec.packages_in all list.now uuids.now)) result) }
    ensures late { IfErr result IsLate }
    ensures unprinted { IfErr result IsUnprinted }
    ensures fault { IfErr result (ReadFaultRose (S.read_faults store.old) (S.read_faults store.new)) }
    ensures files { S.files store.new ≡ S.files store.old }
    ensures later { S.read_faults store.old ≤ S.read_faults store.new }
    ensures other { S.write_faults store.new ≡ S.write_faults store.old }
{
    match packages_in(alloc, store, list, uuids) {
        Ok(text) => Ok(text),
        Err(RegFault::ReadFault(path)) => Err(Status::ReadFault(path)),
        Err(RegFault::MissingFile(path)) => Err(Status::MissingFile(path)),
        Err(RegFault::BadFile(path, cause)) => Err(Status::BadFile(path, cause)),
        Err(RegFault::Memory) => Err(Status::Memory),
    }
}

/// The lines of these packages, in their order.
fn packages_in<S: Store>(
    alloc: Global,
    store: &mut S,
    list: &[LoadedRegistry],
    uuids: &[Uuid],
) -> Result<String, RegFault>
    ensures told { IfSome (S.files store.old) (λ all. MatchResult result (λ text. spec.packages_in all list.now uuids.now ≡ Ok (string_bytes text)) (ReadRefuses (spec.packages_in all list.now uuids.now))) }
    ensures fault { IfErr result (ReadRose (S.read_faults store.old) (S.read_faults store.new)) }
    ensures files { S.files store.new ≡ S.files store.old }
    ensures later { S.read_faults store.old ≤ S.read_faults store.new }
    ensures other { S.write_faults store.new ≡ S.write_faults store.old }
{
    let mut text = String::new(alloc);
    match add_packages(alloc, store, list, uuids, &mut text) {
        Ok(()) => Ok(text),
        Err(fault) => Err(fault),
    }
}

fn add_packages<S: Store>(
    alloc: Global,
    store: &mut S,
    list: &[LoadedRegistry],
    uuids: &[Uuid],
    text: &mut String,
) -> Result<(), RegFault>
    ensures told { IfSome (S.files store.old) (λ all. Adds (spec.packages_in all list.now uuids.now) (string_bytes text.old) (string_bytes text.new) result) }
    ensures fault { IfErr result (ReadRose (S.read_faults store.old) (S.read_faults store.new)) }
    ensures files { S.files store.new ≡ S.files store.old }
    ensures later { S.read_faults store.old ≤ S.read_faults store.new }
    ensures other { S.write_faults store.new ≡ S.write_faults store.old }
{
    'uuids: for uuid in uuids {
        match add_package(alloc, store, list, uuid, text) {
            Ok(()) => {}
            Err(fault) => return Err(fault),
        }
    }
    Ok(())
}

fn add_package<S: Store>(
    alloc: Global,
    store: &mut S,
    list: &[LoadedRegistry],
    uuid: &Uuid,
    text: &mut String,
) -> Result<(), RegFault>
    ensures told { IfSome (S.files store.old) (λ all. Adds (spec.package_in all list.now uuid.now) (string_bytes text.old) (string_bytes text.new) result) }
    ensures fault { IfErr result (ReadRose (S.read_faults store.old) (S.read_faults store.new)) }
    ensures files { S.files store.new ≡ S.files store.old }
    ensures later { S.read_faults store.old ≤ S.read_faults store.new }
    ensures other { S.write_faults store.new ≡ S.write_faults store.old }
{
    match tables_in(alloc, store, list, uuid) {
        Ok(tables) => {
            push_package(alloc, text, tables.items())?;
            Ok(())
        }
        Err(fault) => Err(fault),
    }
}

/// The identifiers that some registry lists under the name, in the order of their bytes and each once.
fn uuids_named(alloc: Global, name: &str, list: &[LoadedRegistry]) -> Result<Ids, AllocError>
    ensures { IfOk result (λ ids. ids.items ≡ spec.uuids_named name.now list.now) }
{
    let mut uuids = BTreeSet::new(alloc);
    for registry in list {
        put_uuids(&mut uuids, name, registry.packages())?;
    }
    in_order(alloc, uuids)
}

fn put_uuids(uuids: &mut BTreeSet<Uuid>, name: &str, packages: &[Package]) -> Result<(), AllocError>
    ensures { OnOk result (uuids.new.keys ≡ spec.put_listed name.now uuids.old.keys packages.now) }
{
    for listed in packages {
        if listed.name.as_str() == name {
            uuids.insert(listed.uuid)?;
        }
    }
    Ok(())
}

fn in_order(alloc: Global, mut uuids: BTreeSet<Uuid>) -> Result<Ids, AllocError>
    ensures { IfOk result (λ ids. ids.items ≡ uuids.keys) }
{
    let mut ids = Listed::make(alloc);
    'uuids: while let Some(uuid) = uuids.pop_first() {
        ids.push(uuid)?;
    }
    Ok(ids)
}
