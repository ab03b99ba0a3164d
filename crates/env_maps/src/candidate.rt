//! A package of a package folder.
ghost use Rattle.std.specs.Prelude.{◌≡◌, ◌≤◌, None, Some, IfSome, IfErr, option_map};
ghost use Rattle.project_file.specs.Said.{said as said_project};
ghost use Rattle.project_places.specs.Active.{file_in as file_meant};
ghost use Rattle.env_maps.specs.Candidates as spec;
ghost use Rattle.project_places.specs.Files.{Loads};
ghost use Rattle.project_places.specs.Faults.{ReadFaultRose};

use crate::id::is_uuid;
use crate::parts::{Parts, parts_of};
use crate::spot::{Spot, spot_of};
use crate::uses::Uses;
use extension_rules::named_id;
use pkg_world::{Name, NormPath, Store};
use project_file::Project;
use project_places::{EnvFault, file_in, project_at};
use std::alloc::Global;
use std::marker::Model;
use uuid::Uuid;

/// The namespace of the identifiers of packages whose project file has none.
const NAMESPACE: [u8; 16] = [
    0xfe, 0x07, 0x23, 0xd6, 0x3a, 0x44, 0x4c, 0x41, 0x80, 0x65, 0xee, 0x0f, 0x42, 0xc8, 0xce, 0xab,
];

/// A package of a package folder: its entry file, its identifier, and what it uses where it has a project file.
#[derive(Debug, Drop)]
pub(crate) struct Candidate {
    pub entry: NormPath,
    pub uuid: Option<Uuid>,
    pub uses: Option<Uses>,
}

impl Model for Candidate {
    ghost use Rattle.env_maps.specs.Candidates.{Candidate};

    ghost Value = { Candidate };

    ghost view = { λ a. record { entry = a.entry; uuid = a.uuid; uses = a.uses } };
}

/// The package of that name in a package folder.
pub(crate) fn candidate_in<S: Store>(
    alloc: Global,
    store: &mut S,
    folder: &NormPath,
    name: &Name,
) -> Result<Option<Candidate>, EnvFault>
    ensures told { IfSome (S.files store.old) (λ all. Loads (spec.candidate_read all folder.now name.now) result) }
    ensures fault { IfErr result (ReadFaultRose (S.read_faults store.old) (S.read_faults store.new)) }
    ensures files { S.files store.new ≡ S.files store.old }
    ensures later { S.read_faults store.old ≤ S.read_faults store.new }
    ensures other { S.write_faults store.new ≡ S.write_faults store.old }
{
    match spot_of(alloc, store, folder, name) {
        Ok(Some(spot)) => of_spot(alloc, store, spot),
        Ok(None) => Ok(None),
        Err(fault) => Err(fault),
    }
}

fn of_spot<S: Store>(
    alloc: Global,
    store: &mut S,
    spot: Spot,
) -> Result<Option<Candidate>, EnvFault>
    ensures told { IfSome (S.files store.old) (λ all. Loads (spec.of_spot all (Some spot)) result) }
    ensures fault { IfErr result (ReadFaultRose (S.read_faults store.old) (S.read_faults store.new)) }
    ensures files { S.files store.new ≡ S.files store.old }
    ensures later { S.read_faults store.old ≤ S.read_faults store.new }
    ensures other { S.write_faults store.new ≡ S.write_faults store.old }
{
    let Spot { entry, home } = spot;
    match candidate_at(alloc, store, entry, home) {
        Ok(candidate) => Ok(Some(candidate)),
        Err(fault) => Err(fault),
    }
}

fn candidate_at<S: Store>(
    alloc: Global,
    store: &mut S,
    entry: NormPath,
    home: Option<NormPath>,
) -> Result<Candidate, EnvFault>
    ensures told { IfSome (S.files store.old) (λ all. Loads (spec.candidate_at all entry home) result) }
    ensures fault { IfErr result (ReadFaultRose (S.read_faults store.old) (S.read_faults store.new)) }
    ensures files { S.files store.new ≡ S.files store.old }
    ensures later { S.read_faults store.old ≤ S.read_faults store.new }
    ensures other { S.write_faults store.new ≡ S.write_faults store.old }
{
    match home {
        Some(home) => candidate_beside(alloc, store, entry, &home),
        None => Ok(bare(entry)),
    }
}

/// The package whose project file is that of a folder.
fn candidate_beside<S: Store>(
    alloc: Global,
    store: &mut S,
    entry: NormPath,
    home: &NormPath,
) -> Result<Candidate, EnvFault>
    ensures told { IfSome (S.files store.old) (λ all. Loads (spec.candidate_with all entry (file_meant all home.now)) result) }
    ensures fault { IfErr result (ReadFaultRose (S.read_faults store.old) (S.read_faults store.new)) }
    ensures files { S.files store.new ≡ S.files store.old }
    ensures later { S.read_faults store.old ≤ S.read_faults store.new }
    ensures other { S.write_faults store.new ≡ S.write_faults store.old }
{
    match file_in(alloc, store, home) {
        Ok(file) => candidate_with(alloc, store, entry, &file),
        Err(fault) => Err(fault),
    }
}

/// The package whose project file would be that file.
fn candidate_with<S: Store>(
    alloc: Global,
    store: &mut S,
    entry: NormPath,
    file: &NormPath,
) -> Result<Candidate, EnvFault>
    ensures told { IfSome (S.files store.old) (λ all. Loads (spec.candidate_with all entry file.now) result) }
    ensures fault { IfErr result (ReadFaultRose (S.read_faults store.old) (S.read_faults store.new)) }
    ensures files { S.files store.new ≡ S.files store.old }
    ensures later { S.read_faults store.old ≤ S.read_faults store.new }
    ensures other { S.write_faults store.new ≡ S.write_faults store.old }
{
    match project_at(alloc, store, file) {
        Ok(project) => Ok(candidate_of(entry, file, project)),
        Err(fault) => Err(fault),
    }
}

#[tactic(auto, unfolding(project_file::specs::Said::said))]
fn candidate_of(entry: NormPath, file: &NormPath, project: Option<Project>) -> Candidate
    ensures { result ≡ spec.candidate_of entry file.now (option_map said_project project) }
{
    match project {
        Some(project) => candidate_with_parts(entry, file, parts_of(project)),
        None => bare(entry),
    }
}

fn candidate_with_parts(entry: NormPath, file: &NormPath, parts: Parts) -> Candidate
    ensures { result ≡ record { entry = entry; uuid = Some (spec.uuid_or_made file.now parts.uuid); uses = Some parts.uses } }
{
    let Parts { uuid, uses, .. } = parts;
    Candidate {
        entry,
        uuid: Some(uuid_or_made(file, uuid)),
        uses: Some(uses),
    }
}

/// A package without a project file: it has no identifier, and uses nothing of its own.
fn bare(entry: NormPath) -> Candidate
    ensures { result ≡ record { entry = entry; uuid = None; uses = None } }
{
    Candidate {
        entry,
        uuid: None,
        uses: None,
    }
}

/// The identifier of a project file, else one that is made of the file's path (RFC 9562, version 5).
fn uuid_or_made(file: &NormPath, uuid: Option<Uuid>) -> Uuid
    ensures { result ≡ spec.uuid_or_made file.now uuid }
{
    match uuid {
        Some(uuid) => uuid,
        None => made_up(file),
    }
}

fn made_up(file: &NormPath) -> Uuid
    ensures { result ≡ spec.made_up file.now }
{
    let namespace = Uuid::from_bytes(NAMESPACE);
    named_id(&namespace, file.as_str())
}

/// Whether the package has that identifier, or none where there is none.
pub(crate) fn has_uuid(candidate: &Candidate, uuid: &Option<Uuid>) -> bool
    ensures { result ≡ spec.equal_uuids candidate.now.uuid uuid.now }
{
    match &candidate.uuid {
        Some(own) => is_uuid(uuid, own),
        None => uuid.is_none(),
    }
}
