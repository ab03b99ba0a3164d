//! The packages that a project and its manifest fix.
ghost use Rattle.std.specs.Prelude.{◌≡◌, ◌∷◌, ◌++◌, [], map, IfOk, OnOk};
ghost use Rattle.std.specs.List.{flat_map};
ghost use Rattle.project_file.specs.Said.{said as said_project};
ghost use Rattle.manifest_file.specs.Said.{said as said_manifest, said_stanza};
ghost use Rattle.fixed_packages.specs.Candidates as spec;

use crate::basis::{Basis, basis_of_source, basis_of_stanza};
use crate::name_key::NameKey;
use crate::named_ids::{NamedIds, ids_of};
use manifest_file::{Manifest, Stanza};
use pkg_world::{Duplicate, Home, Name, NormPath};
use project_file::{Project, Source};
use std::alloc::{AllocError, Global};
use std::collections::VecDeque;
use uuid::Uuid;

/// A package that a project or its manifest fixes, before files are read.
#[derive(Drop)]
pub(crate) struct Candidate {
    pub(crate) name: NameKey,
    pub(crate) uuid: Uuid,
    pub(crate) basis: Basis,
}

/// The packages that a project fixes, by name, and then those that its manifest does, by stanza.
#[tactic(auto, unfolding(project_file::specs::Said::said))]
pub(crate) fn candidates(
    alloc: Global,
    home: &Home,
    project: &Project,
    manifest: &Manifest,
) -> Result<VecDeque<Candidate>, AllocError>
    ensures { IfOk result (λ found. found.items ≡ spec.candidates home.now (said_project project.now) (said_manifest manifest.now)) }
{
    let ids = ids_of(alloc, project)?;
    let mut found = VecDeque::new(alloc);
    add_sources(
        alloc,
        &mut found,
        &home.project,
        &ids,
        project.sources.items(),
    )?;
    add_stanzas(alloc, &mut found, &home.manifest, manifest.stanzas.items())?;
    Ok(found)
}

fn add_sources(
    alloc: Global,
    found: &mut VecDeque<Candidate>,
    file: &NormPath,
    ids: &NamedIds,
    sources: &[(Name, Source)],
) -> Result<(), AllocError>
    ensures { OnOk result (found.new.items ≡ found.old.items ++ flat_map (spec.source_fixes file.now ids.now.entries) sources.now) }
{
    for (name, source) in sources {
        add_source(alloc, found, file, ids, name, source)?;
    }
    Ok(())
}

fn add_source(
    alloc: Global,
    found: &mut VecDeque<Candidate>,
    file: &NormPath,
    ids: &NamedIds,
    name: &Name,
    source: &Source,
) -> Result<(), AllocError>
    ensures { OnOk result (found.new.items ≡ found.old.items ++ spec.source_fixes file.now ids.now.entries (name.now, source.now)) }
{
    match source {
        Source::Path(text) => add_folder(alloc, found, file, ids, name, text),
        Source::Url { .. } => Ok(()),
    }
}

/// Adds the package of a name that has an identifier.
fn add_folder(
    alloc: Global,
    found: &mut VecDeque<Candidate>,
    file: &NormPath,
    ids: &NamedIds,
    name: &Name,
    text: &Name,
) -> Result<(), AllocError>
    ensures { OnOk result (found.new.items ≡ found.old.items ++ spec.folder_fixes file.now name.now text.now (spec.id_in ids.now.entries name.now)) }
{
    let key = NameKey::of(name.copy(alloc)?);
    match ids.get(&key) {
        Some(uuid) => {
            let basis = basis_of_source(alloc, file, name, text)?;
            push(
                found,
                Candidate {
                    name: key,
                    uuid: *uuid,
                    basis,
                },
            )
        }
        None => Ok(()),
    }
}

fn push(found: &mut VecDeque<Candidate>, candidate: Candidate) -> Result<(), AllocError>
    ensures { OnOk result (found.new.items ≡ found.old.items ++ candidate ∷ []) }
{
    found.push_back(candidate)?;
    Ok(())
}

fn add_stanzas(
    alloc: Global,
    found: &mut VecDeque<Candidate>,
    manifest: &NormPath,
    stanzas: &[Stanza],
) -> Result<(), AllocError>
    ensures { OnOk result (found.new.items ≡ found.old.items ++ flat_map (spec.stanza_fixes manifest.now) (map said_stanza stanzas.now)) }
{
    for stanza in stanzas {
        add_stanza(alloc, found, manifest, stanza)?;
    }
    Ok(())
}

fn add_stanza(
    alloc: Global,
    found: &mut VecDeque<Candidate>,
    manifest: &NormPath,
    stanza: &Stanza,
) -> Result<(), AllocError>
    ensures { OnOk result (found.new.items ≡ found.old.items ++ spec.stanza_fixes manifest.now (said_stanza stanza.now)) }
{
    let found_basis = basis_of_stanza(alloc, manifest, stanza)?;
    match found_basis {
        Some(basis) => {
            let name = NameKey::of(stanza.name.copy(alloc)?);
            push(
                found,
                Candidate {
                    name,
                    uuid: stanza.uuid,
                    basis,
                },
            )
        }
        None => Ok(()),
    }
}
