//! The environment of a project.
ghost use Rattle.std.specs.Prelude.{◌≡◌, ◌≤◌, ◌&&◌, Some, IfSome, IfOk, IfErr, map, option_map};
ghost use Rattle.std.specs.Option.{option_copied};
ghost use Rattle.std.specs.Str.{bytes_eq};
ghost use Rattle.project_file.specs.Said.{said as said_project};
ghost use Rattle.manifest_file.specs.Said.{said_stanza};
ghost use Rattle.env_maps.specs.ByName.{found_in};
ghost use Rattle.env_maps.specs.Contexts.{in_graph, path_by, path_from, same_uuid};
ghost use Rattle.env_maps.specs.Maps as spec;
ghost use Rattle.env_maps.specs.ThreeMaps.{project_maps};
ghost use Rattle.project_places.specs.Files.{Loads};
ghost use Rattle.project_places.specs.Faults.{OnlyReadFault, NoReadFault, ReadFaultRose};

use crate::context::{
    base_of, dep_from_extension, dep_from_package, dependency_among, entry_from, package_id,
};
use crate::entry::stanza_entry;
use crate::escaping::{first_escaping, path_refused};
use crate::id::{Context, DepAnswer, Id, is_uuid};
use crate::library::{Library, library_uuid};
use crate::parts::{Parts, parts_of};
use crate::uses::{Uses, UsesRef, stanza_uses};
use entry_files::source_beside;
use manifest_file::{Manifest, Origin, Stanza, Stanzas};
use pkg_world::{Duplicate, Name, NormPath, NormPaths, Place, Store};
use project_file::Project;
use project_places::{EnvFault, manifest_at, manifest_path, project_at};
use std::alloc::{AllocError, Global};
use std::marker::Model;
use uuid::Uuid;

/// The environment of a project: what its file and its manifest make of names. A project file that isn't there
/// gives an environment without entries. (Julia manual, Code Loading.)
#[derive(Drop)]
pub struct ProjectEnv {
    file: NormPath,
    own: Option<Own>,
    uses: Uses,
    folder: NormPath,
    stanzas: Stanzas,
    depots: NormPaths,
    stdlib: Option<NormPath>,
}

impl Model for ProjectEnv {
    ghost use Rattle.std.specs.Prelude.{map};
    ghost use Rattle.manifest_file.specs.Said.{said_stanza};
    ghost use Rattle.env_maps.specs.Maps.{Env};

    ghost Value = { Env };

    ghost view = { λ a. record { file = a.file; own = a.own; uses = a.uses; folder = a.folder; stanzas = map said_stanza a.stanzas.items; depots = a.depots.items; stdlib = a.stdlib } };
}

/// The identity of a project's own package: it has an identifier.
#[derive(Drop)]
struct Own {
    uuid: Uuid,
    name: Name,
}

impl Model for Own {
    ghost use Rattle.std.specs.Prelude.{Some};
    ghost use Rattle.env_maps.specs.declared.id.Id.{Id};

    ghost Value = { Id };

    ghost view = { λ a. record { uuid = Some a.uuid; name = a.name } };
}

/// What an environment keeps of a project file: the identity of its own package, and what that uses.
#[derive(Drop)]
struct Kept {
    own: Option<Own>,
    uses: Uses,
}

/// What an environment has of its place, and where its project file is or would be.
#[derive(Drop)]
struct Copies {
    file: NormPath,
    depots: NormPaths,
    stdlib: Option<NormPath>,
}

impl ProjectEnv {
    /// The environment of the project file at that path.
    ///
    /// Errors: BadFile, exactly where the project file or then the manifest is refused, or then the path of a stanza
    /// rises above the root; ReadFault, where the store can't read; want of memory.
    pub fn load<S: Store>(
        alloc: Global,
        store: &mut S,
        place: &Place,
        file: &NormPath,
    ) -> Result<ProjectEnv, EnvFault>
        ensures told { IfSome (S.files store.old) (λ all. Loads (spec.env_in all place.now file.now) result) }
        ensures fault { IfErr result (ReadFaultRose (S.read_faults store.old) (S.read_faults store.new)) }
        ensures files { S.files store.new ≡ S.files store.old }
        ensures later { S.read_faults store.old ≤ S.read_faults store.new }
        ensures other { S.write_faults store.new ≡ S.write_faults store.old }
    {
        match project_at(alloc, store, file) {
            Ok(Some(project)) => with_manifest(alloc, store, place, file, project),
            Ok(None) => Ok(empty(alloc, place, file)?),
            Err(fault) => Err(fault),
        }
    }

    /// The identity that a name has at the top level: the project's own name, where the file has both name and
    /// identifier, then a dependency's. None exactly where the environment gives it none. The one error is want of memory.
    pub fn root(&self, alloc: Global, name: &Name) -> Result<Option<Id>, AllocError>
        ensures { IfOk result (λ id. id ≡ spec.root_of self.now name.now) }
    {
        match &self.own {
            Some(own) => {
                if own.name.as_str() == name.as_str() {
                    Ok(Some(package_id(alloc, &own.uuid, &own.name)?))
                } else {
                    dependency_among(alloc, self.uses.deps.items(), name)
                }
            }
            None => dependency_among(alloc, self.uses.deps.items(), name),
        }
    }

    /// What the project's graph says of a name from a context: the project's own package has the dependencies of its
    /// file, and each other package those of its stanza; each extension that the file or the stanza names has its package,
    /// its triggers and those dependencies. (Julia manual, Code Loading.) The one error is want of memory.
    pub fn dep(
        &self,
        alloc: Global,
        context: &Context,
        name: &Name,
    ) -> Result<DepAnswer, AllocError>
        ensures { IfOk result (λ answer. answer ≡ spec.dep_answer name.now (in_graph (spec.graph_of self.now) context.now)) }
    {
        match context {
            Context::Top => Ok(DepAnswer::NotMine),
            Context::Package(id) => dep_from_package(alloc, self.uses(id), name),
            Context::Extension(uuid, parent, extension) => {
                let id = package_id(alloc, uuid, parent)?;
                dep_from_extension(alloc, self.uses(&id), uuid, parent, extension, name)
            }
        }
    }

    /// The path of an identity's entry file, which need not be there: `src/X.jl` beside the project file for the
    /// project's own package X; for a stanza with a path the file itself where that path is a file, else `src/X.jl`
    /// inside; for a stanza with a tree `src/X.jl` inside the installed tree; for a standard library `X/src/X.jl` in
    /// their folder, where X's project file there has the stanza's identifier. From an extension the extension itself has
    /// its own, beside its parent's `src`. None exactly where the environment has no path for it.
    ///
    /// Errors: BadFile, exactly where the identity, or the extension's parent, is a standard library whose project file is
    /// refused; ReadFault, where the store can't read; want of memory.
    pub fn entry<S: Store>(
        &self,
        alloc: Global,
        store: &mut S,
        context: &Context,
        id: &Id,
    ) -> Result<Option<NormPath>, EnvFault>
        ensures told { IfSome (S.files store.old) (λ all. Loads (spec.entry_in all self.now context.now id.now) result) }
        ensures fault { IfErr result (ReadFaultRose (S.read_faults store.old) (S.read_faults store.new)) }
        ensures files { S.files store.new ≡ S.files store.old }
        ensures later { S.read_faults store.old ≤ S.read_faults store.new }
        ensures other { S.write_faults store.new ≡ S.write_faults store.old }
    {
        let base = base_of(alloc, context, id)?;
        match self.library_for(alloc, store, &base) {
            Ok(library) => Ok(self.entry_seen(alloc, store, &library, context, id, &base)?),
            Err(fault) => Err(fault),
        }
    }

    /// The same where the identifiers that the standard libraries have are known already: no file is read then, and
    /// ReadFault is the one refusal beside want of memory.
    pub fn entry_by<S: Store>(
        &self,
        alloc: Global,
        store: &mut S,
        library: &Library,
        context: &Context,
        id: &Id,
    ) -> Result<Option<NormPath>, EnvFault>
        ensures path { IfSome (S.files store.old) (λ all. IfOk result (λ path. path ≡ path_from all (spec.graph_of self.now) (project_maps all (found_in library.now) self.now).paths context.now id.now)) }
        ensures refused { IfErr result (OnlyReadFault (S.read_faults store.old) (S.read_faults store.new)) }
        ensures files { S.files store.new ≡ S.files store.old }
        ensures later { S.read_faults store.old ≤ S.read_faults store.new }
        ensures other { S.write_faults store.new ≡ S.write_faults store.old }
    {
        let base = base_of(alloc, context, id)?;
        self.entry_seen(alloc, store, &library.uuid(&base.name), context, id, &base)
    }

    /// The same by the identifier that the standard library of the base's name has.
    fn entry_seen<S: Store>(
        &self,
        alloc: Global,
        store: &mut S,
        library: &Option<Uuid>,
        context: &Context,
        id: &Id,
        base: &Id,
    ) -> Result<Option<NormPath>, EnvFault>
        ensures path { IfSome (S.files store.old) (λ all. IfOk result (λ path. path ≡ path_by all context.now id.now (spec.graph_of self.now base.now) (spec.path_with all library.now self.now base.now))) }
        ensures refused { IfErr result (OnlyReadFault (S.read_faults store.old) (S.read_faults store.new)) }
        ensures files { S.files store.new ≡ S.files store.old }
        ensures later { S.read_faults store.old ≤ S.read_faults store.new }
        ensures other { S.write_faults store.new ≡ S.write_faults store.old }
    {
        match self.entry_of(alloc, store, library, base) {
            Ok(entry) => entry_from(alloc, store, context, id, self.uses(base), entry),
            Err(fault) => Err(fault),
        }
    }

    /// The entry file of a package.
    fn entry_of<S: Store>(
        &self,
        alloc: Global,
        store: &mut S,
        library: &Option<Uuid>,
        id: &Id,
    ) -> Result<Option<NormPath>, EnvFault>
        ensures path { IfSome (S.files store.old) (λ all. IfOk result (λ path. path ≡ spec.path_with all library.now self.now id.now)) }
        ensures refused { IfErr result (OnlyReadFault (S.read_faults store.old) (S.read_faults store.new)) }
        ensures files { S.files store.new ≡ S.files store.old }
        ensures later { S.read_faults store.old ≤ S.read_faults store.new }
        ensures other { S.write_faults store.new ≡ S.write_faults store.old }
    {
        if self.is_own(id) {
            return Ok(source_beside(alloc, &self.file, &id.name)?);
        }
        let stanza = self.stanza(id);
        stanza_entry(
            alloc,
            store,
            &self.depots,
            &self.folder,
            &self.stdlib,
            library,
            stanza,
        )
    }

    /// What a package uses: the project for its own package, else the stanza; None where there is neither.
    fn uses<'a>(&'a self, id: &Id) -> Option<UsesRef<'a>>
        ensures { result ≡ spec.graph_of self.now id.now }
    {
        if self.is_own(id) {
            return Some(self.uses.lent());
        }
        match self.stanza(id) {
            Some(stanza) => Some(stanza_uses(stanza)),
            None => None,
        }
    }

    /// The identifier that the standard library of the identity's name has, where the identity is one.
    fn library_for<S: Store>(
        &self,
        alloc: Global,
        store: &mut S,
        id: &Id,
    ) -> Result<Option<Uuid>, EnvFault>
        ensures told { IfSome (S.files store.old) (λ all. Loads (spec.library_for all self.now id.now) result) }
        ensures fault { IfErr result (ReadFaultRose (S.read_faults store.old) (S.read_faults store.new)) }
        ensures files { S.files store.new ≡ S.files store.old }
        ensures later { S.read_faults store.old ≤ S.read_faults store.new }
        ensures other { S.write_faults store.new ≡ S.write_faults store.old }
    {
        if self.is_library(id) {
            library_uuid(alloc, store, &self.stdlib, &id.name)
        } else {
            Ok(None)
        }
    }

    /// Whether the identity is a standard library by its stanza.
    fn is_library(&self, id: &Id) -> bool
        ensures { result ≡ spec.is_library self.now id.now }
    {
        !self.is_own(id) && is_std(self.stanza(id))
    }

    /// Whether the identity is the project's own package.
    fn is_own(&self, id: &Id) -> bool
        ensures { result ≡ spec.is_identity id.now self.now.own }
    {
        match &self.own {
            Some(own) => own.name.as_str() == id.name.as_str() && is_uuid(&id.uuid, &own.uuid),
            None => false,
        }
    }

    /// The first stanza of an identity.
    fn stanza(&self, id: &Id) -> Option<&Stanza>
        ensures { option_map said_stanza (option_copied result) ≡ spec.stanza_of id.now self.now.stanzas }
    {
        stanza_among(self.stanzas.items(), id)
    }
}

#[tactic(auto, unfolding(project_file::specs::Said::said))]
fn kept_of(project: Project) -> Kept
    ensures { result ≡ record { own = spec.own_of project.name project.uuid; uses = spec.project_uses (said_project project) } }
{
    let Parts { name, uuid, uses } = parts_of(project);
    Kept {
        own: own_of(name, uuid),
        uses,
    }
}

/// The identity of a project's own package, where the file has both name and identifier.
fn own_of(name: Option<Name>, uuid: Option<Uuid>) -> Option<Own>
    ensures { result ≡ spec.own_of name uuid }
{
    match name {
        Some(name) => match uuid {
            Some(uuid) => Some(Own { uuid, name }),
            None => None,
        },
        None => None,
    }
}

fn stanza_among<'a>(stanzas: &'a [Stanza], id: &Id) -> Option<&'a Stanza>
    ensures { option_map said_stanza (option_copied result) ≡ spec.stanza_of id.now (map said_stanza stanzas.now) }
{
    for stanza in stanzas {
        if is_of(stanza, id) {
            return Some(stanza);
        }
    }
    None
}

/// Whether a stanza is of that identity.
fn is_of(stanza: &Stanza, id: &Id) -> bool
    ensures { result ≡ (bytes_eq stanza.now.name id.now.name && same_uuid (Some stanza.now.uuid) id.now.uuid) }
{
    stanza.name.as_str() == id.name.as_str() && is_uuid(&id.uuid, &stanza.uuid)
}

fn is_std(stanza: Option<&Stanza>) -> bool
    ensures { result ≡ spec.is_std (option_map said_stanza (option_copied stanza.entry)) }
{
    match stanza {
        Some(stanza) => matches_std(&stanza.origin),
        None => false,
    }
}

fn matches_std(origin: &Origin) -> bool
    ensures { result ≡ spec.is_std_origin origin.now }
{
    match origin {
        Origin::Std => true,
        Origin::Path(_) => false,
        Origin::Tree(_) => false,
        Origin::Repo { .. } => false,
    }
}

/// The environment of a file that isn't there.
fn empty(alloc: Global, place: &Place, file: &NormPath) -> Result<ProjectEnv, AllocError>
    ensures { IfOk result (λ env. env ≡ spec.no_env place.now file.now) }
{
    let folder = file.folder(alloc)?;
    let kept = Kept {
        own: None,
        uses: Uses::none(alloc),
    };
    made(alloc, place, file, kept, folder, Stanzas::make(alloc))
}

/// The environment of a project with its manifest.
#[tactic(auto, unfolding(project_file::specs::Said::said))]
fn with_manifest<S: Store>(
    alloc: Global,
    store: &mut S,
    place: &Place,
    file: &NormPath,
    project: Project,
) -> Result<ProjectEnv, EnvFault>
    ensures told { IfSome (S.files store.old) (λ all. Loads (spec.env_with all place.now file.now (Some (said_project project))) result) }
    ensures fault { IfErr result (ReadFaultRose (S.read_faults store.old) (S.read_faults store.new)) }
    ensures files { S.files store.new ≡ S.files store.old }
    ensures later { S.read_faults store.old ≤ S.read_faults store.new }
    ensures other { S.write_faults store.new ≡ S.write_faults store.old }
{
    match manifest_path(alloc, store, place, file, &project) {
        Ok(path) => with_manifest_at(alloc, store, place, file, kept_of(project), &path),
        Err(fault) => Err(fault),
    }
}

fn with_manifest_at<S: Store>(
    alloc: Global,
    store: &mut S,
    place: &Place,
    file: &NormPath,
    kept: Kept,
    path: &NormPath,
) -> Result<ProjectEnv, EnvFault>
    ensures told { IfSome (S.files store.old) (λ all. Loads (spec.env_at all place.now file.now kept.own kept.uses path.now) result) }
    ensures fault { IfErr result (ReadFaultRose (S.read_faults store.old) (S.read_faults store.new)) }
    ensures files { S.files store.new ≡ S.files store.old }
    ensures later { S.read_faults store.old ≤ S.read_faults store.new }
    ensures other { S.write_faults store.new ≡ S.write_faults store.old }
{
    match manifest_at(alloc, store, path) {
        Ok(manifest) => with_stanzas(alloc, place, file, kept, path, stanzas_of(manifest)),
        Err(fault) => Err(fault),
    }
}

/// The stanzas of a manifest; the rest of it is let go.
fn stanzas_of(manifest: Manifest) -> Stanzas
    ensures { result ≡ manifest.stanzas }
{
    let Manifest { stanzas, .. } = manifest;
    stanzas
}

/// The environment, unless the path of a stanza rises above the root.
fn with_stanzas(
    alloc: Global,
    place: &Place,
    file: &NormPath,
    kept: Kept,
    path: &NormPath,
    stanzas: Stanzas,
) -> Result<ProjectEnv, EnvFault>
    ensures told { Loads (spec.env_of place.now file.now kept.own kept.uses path.now (map said_stanza stanzas.items)) result }
    ensures fault { IfErr result NoReadFault }
{
    let folder = path.folder(alloc)?;
    match first_escaping(alloc, &folder, stanzas.items())? {
        Some(name) => Err(path_refused(alloc, path, name)),
        None => Ok(made(alloc, place, file, kept, folder, stanzas)?),
    }
}

fn made(
    alloc: Global,
    place: &Place,
    file: &NormPath,
    kept: Kept,
    folder: NormPath,
    stanzas: Stanzas,
) -> Result<ProjectEnv, AllocError>
    ensures { IfOk result (λ env. env ≡ record { file = file.now; own = kept.own; uses = kept.uses; folder = folder; stanzas = map said_stanza stanzas.items; depots = place.now.depots.items; stdlib = place.now.stdlib }) }
{
    let Copies {
        file,
        depots,
        stdlib,
    } = copies_of(alloc, place, file)?;
    let Kept { own, uses } = kept;
    Ok(ProjectEnv {
        file,
        own,
        uses,
        folder,
        stanzas,
        depots,
        stdlib,
    })
}

fn copies_of(alloc: Global, place: &Place, file: &NormPath) -> Result<Copies, AllocError>
    ensures file { IfOk result (λ copies. copies.file ≡ file.now) }
    ensures depots { IfOk result (λ copies. copies.depots.items ≡ place.now.depots.items) }
    ensures stdlib { IfOk result (λ copies. copies.stdlib ≡ place.now.stdlib) }
{
    Ok(Copies {
        file: file.copy(alloc)?,
        depots: place.depots.copy(alloc)?,
        stdlib: stdlib_of(alloc, place)?,
    })
}

/// A copy of the path of the standard library folder, where there is one.
fn stdlib_of(alloc: Global, place: &Place) -> Result<Option<NormPath>, AllocError>
    ensures { IfOk result (λ folder. folder ≡ place.now.stdlib) }
{
    match &place.stdlib {
        Some(folder) => Ok(Some(folder.copy(alloc)?)),
        None => Ok(None),
    }
}
