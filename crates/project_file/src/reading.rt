//! Reading a project file.
ghost use Rattle.std.specs.Prelude.{◌≡◌, ◌==◌, ◌≤◌, Ok, IfOk, IfErr, MatchResult, IsTrue};
ghost use Rattle.toml.specs.View.{table_view};
ghost use Rattle.toml_view.specs.Document.{nesting, nesting_limit};
ghost use Rattle.toml_view.specs.Answers.{HasPath, Refuses as StopRefuses};
ghost use Rattle.project_file.specs.Answers.{Refuses};
ghost use Rattle.project_file.specs.Chain.{project_chain, joined};
ghost use Rattle.project_file.specs.Keys.{unnamed, is_named, names_none};
ghost use Rattle.project_file.specs.Projects.{project_of, read_of};
ghost use Rattle.toml_view.specs.Causes.{caused};
ghost use Rattle.project_file.specs.Said.{said};

use crate::fault::{ProjectFault, fault_of, unviewed};
use crate::parts::{Back, Front, Middle, read_back, read_front, read_middle};
use crate::project::Project;
use std::alloc::Global;
use toml_view::{Stop, Table, view};

impl Project {
    /// The project of a file's bytes (Pkg, Project.toml). The keys `name`, `uuid`, `version`, `deps`, `weakdeps`,
    /// `extensions`, `compat`, `extras`, `sources` and `manifest` are read, where they are there; every other key is
    /// kept in `rest`.
    ///
    /// The bytes are refused as BadToml where they are no TOML text, and as Deep where tables and lists nest deeper
    /// than 64. Else the first refusal in key order answers: BadShape of the path of a value of another kind, BadVersion
    /// of a text that is no version, BadSpec of a text that is no specifier. Memory comes where memory ran out.
    pub fn read(alloc: Global, bytes: &[u8]) -> Result<Project, ProjectFault>
        // What is read is what the bytes say, and a refusal is the one that they call for.
        ensures told { MatchResult result (λ project. read_of bytes.now ≡ Ok (said project)) (Refuses (read_of bytes.now)) }
        // No key of the rest is a named one, and the rest nests within the limit: `to_table` takes the project.
        ensures plain { IfOk result (λ project. IsTrue (names_none (table_view project.rest))) }
        ensures nested { IfOk result (λ project. nesting (table_view project.rest) ≤ nesting_limit) }
    {
        match view(alloc, bytes) {
            Ok(table) => of_table(alloc, table),
            Err(fault) => Err(unviewed(fault)),
        }
    }
}

/// The project of a table.
#[tactic(auto, using(crate::proofs::Orders::project_in_order))]
fn of_table(alloc: Global, table: Table) -> Result<Project, ProjectFault>
    ensures told { MatchResult result (λ project. caused (project_of (table_view table)) ≡ Ok (said project)) (Refuses (caused (project_of (table_view table)))) }
    ensures plain { IfOk result (λ project. IsTrue (names_none (table_view project.rest))) }
    ensures nested { IfOk result (λ project. nesting (table_view project.rest) ≤ nesting (table_view table)) }
{
    match read_keys(alloc, table) {
        Ok(project) => Ok(project),
        Err(stop) => Err(fault_of(stop)),
    }
}

/// The readings of the named keys, in the order of their bytes.
#[tactic(auto, unfolding(crate::specs::Chain::project_chain))]
fn read_keys(alloc: Global, table: Table) -> Result<Project, Stop>
    ensures told { MatchResult result (λ project. project_chain (table_view table) ≡ Ok (said project)) (λ stop. StopRefuses stop (project_chain (table_view table))) }
    ensures path { IfErr result HasPath }
    ensures plain { IfOk result (λ project. IsTrue (names_none (table_view project.rest))) }
    ensures nested { IfOk result (λ project. nesting (table_view project.rest) ≤ nesting (table_view table)) }
{
    let front = read_front(alloc, &table)?;
    let middle = read_middle(alloc, &table)?;
    let back = read_back(alloc, &table)?;
    Ok(whole(front, middle, back, without_named(table)))
}

/// The project of what its keys say, and of all others.
#[tactic(auto, unfolding(crate::specs::Said::said))]
fn whole(front: Front, middle: Middle, back: Back, rest: Table) -> Project
    ensures said { said result ≡ joined front middle back (table_view rest) }
    ensures rest { result.rest ≡ rest }
{
    Project {
        name: middle.name,
        uuid: back.uuid,
        version: back.version,
        deps: front.deps.into_list(),
        weakdeps: back.weakdeps.into_list(),
        extensions: front.extensions.into_list(),
        compat: front.compat.into_list(),
        extras: front.extras.into_list(),
        sources: middle.sources.into_list(),
        manifest: middle.manifest,
        rest,
    }
}

/// The table without the named keys.
fn without_named(mut table: Table) -> Table
    ensures rest { table_view result ≡ unnamed (table_view table) }
    ensures plain { IsTrue (names_none (table_view result)) }
    ensures nested { nesting (table_view result) ≤ nesting (table_view table) }
{
    table.retain(|key, _| !names(key.as_str()));
    table
}

/// Whether the key is a named one.
#[tactic(auto, unfolding(crate::specs::Keys::is_named))]
fn names(key: &str) -> bool
    ensures { result ≡ is_named key.now }
{
    key == "name"
        || key == "uuid"
        || key == "version"
        || key == "deps"
        || key == "weakdeps"
        || key == "extensions"
        || key == "compat"
        || key == "extras"
        || key == "sources"
        || key == "manifest"
}
