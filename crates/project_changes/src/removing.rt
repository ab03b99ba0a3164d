//! Dependencies that are taken out of a project.
ghost use Rattle.std.specs.Prelude.{◌≡◌, Ok, OnOk, IfOk, MatchResult};
ghost use Rattle.toml.specs.View.{table_view};
ghost use Rattle.project_file.specs.Said.{said as said_project};
ghost use Rattle.project_changes.specs.Words as spec;
ghost use Rattle.project_changes.specs.Faults.{Refuses, IsNotInProject};

use crate::fault::ChangeFault;
use pkg_world::{Duplicate, Name};
use project_file::Project;
use std::alloc::Global;

/// The project without these dependencies. With a dependency goes what the project says of it for its sake. The names go one
/// by one, each on the project as the names before it left it. (Pkg, `rm`.)
///
/// Errors: NotInProject, of the first name that is no dependency; want of memory.
pub fn remove_names(alloc: Global, project: Project, names: &[Name]) -> Result<Project, ChangeFault>
    ensures told { MatchResult result
        (λ after. spec.without_names (said_project project) names.now ≡ Ok (said_project after))
        (Refuses (spec.without_names (said_project project) names.now)) }
    ensures rest { IfOk result (λ after. table_view after.rest ≡ table_view project.rest) }
{
    let mut after = project;
    for name in names {
        match remove_name(alloc, &mut after, name) {
            Ok(()) => {}
            Err(fault) => return Err(fault),
        }
    }
    Ok(after)
}

#[tactic(auto, unfolding(project_file::specs::Said::said))]
fn remove_name(alloc: Global, project: &mut Project, name: &Name) -> Result<(), ChangeFault>
    ensures told { MatchResult result
        (λ _. spec.without_name (said_project project.old) name.now ≡ Ok (said_project project.new))
        (Refuses (spec.without_name (said_project project.old) name.now)) }
    ensures rest { OnOk result (table_view project.new.rest ≡ table_view project.old.rest) }
{
    if project.drop_dep(name) {
        Ok(())
    } else {
        Err(not_in_project(alloc, name))
    }
}

fn not_in_project(alloc: Global, name: &Name) -> ChangeFault
    ensures { IsNotInProject name.now result }
{
    match name.copy(alloc) {
        Ok(name) => ChangeFault::NotInProject(name),
        Err(_) => ChangeFault::Memory,
    }
}
