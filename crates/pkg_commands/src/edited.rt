//! What an edit gives.
use offer_terms::Demand;
use project_file::Project;

/// A project after a command's edit, and what it demands of a selection.
#[derive(Drop)]
pub struct Edited {
    pub project: Project,
    pub demand: Demand,
}
