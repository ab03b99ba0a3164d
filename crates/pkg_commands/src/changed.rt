//! What a command changes.
use manifest_file::Manifest;
use offer_terms::FixedList;
use project_file::Project;

/// A project, its manifest and the fixed packages, after a command's words.
#[derive(Drop)]
pub(crate) struct Changed {
    pub(crate) project: Project,
    pub(crate) manifest: Manifest,
    pub(crate) fixed: FixedList,
}
