//! What the search and its telling go by.
use pkg_world::NormPath;

/// What is asked of a command that writes beside the project's edit.
#[derive(Debug, Drop)]
pub(crate) struct Options {
    /// How many nodes a search may have.
    pub budget: u32,
    /// Whether the project file is replaced.
    pub rewrites: bool,
    /// Whether the classes are told before the line.
    pub classes: bool,
    /// The file that gets the certificate where no selection is feasible.
    pub proof: Option<NormPath>,
}
