//! Where a command runs.
use crate::list::NormPaths;
use crate::path::NormPath;
use crate::text::Text;

/// What the environment of a command tells: folders, texts and Julia's version.
#[derive(Debug, Drop)]
pub struct Place {
    /// The current folder.
    pub cwd: NormPath,
    /// The depots, in order.
    pub depots: NormPaths,
    /// The load path's text, where there is one.
    pub load_path: Option<Text>,
    /// The active project's text, where there is one.
    pub project: Option<Text>,
    /// The folder of the standard libraries, where there is one.
    pub stdlib: Option<NormPath>,
    /// Julia's version.
    pub julia: [u32; 3],
}

/// The paths of the active project's two files, which need not be there.
#[derive(Debug, Drop)]
pub struct Home {
    pub project: NormPath,
    pub manifest: NormPath,
}
