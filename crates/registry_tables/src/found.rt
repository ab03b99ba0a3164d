//! Registries that were found.
use pkg_world::NormPaths;

/// Where registries lie: the folders of registries, and the paths of packed ones.
#[derive(Debug, Drop)]
pub struct Registries {
    pub folders: NormPaths,
    pub packed: NormPaths,
}
