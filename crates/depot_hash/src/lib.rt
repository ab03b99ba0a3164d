//! Hashes of depots: Git's ids of files and folders, the slugs of installed trees, and where a tree is installed.
#![tactic(auto)]

mod checksum;
mod entries;
mod fault;
mod folders;
mod git_key;
mod laws;
mod objects;
mod packages;
mod slugs;
mod trees;

pub use checksum::crc32c;
pub use entries::{Mode, TreeEntry, TreeFault};
pub use fault::FolderFault;
pub use folders::folder_id;
pub use laws::{checksum_goes_on, one_text_one_path};
pub use objects::blob_id;
pub use packages::installed;
pub use slugs::{slug, slug_text, slug4};
pub use trees::tree_id;
