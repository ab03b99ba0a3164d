//! Entry files: where the code of a package begins, and that of an extension.
#![tactic(auto)]

mod extension;
mod source;

pub use extension::extension_entry;
pub use source::{source_beside, source_inside};
