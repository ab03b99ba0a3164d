//! Julia's version numbers: their texts, their values and their order.
#![tactic(auto)]

pub mod fault;
pub mod ident;
pub mod laws;
mod order;
pub mod print;
mod reader;
pub mod version;

pub use fault::VersionFault;
pub use ident::{Ident, Idents, Word};
pub use print::VersionText;
pub use version::Version;
