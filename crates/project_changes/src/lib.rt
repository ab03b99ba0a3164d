//! What the words of a command change in a project, in its manifest and among the fixed packages.
#![tactic(auto)]

mod adding;
mod developing;
mod fault;
mod fixing;
mod freeing;
mod named;
mod pinning;
mod removing;
mod stanza_copies;

pub use adding::add_words;
pub use developing::{developed, set_package};
pub use fault::ChangeFault;
pub use fixing::{fixed_copy, with_fixed, without_fixed};
pub use freeing::{Freed, find_freed};
pub use pinning::{pin, without_mark};
pub use removing::remove_names;
