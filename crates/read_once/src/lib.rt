//! A store over another one that asks it once for each file of TOML, and remembers what it said.
#![tactic(auto)]

mod once;
mod seen;

pub use once::ReadOnce;
