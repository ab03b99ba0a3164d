//! The tests of verdicts on selections, of raises and of lists by identifiers. They stand here since a crate with tests is
//! proved twice.
#![tactic(auto)]

#[cfg(test)]
mod list_calls;
#[cfg(test)]
mod verdict_calls;
