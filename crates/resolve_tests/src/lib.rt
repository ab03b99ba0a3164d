//! The tests of resolving over a book, which no command shows yet. They stand here since a crate with tests is proved twice.
#![tactic(auto)]

#[cfg(test)]
mod resolve_calls;
