//! The tests of lists, names, paths, stores and sinks that only a named call can show: that calls succeed where memory is
//! ample, and examples of their answers. They stand here since a crate with tests is proved twice. The paths and the
//! stores of the tests serve the tests of other crates too.
#![tactic(auto)]

pub mod files;
#[cfg(test)]
mod pkg_world_calls;
#[cfg(test)]
mod reading_once;
#[cfg(test)]
mod store_calls;
