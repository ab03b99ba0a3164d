//! The tests of trees, registries and places that only a named call can show: that calls succeed where memory is ample,
//! and examples of their answers. They stand here since a crate with tests is proved twice.
#![tactic(auto)]

#[cfg(test)]
mod depot_hash_calls;
#[cfg(test)]
mod place_calls;
#[cfg(test)]
mod registry_calls;
