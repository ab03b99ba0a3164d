//! The tests of versions, specifiers and files of TOML that only a named call can show: that calls succeed where memory
//! is ample, and examples of their answers. They stand here since a crate with tests is proved twice.
#![tactic(auto)]

#[cfg(test)]
mod compat_spec_calls;
#[cfg(test)]
mod jl_versions_calls;
#[cfg(test)]
mod toml_view_calls;
