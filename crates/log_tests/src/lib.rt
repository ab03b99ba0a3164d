//! The tests of logs as texts that only a named call can show: that calls succeed where memory is ample, and examples of
//! their answers. They stand here since a crate with tests is proved twice.
#![tactic(auto)]

#[cfg(test)]
mod log_text_calls;
