//! The test of made worlds that only a named call can show: that a world is made where memory is ample, and examples of
//! its texts. It stands here since a crate with tests is proved twice.
#![tactic(auto)]

#[cfg(test)]
mod world_calls;
