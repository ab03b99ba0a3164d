//! The tests of the crates of the resolver that only a named call can show: that calls succeed where memory is ample,
//! and examples of their answers. They stand here since a crate with tests is proved twice.
#![tactic(auto)]

#[cfg(test)]
mod bit_row_calls;
#[cfg(test)]
mod graph_calls;
#[cfg(test)]
mod lex_weights_calls;
#[cfg(test)]
mod message_calls;
#[cfg(test)]
mod pruning_calls;
#[cfg(test)]
mod raising_calls;
#[cfg(test)]
mod search_calls;
