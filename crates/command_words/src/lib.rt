//! What the words of a command ask for.
#![tactic(auto)]

mod asked;
mod found;
mod laws;
mod meaning;
mod numbers;
mod parts;
mod table;
mod words;

pub use asked::Asked;
pub use laws::{
    behind_dashes_a_word_is_positional, options_may_change_places, repeated_words_are_refused,
};
pub use words::read_words;
