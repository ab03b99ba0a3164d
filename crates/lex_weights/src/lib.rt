//! Weights that are added and compared level by level, the first level first, and clipped so that sums of
//! many of them stay small. Code that is generic over them rests on the laws of the trait alone.
#![tactic(auto)]

mod level;
mod lex;
mod weight;

pub use level::Level;
pub use lex::{Lex, Lex3};
pub use weight::Weight;
