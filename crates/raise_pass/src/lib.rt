//! What is done after a solution: packages that no root reaches are set absent, and packages are raised alone
//! until nothing can be raised.
#![tactic(auto)]

mod changing;
mod keeping;
mod laws;
mod loose;
mod raising;
mod reaching;
mod scratch;
mod trimming;

pub use laws::{finish_keeps_solution, one_finish};
pub use raising::raise;
pub use scratch::RaiseScratch;
