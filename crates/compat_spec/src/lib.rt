//! Pkg's compatibility specifiers and the ranges of its registries: which texts they are, which
//! versions they hold, and the first bad place of any other text.
#![tactic(auto)]

pub mod allowed;
mod bounds;
pub mod fault;
pub mod laws;
pub mod numbers;
pub mod part;
pub mod range;
pub mod range_set;
pub mod spec;

pub use allowed::Allowed;
pub use fault::SpecFault;
pub use numbers::Numbers;
pub use part::Part;
pub use range::{Bound, Range};
pub use range_set::RangeSet;
pub use spec::Spec;
