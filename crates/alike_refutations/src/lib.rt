//! Logs refute alike the instances that are alike: what a log shows depends on the packages, the states and what is forbidden
//! of them alone, and not on how an instance keeps them.
#![tactic(auto)]

mod laws;

pub use laws::refuted_alike;
