//! Messages between the packages of an instance, which say how much each state is worth to its neighbours;
//! the beliefs that they add up to; and the choice of the package that is decided next.
#![tactic(auto)]

mod building;
mod choosing;
mod fields;
mod greatest;
mod grid;
mod inbox;
mod laws;
mod messages;
mod order;
mod saying;
mod weighed;

pub use fields::Fields;
pub use laws::{
    belief_is_one, choice_is_one, closure_is_stable, nothing_to_tell_is_zero, round_is_one,
    rounds_are_one, silence_is_one,
};
pub use messages::Messages;
pub use order::Order;
