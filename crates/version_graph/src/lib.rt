//! The instance that is solved: packages with numbered states, states forbidden alone, and pairs of states
//! forbidden together; the domains of its packages, and the trail of what was taken from them.
#![tactic(auto)]

mod building;
mod counting;
mod domain;
mod fault;
mod flat_rows;
mod graph;
mod laws;
mod linking;
mod links;
mod needs;
mod restricting;
mod state_map;
mod trail;

pub use building::InstanceBuilder;
pub use domain::Domains;
pub use fault::GraphFault;
pub use graph::Instance;
pub use laws::{
    between_closes_alike, closing_goes_on, closure_is_largest, closure_is_monotone,
    decided_is_solution, empty_is_everywhere, held_is_offered, notes_tell_domains,
    offered_is_known, one_state_is_left, solution_is_closed,
};
pub use needs::Needs;
pub use state_map::StateMap;
pub use trail::Trail;
