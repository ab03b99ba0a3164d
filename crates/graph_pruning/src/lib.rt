//! Taking out of the domains what can't be in a solution, and putting it back.
#![tactic(auto)]

mod closing;
mod cutting;
mod equality;
mod kept;
mod laws;
mod pruning;
mod reaching;
mod reducing;
mod widening;

pub use closing::{Closed, close, undo_to};
pub use cutting::{cross_off, cut_to};
pub use equality::classes;
pub use kept::{Classes, Kept};
pub use laws::{
    equal_states_exchange, one_pruning, pruning_keeps_closures, pruning_keeps_solutions,
    reduced_is_whole, unkept_can_be_absent,
};
pub use pruning::{Pruned, prune};
pub use reaching::drop_unreachable;
pub use reducing::{Reduced, reduce};
