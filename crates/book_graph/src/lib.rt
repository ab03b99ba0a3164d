//! The instance that stands for a book and a demand, and the selections that its states choose.
#![tactic(auto)]

mod barring;
mod forbidding;
mod laws;
mod making;
mod numbers;
mod rules;
mod selecting;
mod sizes;

pub use laws::{
    feasible_is_solution, finished_is_best, need_is_dependency, need_is_reach, none_is_feasible,
    one_solution, raise_is_raise, solution_is_feasible, stands_plain, sums_are_one,
};
pub use making::make_instance;
pub use selecting::selection_of;
