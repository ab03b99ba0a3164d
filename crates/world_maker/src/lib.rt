//! Made worlds: a registry and a project, drawn from a number, to measure the resolver on.
#![tactic(auto)]

mod draws;
mod files;
mod laying;
mod needs;
mod ranges;
mod tables;
mod texts;
mod world;

pub use world::make_world;
