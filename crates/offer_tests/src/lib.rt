//! The tests of what is chosen among that only a named call can show: catalogs, books and what is offered. They stand here
//! since a crate with tests is proved twice.
#![tactic(auto)]

#[cfg(test)]
mod book_calls;
#[cfg(test)]
mod catalog_calls;
#[cfg(test)]
mod limit_calls;
#[cfg(test)]
mod refusal_calls;
#[cfg(test)]
mod shown;
pub mod worlds;
