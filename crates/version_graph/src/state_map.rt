//! Some packages and states of an instance, by their numbers in it.
ghost use Rattle.std.specs.Prelude.{◌≡◌, ◌<◌, ◌∷◌, ◌++◌, [], length, OnOk, OnErr};
ghost use Rattle.version_graph.specs.Part.{package_of, states_of, state_of};

use pkg_world::States;
use std::alloc::{AllocError, Global};
use std::marker::Model;

/// A package's number, with the numbers of its states.
#[derive(Drop)]
struct Piece {
    number: u32,
    states: States,
}

/// Some packages of an instance and some states of each, by the numbers that they have in it. The places of
/// the map are the numbers in the smaller instance that they make.
#[derive(Drop)]
pub struct StateMap {
    pieces: Vec<Piece>,
}

impl Model for StateMap {
    ghost use Rattle.std.specs.Prelude.{map};
    ghost use Rattle.version_graph.specs.Part.{Part};

    ghost Value = { Part };

    ghost view = { λ a. map (λ piece. (piece.number, piece.states.items)) a.pieces.items };
}

impl StateMap {
    /// The map of no package.
    pub fn make(alloc: Global) -> Self
        ensures { result ≡ [] }
    {
        StateMap {
            pieces: Vec::new(alloc),
        }
    }

    /// Puts a package with its states in the next place. The one error is want of memory, and then the map is
    /// as before.
    pub fn push(&mut self, number: u32, states: States) -> Result<(), AllocError>
        ensures ok { OnOk result (self.new ≡ self.old ++ (number, states.items) ∷ []) }
        ensures err { OnErr result (self.new ≡ self.old) }
    {
        self.pieces.push(Piece { number, states })?;
        Ok(())
    }

    /// The number of the package in the place p. It takes no memory.
    pub fn package(&self, p: u32) -> u32
        requires { p < length self.now }
        ensures { result ≡ package_of self.now p }
    {
        self.pieces[p as usize].number
    }

    /// The number of the state in the place i of the package in the place p. It takes no memory.
    pub fn state(&self, p: u32, i: u32) -> u32
        requires known { p < length self.now }
        requires state { i < length (states_of self.now p) }
        ensures { result ≡ state_of self.now p i }
    {
        self.pieces[p as usize].states.items()[i as usize]
    }

    /// How many packages the map has. It takes no memory.
    pub fn count(&self) -> usize
        ensures { result ≡ length self.now }
    {
        self.pieces.len()
    }

    /// How many states the package in the place p has. It takes no memory.
    pub fn width(&self, p: usize) -> usize
        requires { p < length self.now }
        ensures { result ≡ length (states_of self.now p) }
    {
        self.pieces[p].states.items().len()
    }
}
