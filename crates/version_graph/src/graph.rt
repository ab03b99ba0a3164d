//! The instance: packages with their states, and what is forbidden among them.
ghost use Rattle.std.specs.Prelude.{◌≡◌, ◌≢◌, ◌<◌, ◌≤◌, ◌&&◌, ℕ, true, false, not, length, IfOk, MatchBool, Contains, slice_index, slice_index_or, map, sum, OnOk, ◌∷◌, ◌++◌, [], if◌then◌else◌};
ghost use Rattle.version_graph.specs.Graph.{packages, states, is_offered, is_forbidden, is_root, are_neighbours, IsGraph, IsListOf};
ghost use Rattle.version_graph.specs.Needed.{AreNeeds};
ghost use Rattle.version_graph.specs.Family.{Meets, AreAlike};
ghost use Rattle.version_graph.specs.Domain.{has, IsFor};

use crate::domain::Domains;
use crate::links::Links;
use crate::needs::Needs;
use bit_rows::BitRow;
use pkg_world::States;
use std::alloc::{AllocError, Global};
use std::marker::Model;

/// Packages with numbered states, states forbidden alone, and pairs of states of two packages forbidden
/// together. The last state of a package is its absent state.
#[derive(Drop)]
pub struct Instance {
    pub(crate) sizes: Vec<u32>,
    pub(crate) total: u32,
    pub(crate) barred: Vec<Vec<bool>>,
    pub(crate) links: Vec<Links>,
}

impl Model for Instance {
    ghost use Rattle.version_graph.specs.Graph.{Graph};
    ghost use Rattle.version_graph.specs.Stored.{IsStored, told_by};

    ghost Value = { Graph };

    ghost view = { λ a. told_by a.sizes.items a.barred.items a.links.items };

    ghost invariant = { λ a. IsStored (told_by a.sizes.items a.barred.items a.links.items) a.barred.items a.links.items a.total };
}

impl Instance {
    /// How many packages there are. It takes no memory.
    pub fn packages(&self) -> u32
        ensures count { result ≡ packages self.now }
        ensures sound { IsGraph self.now }
    {
        self.sizes.len() as u32
    }

    /// How many states the package p has. It takes no memory.
    pub fn states(&self, p: u32) -> u32
        requires { p < packages self.now }
        ensures count { result ≡ states self.now p }
        ensures some { 0 < result }
        ensures few { result ≤ 65536 }
    {
        self.sizes[p as usize]
    }

    /// How many states all packages have together. It takes no memory.
    pub fn state_count(&self) -> u32
        ensures count { result ≡ sum self.now.sizes }
        ensures small { result ≤ 65536 }
    {
        self.total
    }

    /// Whether the state i of p isn't forbidden alone. It takes no memory.
    pub fn is_offered(&self, p: u32, i: u32) -> bool
        requires known { p < packages self.now }
        requires state { i < states self.now p }
        ensures { result ≡ is_offered self.now p i }
    {
        !self.barred[p as usize][i as usize]
    }

    /// Whether the state i of p and the state j of q aren't forbidden together. It takes no memory.
    pub fn allowed(&self, p: u32, i: u32, q: u32, j: u32) -> bool
        requires first { p < packages self.now }
        requires first_state { i < states self.now p }
        requires second { q < packages self.now }
        requires second_state { j < states self.now q }
        requires apart { p ≢ q }
        ensures { result ≡ not (is_forbidden self.now p i q j) }
    {
        self.links[p as usize].allows(i, q, j)
    }

    /// The packages of which some state is forbidden with a state of p, rising. It takes no memory.
    pub fn neighbours(&self, p: u32) -> &[u32]
        requires { p < packages self.now }
        ensures list { IsListOf (are_neighbours self.now p) result.now }
        ensures known { (k : ℕ) → k < length result.now → slice_index result.now k < packages self.now }
        ensures apart { (k : ℕ) → k < length result.now → slice_index result.now k ≢ p }
        ensures whole { (i q j : ℕ) → is_forbidden self.now p i q j ≡ true → Contains result.now q }
    {
        self.links[p as usize].numbers()
    }

    /// The packages whose last state is forbidden alone, rising. The one error is want of memory.
    pub fn roots(&self, alloc: Global) -> Result<States, AllocError>
        ensures { IfOk result (λ roots. IsListOf (is_root self.now) roots.items) }
    {
        let mut roots = States::make(alloc);
        for p in 0..self.packages() {
            push_if(&mut roots, p, self.is_root(p))?;
        }
        Ok(roots)
    }

    /// Whether the last state of p is forbidden alone.
    fn is_root(&self, p: u32) -> bool
        requires { p < packages self.now }
        ensures { result ≡ is_root self.now p }
    {
        self.barred[p as usize][self.sizes[p as usize] as usize - 1]
    }

    /// For each state the packages that it needs: those with whose last state it is forbidden. The one
    /// error is want of memory.
    pub fn needs(&self, alloc: Global) -> Result<Needs, AllocError>
        ensures { IfOk result (λ needs. AreNeeds self.now needs) }
    {
        Needs::of_instance(alloc, self)
    }

    /// Whether the state i of p is allowed with a state of q's domain. It takes no memory.
    pub fn meets(&self, p: u32, i: u32, q: u32, domains: &Domains) -> bool
        requires first { p < packages self.now }
        requires first_state { i < states self.now p }
        requires second { q < packages self.now }
        requires apart { p ≢ q }
        requires made { IsFor self.now domains.now }
        ensures { MatchBool result (Meets self.now (has domains.now) p i q) ((j : ℕ) → has domains.now q j ≡ true → is_forbidden self.now p i q j ≡ true) }
    {
        match self.links[p as usize].allows_any(i, q, domains.row(q)) {
            Some(is_met) => is_met,
            None => domains.is_filled(q),
        }
    }

    /// Whether the states i and j of p are allowed with the same states of q's domain. It takes no memory.
    pub fn are_alike(&self, p: u32, i: u32, j: u32, q: u32, domains: &Domains) -> bool
        requires first { p < packages self.now }
        requires first_state { i < states self.now p }
        requires second_state { j < states self.now p }
        requires other { q < packages self.now }
        requires apart { p ≢ q }
        requires made { IsFor self.now domains.now }
        ensures { MatchBool result (AreAlike self.now (has domains.now) p i j q) (AreAlike self.now (has domains.now) p i j q → ⊥) }
    {
        self.links[p as usize].are_alike(i, j, q, domains.row(q))
    }

    /// The states of p that aren't forbidden alone.
    pub(crate) fn offered(&self, alloc: Global, p: u32) -> Result<BitRow, AllocError>
        requires { p < packages self.now }
        ensures each { IfOk result (λ row. length row ≡ states self.now p) }
        ensures row { IfOk result (λ row. (i : ℕ) → slice_index_or row i false ≡ is_offered self.now p i) }
        ensures few { IfOk result (λ row. length row ≤ 65536) }
    {
        let count = self.states(p);
        let mut row = BitRow::make(alloc, count)?;
        for i in 0..count {
            set_if(&mut row, i, self.is_offered(p, i));
        }
        Ok(row)
    }
}

/// Makes the place true where it is wanted.
fn set_if(row: &mut BitRow, place: u32, wanted: bool)
    requires known { place < length row.old }
    requires off { slice_index_or row.old place false ≡ false }
    ensures long { length row.new ≡ length row.old }
    ensures here { slice_index_or row.new place false ≡ wanted }
    ensures others { (k : ℕ) → k ≢ place → slice_index_or row.new k false ≡ slice_index_or row.old k false }
{
    if wanted {
        row.set(place);
    }
}

/// Appends the number where it is wanted.
fn push_if(list: &mut States, item: u32, wanted: bool) -> Result<(), AllocError>
    ensures { OnOk result (list.new.items ≡ list.old.items ++ (if wanted then item ∷ [] else [])) }
{
    if wanted {
        list.push(item)?;
    }
    Ok(())
}
