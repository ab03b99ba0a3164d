//! How an instance is made.
ghost use Rattle.std.specs.Prelude.{◌≡◌, ◌≢◌, ◌<◌, ◌≤◌, ◌||◌, ◌^◌, ℕ, length, sum, slice_index, IfOk, IfErr, OnOk, OnErr};
ghost use Rattle.version_graph.specs.Graph.{packages, states, is_barred, is_forbidden, is_state, is_pair, is_key, has_pair, bits, cells, IsOpen, SameGraph};
ghost use Rattle.version_graph.specs.Answers.{CountsPass, SumsPass, IsMemory};
ghost use Rattle.version_graph.specs.Stored.{rows_of, AreNeighbourRows};

use crate::counting::{neighbour_rows, open_rows, order_pairs, state_sum};
use crate::fault::GraphFault;
use crate::graph::Instance;
use crate::linking::{forbid_pairs, free_links};
use pkg_world::LimitKind;
use std::alloc::{AllocError, Global};
use std::marker::Model;

const MOST_PACKAGES: usize = 4096;

const MOST_STATES: u64 = 65536;

const MOST_BITS: u64 = 1 << 30;

const MOST_CELLS: u64 = 1 << 25;

/// An instance that is being made.
#[derive(Drop)]
pub struct InstanceBuilder {
    sizes: Vec<u32>,
    total: u32,
    barred: Vec<Vec<bool>>,
    /// The lower package, the higher one, and the state of each.
    pairs: Vec<(u32, u32, u32, u32)>,
}

impl Model for InstanceBuilder {
    ghost use Rattle.std.specs.Prelude.{◌≡◌, sum};
    ghost use Rattle.version_graph.specs.Graph.{Graph};
    ghost use Rattle.version_graph.specs.Stored.{IsKept, graph_of};

    ghost Value = { Graph };

    ghost view = { λ a. graph_of a.sizes.items a.barred.items a.pairs.items };

    ghost invariant = { λ a. IsKept (graph_of a.sizes.items a.barred.items a.pairs.items) a.barred.items × (a.total ≡ sum a.sizes.items) };
}

impl InstanceBuilder {
    /// An instance with so many states for each package, in which nothing is forbidden. Refused where there
    /// are more than 4,096 packages, which carries 4,097, and then where there are more than 65,536 states,
    /// which carries their whole count; and for want of memory.
    pub fn make(alloc: Global, states: &[u32]) -> Result<Self, GraphFault>
        requires { (p : ℕ) → p < length states.now → 0 < slice_index states.now p }
        ensures sizes { IfOk result (λ builder. builder.sizes ≡ states.now) }
        ensures open { IfOk result (λ builder. IsOpen builder) }
        ensures within { OnOk result ((length states.now ≤ 4096) × (sum states.now ≤ 65536)) }
        ensures err { IfErr result (CountsPass states.now) }
    {
        if states.len() > MOST_PACKAGES {
            return Err(GraphFault::Limit(LimitKind::Packages, 4097));
        }
        let total = state_sum(states);
        if total > MOST_STATES {
            return Err(GraphFault::Limit(LimitKind::States, total));
        }
        Ok(Self::blank(alloc, states)?)
    }

    /// An instance in which nothing is forbidden, of numbers that pass no limit.
    pub(crate) fn blank(alloc: Global, states: &[u32]) -> Result<Self, AllocError>
        requires few { length states.now ≤ 4096 }
        requires small { sum states.now ≤ 65536 }
        requires filled { (p : ℕ) → p < length states.now → 0 < slice_index states.now p }
        ensures sizes { IfOk result (λ builder. builder.sizes ≡ states.now) }
        ensures bare { IfOk result (λ builder. IsOpen builder) }
    {
        let sizes = Vec::from_slice(alloc, states)?;
        let barred = open_rows(alloc, states)?;
        Ok(Self {
            sizes,
            total: state_sum(states) as u32,
            barred,
            pairs: Vec::new(alloc),
        })
    }

    /// How many packages there are.
    pub(crate) fn packages(&self) -> u32
        ensures count { result ≡ packages self.now }
        ensures few { result ≤ 4096 }
    {
        self.sizes.len() as u32
    }

    /// How many states the package p has.
    pub(crate) fn states(&self, p: u32) -> u32
        requires { p < packages self.now }
        ensures count { result ≡ states self.now p }
        ensures few { result ≤ 65536 }
    {
        self.sizes[p as usize]
    }

    /// Forbids the state i of p alone. It takes no memory.
    pub fn forbid_state(&mut self, p: u32, i: u32)
        requires known { p < packages self.old }
        requires state { i < states self.old p }
        ensures sizes { self.new.sizes ≡ self.old.sizes }
        ensures barred { (q j : ℕ) → is_barred self.new q j ≡ (is_barred self.old q j || is_state q j p i) }
        ensures forbidden { (a b c d : ℕ) → is_forbidden self.new a b c d ≡ is_forbidden self.old a b c d }
    {
        let row = &mut self.barred[p as usize];
        row[i as usize] = true;
    }

    /// Forbids the state i of p and the state j of q together. The one error is want of memory, and then the
    /// instance is as before.
    pub fn forbid_pair(&mut self, p: u32, i: u32, q: u32, j: u32) -> Result<(), GraphFault>
        requires first { p < packages self.old }
        requires first_state { i < states self.old p }
        requires second { q < packages self.old }
        requires second_state { j < states self.old q }
        requires apart { p ≢ q }
        ensures sizes { self.new.sizes ≡ self.old.sizes }
        ensures barred { (a b : ℕ) → is_barred self.new a b ≡ is_barred self.old a b }
        ensures ok { OnOk result ((a b c d : ℕ) → is_forbidden self.new a b c d ≡ (is_forbidden self.old a b c d || is_pair a b c d p i q j)) }
        ensures err { OnErr result (self.new ≡ self.old) }
        ensures memory { IfErr result IsMemory }
    {
        self.add_pair(p, i, q, j)?;
        Ok(())
    }

    /// Forbids the state i of p and the state j of q together.
    pub(crate) fn add_pair(&mut self, p: u32, i: u32, q: u32, j: u32) -> Result<(), AllocError>
        requires first { p < packages self.old }
        requires first_state { i < states self.old p }
        requires second { q < packages self.old }
        requires second_state { j < states self.old q }
        requires apart { p ≢ q }
        ensures sizes { self.new.sizes ≡ self.old.sizes }
        ensures barred { (a b : ℕ) → is_barred self.new a b ≡ is_barred self.old a b }
        ensures ok { OnOk result ((a b c d : ℕ) → is_forbidden self.new a b c d ≡ (is_forbidden self.old a b c d || is_pair a b c d p i q j)) }
        ensures err { OnErr result (self.new ≡ self.old) }
    {
        if p < q {
            self.list_pair(p, i, q, j)
        } else {
            self.list_pair(q, j, p, i)
        }
    }

    /// Lists the pair, the lower package first.
    fn list_pair(&mut self, p: u32, i: u32, q: u32, j: u32) -> Result<(), AllocError>
        requires below { p < q }
        requires known { q < packages self.old }
        requires first_state { i < states self.old p }
        requires second_state { j < states self.old q }
        ensures sizes { self.new.sizes ≡ self.old.sizes }
        ensures barred { (a b : ℕ) → is_barred self.new a b ≡ is_barred self.old a b }
        ensures ok { OnOk result ((a b c d : ℕ) → has_pair self.new a b c d ≡ (has_pair self.old a b c d || is_key a b c d p i q j)) }
        ensures err { OnErr result (self.new ≡ self.old) }
    {
        self.pairs.push((p, q, i, j))?;
        Ok(())
    }

    /// The instance. Refused where the sum over neighbouring pairs of the product of their states passes
    /// 2^30, and then where that of the sum of their states passes 2^25, each with the whole sum; and for
    /// want of memory.
    pub fn finish(mut self, alloc: Global) -> Result<Instance, GraphFault>
        ensures ok { IfOk result (λ instance. SameGraph self instance) }
        ensures within { OnOk result ((bits self ≤ 2 ^ 30) × (cells self ≤ 2 ^ 25)) }
        ensures err { IfErr result (SumsPass self) }
    {
        let rows = self.neighbour_rows(alloc)?;
        let sums = self.sums(rows.as_slice());
        if sums.bits > MOST_BITS {
            return Err(GraphFault::Limit(LimitKind::Bits, sums.bits));
        }
        if sums.cells > MOST_CELLS {
            return Err(GraphFault::Limit(LimitKind::Cells, sums.cells));
        }
        Ok(self.linked(alloc, rows.as_slice())?)
    }

    /// The instance, whose sums aren't looked at.
    pub(crate) fn joined(mut self, alloc: Global) -> Result<Instance, AllocError>
        ensures { IfOk result (λ instance. SameGraph self instance) }
    {
        let rows = self.neighbour_rows(alloc)?;
        self.linked(alloc, rows.as_slice())
    }

    /// For each package the packages with which a pair is listed. The pairs are put in their order.
    fn neighbour_rows(&mut self, alloc: Global) -> Result<Vec<Vec<u32>>, AllocError>
        ensures rows { IfOk result (λ rows. AreNeighbourRows self.new (rows_of rows.items)) }
        ensures same { SameGraph self.old self.new }
        ensures bits { bits self.new ≡ bits self.old }
        ensures cells { cells self.new ≡ cells self.old }
    {
        order_pairs(&mut self.pairs);
        neighbour_rows(alloc, self.sizes.len(), self.pairs.as_slice())
    }

    /// The instance with its tables, from the rows of neighbours.
    fn linked(self, alloc: Global, rows: &[Vec<u32>]) -> Result<Instance, AllocError>
        requires { AreNeighbourRows self (rows_of rows.now) }
        ensures { IfOk result (λ instance. SameGraph self instance) }
    {
        let mut links = free_links(alloc, rows, self.sizes.as_slice())?;
        forbid_pairs(&mut links, self.pairs.as_slice());
        let Self {
            sizes,
            total,
            barred,
            pairs: _pairs,
        } = self;
        Ok(Instance {
            sizes,
            total,
            barred,
            links,
        })
    }
}
