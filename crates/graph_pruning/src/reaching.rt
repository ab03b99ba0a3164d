//! Which packages are reached from the roots.
ghost use Rattle.std.specs.Prelude.{◌≡◌, ◌<◌, ℕ, Bool, true, false, length, replicate, slice_index, IfOk, OnOk, MatchBool};
ghost use Rattle.version_graph.specs.Graph.{Graph, packages, states, is_root, does_need, IsListOf};
ghost use Rattle.version_graph.specs.Needed.{AreNeeds};
ghost use Rattle.version_graph.specs.Family.{Family, IsFilled};
ghost use Rattle.version_graph.specs.Domain.{has, IsFor};
ghost use Rattle.graph_pruning.specs.Pruned.{AreKept, Spreads};
ghost use Rattle.graph_pruning.specs.Marked.{marked};

use crate::kept::Kept;
use std::alloc::{AllocError, Global};
use version_graph::{Domains, Instance, Needs};

/// The packages that are reached from the roots by needs of states in the domains; none where a domain is
/// empty. `roots` and `needs` are those of the instance. The one error is want of memory.
pub fn drop_unreachable(
    alloc: Global,
    instance: &Instance,
    domains: &Domains,
    roots: &[u32],
    needs: &Needs,
) -> Result<Kept, AllocError>
    requires made { IsFor instance.now domains.now }
    requires starts { IsListOf (is_root instance.now) roots.now }
    requires needed { AreNeeds instance.now needs.now }
    ensures each { IfOk result (λ kept. length kept ≡ packages instance.now) }
    ensures kept { IfOk result (λ kept. AreKept instance.now (has domains.now) (marked kept)) }
{
    let marks = no_marks(alloc, instance.packages() as usize)?;
    if !are_filled(instance, domains) {
        return Ok(Kept { marks });
    }
    let mut reached = Reached {
        marks,
        list: Vec::new(alloc),
    };
    reached.add_all(roots)?;
    reached.spread(instance, domains, needs)?;
    Ok(Kept {
        marks: reached.marks,
    })
}

/// Whether no domain is empty.
fn are_filled(instance: &Instance, domains: &Domains) -> bool
    requires { IsFor instance.now domains.now }
    ensures { MatchBool result (IsFilled instance.now (has domains.now))
        ((p : ℕ) × (p < packages instance.now) × ((i : ℕ) → has domains.now p i ≡ false)) }
{
    for p in 0..instance.packages() {
        if domains.size(p) == 0 {
            return false;
        }
    }
    true
}

/// A mark for each of so many packages, none of which is set.
fn no_marks(alloc: Global, count: usize) -> Result<Vec<bool>, AllocError>
    ensures { IfOk result (λ marks. marks.items ≡ replicate count false) }
{
    Ok(vec![in alloc; false; count]?)
}

/// The packages that are known to be reached.
#[derive(Drop)]
struct Reached {
    /// For each package whether it is reached.
    marks: Vec<bool>,
    /// The packages that are reached, as they were found.
    list: Vec<u32>,
}

impl Reached {
    ghost use Rattle.graph_pruning.specs.Reaching.{IsReaching, Grows, AreNeedsMarked};

    /// Notes that the package is reached.
    fn add(&mut self, q: u32) -> Result<(), AllocError>
        requires { q < length self.old.marks.items }
        ensures grows { OnOk result (Grows self.old self.new) }
        ensures here { OnOk result (marked self.new.marks.items q ≡ true) }
        ensures keeps { OnOk result ((g : Graph) (f : Family) → IsReaching g f self.old →
            ((set : ℕ → Bool) → Spreads g f set → set q ≡ true) → IsReaching g f self.new) }
    {
        if self.marks[q as usize] {
            return Ok(());
        }
        self.list.push(q)?;
        self.marks[q as usize] = true;
        Ok(())
    }

    /// The package in that place of the list.
    fn at(&self, place: usize) -> u32
        requires { place < length self.now.list.items }
        ensures { result ≡ slice_index self.now.list.items place }
    {
        self.list[place]
    }

    /// Notes that these packages are reached.
    fn add_all(&mut self, numbers: &[u32]) -> Result<(), AllocError>
        requires { (k : ℕ) → k < length numbers.now → slice_index numbers.now k < length self.old.marks.items }
        ensures grows { OnOk result (Grows self.old self.new) }
        ensures here { OnOk result ((k : ℕ) → k < length numbers.now → marked self.new.marks.items (slice_index numbers.now k) ≡ true) }
        ensures keeps { OnOk result ((g : Graph) (f : Family) → IsReaching g f self.old →
            ((set : ℕ → Bool) → Spreads g f set → (k : ℕ) → k < length numbers.now → set (slice_index numbers.now k) ≡ true) → IsReaching g f self.new) }
    {
        for number in numbers {
            self.add(*number)?;
        }
        Ok(())
    }

    /// Notes what the states of the package's domain need.
    fn add_needs(
        &mut self,
        instance: &Instance,
        domains: &Domains,
        needs: &Needs,
        p: u32,
    ) -> Result<(), AllocError>
        requires made { IsFor instance.now domains.now }
        requires needed { AreNeeds instance.now needs.now }
        requires known { p < packages instance.now }
        requires here { marked self.old.marks.items p ≡ true }
        requires reaching { IsReaching instance.now (has domains.now) self.old }
        ensures grows { OnOk result (Grows self.old self.new) }
        ensures reaching { OnOk result (IsReaching instance.now (has domains.now) self.new) }
        ensures done { OnOk result ((i q : ℕ) → has domains.now p i ≡ true → does_need instance.now p i q ≡ true → marked self.new.marks.items q ≡ true) }
    {
        for i in 0..instance.states(p) {
            self.add_state(instance, domains, needs, p, i)?;
        }
        Ok(())
    }

    /// Notes what the state i of the package needs, if it is in the domain.
    fn add_state(
        &mut self,
        instance: &Instance,
        domains: &Domains,
        needs: &Needs,
        p: u32,
        i: u32,
    ) -> Result<(), AllocError>
        requires made { IsFor instance.now domains.now }
        requires needed { AreNeeds instance.now needs.now }
        requires known { p < packages instance.now }
        requires state { i < states instance.now p }
        requires here { marked self.old.marks.items p ≡ true }
        requires reaching { IsReaching instance.now (has domains.now) self.old }
        ensures grows { OnOk result (Grows self.old self.new) }
        ensures reaching { OnOk result (IsReaching instance.now (has domains.now) self.new) }
        ensures done { OnOk result ((q : ℕ) → has domains.now p i ≡ true → does_need instance.now p i q ≡ true → marked self.new.marks.items q ≡ true) }
    {
        if !domains.has(p, i) {
            return Ok(());
        }
        self.add_all(needs.of(p, i))?;
        Ok(())
    }

    /// Notes what is reached from the packages that are.
    fn spread(
        &mut self,
        instance: &Instance,
        domains: &Domains,
        needs: &Needs,
    ) -> Result<(), AllocError>
        requires made { IsFor instance.now domains.now }
        requires needed { AreNeeds instance.now needs.now }
        requires reaching { IsReaching instance.now (has domains.now) self.old }
        ensures grows { OnOk result (Grows self.old self.new) }
        ensures reaching { OnOk result (IsReaching instance.now (has domains.now) self.new) }
        ensures done { OnOk result (AreNeedsMarked instance.now (has domains.now) self.new (length self.new.list.items)) }
    {
        for next in 0..usize::MAX {
            if next >= self.list.len() {
                return Ok(());
            }
            let p = self.at(next);
            self.add_needs(instance, domains, needs, p)?;
        }
        // no list is longer than its length can count
        let _count = self.list.len();
        Ok(())
    }
}
