//! The pruning of an instance: closing, reaching and comparing, one after another.
ghost use Rattle.std.specs.Prelude.{◌≡◌, ℕ, true, length, take, IfOk, MatchBool};
ghost use Rattle.version_graph.specs.Graph.{is_offered, IsPlain};
ghost use Rattle.version_graph.specs.Family.{Family, IsFilled, IsClosureOf, HasEmpty};
ghost use Rattle.version_graph.specs.Domain.{has, IsFor};
ghost use Rattle.version_graph.specs.Noted.{Holds};
ghost use Rattle.graph_pruning.specs.Marked.{pruning_of, IsPruned};
ghost use Rattle.graph_pruning.specs.Reduced.{IsReduction};

use crate::closing::{Closed, close};
use crate::cutting::{cut_unkept, empty_all};
use crate::equality::classes;
use crate::kept::{Classes, Kept};
use crate::reaching::drop_unreachable;
use crate::reducing::{Reduced, reduce};
use std::alloc::{AllocError, Global};
use version_graph::{Domains, Instance, Trail};

/// What pruning keeps of an instance.
#[derive(Drop)]
pub struct Pruned {
    /// The packages that are kept.
    pub kept: Kept,
    /// The states that stand for others.
    pub classes: Classes,
    /// Whether no closed domain is empty. Where one is, there is no solution, and no package is kept.
    pub is_open: bool,
}

impl Pruned {
    /// The pruned instance, where no closed domain is empty; the domains are the pruned ones. The one error is
    /// want of memory.
    pub fn reduced(
        &self,
        alloc: Global,
        instance: &Instance,
        domains: &Domains,
    ) -> Result<Reduced, AllocError>
        requires plain { IsPlain instance.now }
        requires made { IsFor instance.now domains.now }
        requires pruned { IsPruned instance.now (has domains.now) self.now.kept self.now.classes self.now.is_open }
        requires filled { self.now.is_open ≡ true }
        ensures { IfOk result (λ reduced. (closed : Family) × IsReduction instance.now (pruning_of closed self.now.kept self.now.classes) reduced.instance reduced.back) }
    {
        // what is true of every instance
        let _packages = instance.packages();
        let reduced = reduce(alloc, instance, domains, &self.kept, &self.classes)?;
        Ok(reduced)
    }
}

/// The pruning of the instance. The full domains are cut to the pruned ones: the closed ones, with each package
/// that isn't kept cut to its last state. The one error is want of memory.
pub fn prune(
    alloc: Global,
    instance: &Instance,
    domains: &mut Domains,
    trail: &mut Trail,
) -> Result<Pruned, AllocError>
    requires held { Holds instance.now domains.old trail.old }
    requires full { (p i : ℕ) → has domains.old p i ≡ is_offered instance.now p i }
    ensures pruned { IfOk result (λ pruned. IsPruned instance.now (has domains.new) pruned.kept pruned.classes pruned.is_open) }
    ensures earlier { take (length trail.old.notes) trail.new.notes ≡ trail.old.notes }
    ensures keeps { Holds instance.now domains.new trail.new }
{
    let is_open = close_whole(instance, domains, trail);
    let roots = instance.roots(alloc)?;
    let needs = instance.needs(alloc)?;
    let kept = drop_unreachable(alloc, instance, domains, roots.items(), &needs)?;
    cut_unkept(instance, domains, trail, &kept);
    let found = classes(alloc, instance, domains)?;
    Ok(Pruned {
        kept,
        classes: found,
        is_open,
    })
}

/// Cuts the domains to their closure, also where that is empty. True where no domain is empty then.
fn close_whole(instance: &Instance, domains: &mut Domains, trail: &mut Trail) -> bool
    requires { Holds instance.now domains.old trail.old }
    ensures closure { IsClosureOf instance.now (has domains.old) (has domains.new) }
    ensures answer { MatchBool result (IsFilled instance.now (has domains.new)) (HasEmpty instance.now (has domains.old)) }
    ensures earlier { take (length trail.old.notes) trail.new.notes ≡ trail.old.notes }
    ensures keeps { Holds instance.now domains.new trail.new }
{
    match close(instance, domains, trail) {
        Closed::Stable => true,
        Closed::Empty(_) => {
            empty_all(instance, domains, trail);
            false
        }
    }
}
