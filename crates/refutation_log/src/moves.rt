//! Steps on domains and their trail.
ghost use Rattle.std.specs.Prelude.{◌≡◌, length, take};
ghost use Rattle.version_graph.specs.Family.{LiesBetween};
ghost use Rattle.version_graph.specs.Domain.{has};
ghost use Rattle.version_graph.specs.Noted.{Holds};
ghost use Rattle.refutation_log.specs.Found.{IsSettledAs};

use graph_pruning::{Closed, close};
use version_graph::{Domains, Instance, Trail};

/// Closes the domains, and says whether none is empty then.
pub(crate) fn settle(instance: &Instance, domains: &mut Domains, trail: &mut Trail) -> bool
    requires { Holds instance.now domains.old trail.old }
    ensures settled { IsSettledAs instance.now (has domains.new) result }
    ensures between { LiesBetween instance.now (has domains.old) (has domains.new) }
    ensures earlier { take (length trail.old.notes) trail.new.notes ≡ trail.old.notes }
    ensures keeps { Holds instance.now domains.new trail.new }
{
    match close(instance, domains, trail) {
        Closed::Stable => true,
        Closed::Empty(_) => false,
    }
}
