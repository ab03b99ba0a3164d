//! Laws of the answers, each a call that does nothing and says the law.
ghost use Rattle.resolve_core.specs.Laws.{ResolvedIsBest, UnsatisfiableIsNone, CertificateIsSound, GivenUpIsSpent};

use book_graph::{finished_is_best, none_is_feasible, stands_plain};
use instance_search::{empty_refutes, found_is_finished, product_suffices, spent_is_full};
use refutation_log::refutation_is_sound;

/// What a demand is resolved to is valid, and nothing of it can be raised.
pub fn resolved_is_best()
    ensures { ResolvedIsBest }
{
    found_is_finished();
    finished_is_best();
}

/// Where a demand is unsatisfiable, no selection is feasible, and the log is a certificate.
pub fn unsatisfiable_is_none()
    ensures { UnsatisfiableIsNone }
{
    stands_plain();
    empty_refutes();
    none_is_feasible();
}

/// A certificate leaves no feasible selection, whoever made it.
pub fn certificate_is_sound()
    ensures { CertificateIsSound }
{
    stands_plain();
    refutation_is_sound();
    none_is_feasible();
}

/// Where the search gives up, the log has as many nodes as the budget, and a budget that is as great as the product over
/// packages of one more than their states is never spent.
pub fn given_up_is_spent()
    ensures { GivenUpIsSpent }
{
    spent_is_full();
    product_suffices();
}
