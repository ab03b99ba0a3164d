//! What is judged of a book and a demand.
ghost use Rattle.std.specs.Prelude.{◌≡◌, IfOk};
ghost use Rattle.std.specs.Map.{keys_of};
ghost use Rattle.project_phases.specs.Phases.{seen as seen_opened};
ghost use Rattle.check_command.specs.CheckDue as spec;

use offer_book::Selection;
use pkg_world::{Duplicate, Ids, Listed, NormPath};
use project_phases::Opened;
use std::alloc::{AllocError, Global};

/// What is claimed of the selections that meet a demand.
#[derive(Drop)]
pub(crate) enum Claim {
    /// This one, which the manifest says, is valid.
    Valid(Selection),
    /// None is feasible, as the log of this file shows.
    Refuted(NormPath),
}

/// What is claimed by the file, where one is named, and else by the manifest. The one error is want of memory.
#[tactic(auto, unfolding(project_file::specs::Said::said))]
pub(crate) fn claim_of(
    alloc: Global,
    proof: &Option<NormPath>,
    opened: &Opened,
) -> Result<Claim, AllocError>
    ensures { IfOk result (λ claim. spec.seen_claim claim ≡ spec.claim_of proof.now (seen_opened opened.now)) }
{
    match proof {
        Some(path) => Ok(Claim::Refuted(path.copy(alloc)?)),
        None => {
            let selection = opened
                .catalog
                .selection(alloc, &opened.manifest, opened.project.uuid)?;
            Ok(Claim::Valid(selection))
        }
    }
}

/// The packages that are gathered beside the roots: those that the manifest selects, where that is what is judged. The one
/// error is want of memory.
pub(crate) fn extra_of(alloc: Global, claim: &Claim) -> Result<Ids, AllocError>
    ensures { IfOk result (λ ids. ids.items ≡ spec.extra_of (spec.seen_claim claim.now)) }
{
    match claim {
        Claim::Valid(selection) => ids_of(alloc, selection),
        Claim::Refuted(_) => Ok(Ids::make(alloc)),
    }
}

/// The packages that are selected.
fn ids_of(alloc: Global, selection: &Selection) -> Result<Ids, AllocError>
    ensures { IfOk result (λ ids. ids.items ≡ keys_of selection.now.items) }
{
    let mut ids = Listed::make(alloc);
    let pairs = selection.items();
    for pair in pairs {
        ids.push(pair.0)?;
    }
    Ok(ids)
}
