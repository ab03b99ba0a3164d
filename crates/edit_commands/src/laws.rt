//! Laws of what is due, each a call that does nothing and says the law.
ghost use Rattle.edit_commands.specs.Laws.{EndingIsBest, NoneIsNone, AmpleBudgetSuffices, LogsArePrintable, FoundIsDue};

use decimation_repair::choice_is_lawful;
use offer_book::laws::{
    book_offers_are_all, feasible_alike, numbers_are_reached, raised_alike, valid_alike,
};
use resolve_core::{given_up_is_spent, resolved_is_best, unsatisfiable_is_none};
use version_graph::{closure_is_largest, offered_is_known};

/// Where an ending with a line is due, the manifest alone is replaced, and says a selection that is valid for the offers of the
/// files and the demand of the project, and in which no package can be raised alone. Where one with a refusal is due, no
/// selection is feasible, and the file that is named for the proof is replaced alone, by a text that reads back as the
/// certificate.
pub fn ending_is_best()
    ensures { EndingIsBest }
{
    logs_are_printable();
}

/// Where Unsatisfiable is due and no file is replaced, no selection is feasible for the offers of the files and the demand of
/// the project, the log is a certificate, and no file is named for the proof.
pub fn none_is_none()
    ensures { NoneIsNone }
{}

/// GaveUp isn't due at a budget that is as great as the product over packages of one more than their states.
pub fn ample_budget_suffices()
    ensures { AmpleBudgetSuffices }
{}

/// The logs of a search are such as a text can tell: they have fewer than 2^32 nodes, the first alone has no state, and each
/// branch has one child or more.
pub fn logs_are_printable()
    ensures { LogsArePrintable }
{
    choice_is_lawful();
    closure_is_largest();
    offered_is_known();
}

/// What is found by the book that was gathered for the demand is due by the offers of all packages.
pub(crate) fn found_is_due()
    ensures { FoundIsDue }
{
    book_offers_are_all();
    numbers_are_reached();
    valid_alike();
    raised_alike();
    feasible_alike();
    resolved_is_best();
    unsatisfiable_is_none();
    given_up_is_spent();
}
