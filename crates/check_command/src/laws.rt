//! Laws of what is due, each a call that does nothing and says the law.
ghost use Rattle.check_command.specs.Laws.{RefutedIsNone, CertificateIsRefuted, JudgedIsDue};

use book_graph::sums_are_one;
use log_text::text_of_one;
use offer_book::laws::{feasible_alike, raised_alike, valid_alike};

/// Where a line is due on the log of a file, no selection is feasible for the offers of the files and the demand of the
/// project, whoever made the log.
pub fn refuted_is_none()
    ensures { RefutedIsNone }
{}

/// Where the file tells a log that refutes an instance which stands for the book and the demand, and no limit is passed, nothing
/// else is due than the line `refuted`.
pub fn certificate_is_refuted()
    ensures { CertificateIsRefuted }
{
    sums_are_one();
    text_of_one();
}

/// What is judged by the book that was gathered for the demand is due by the offers of all packages.
pub(crate) fn judged_is_due()
    ensures { JudgedIsDue }
{
    valid_alike();
    raised_alike();
    feasible_alike();
}
