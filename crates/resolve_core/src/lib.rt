//! Resolving: from a book and a demand to a selection that is valid and can't be raised, or to a log that shows that there is
//! none; the check of such a log; and the classes of versions that make no difference.
#![tactic(auto)]

mod classing;
mod fault;
mod laws;
mod resolved;
mod resolving;
mod verifying;

pub use classing::{Class, ClassTable, class_table};
pub use fault::ResolveFault;
pub use laws::{certificate_is_sound, given_up_is_spent, resolved_is_best, unsatisfiable_is_none};
pub use resolved::Resolved;
pub use resolving::resolve;
pub use verifying::{VerifyFault, verify_log};
