//! How a verdict is printed.
ghost use Rattle.std.specs.Prelude.{◌≡◌, codes, Some, IfOk, string_bytes};
ghost use Rattle.command_answers.specs.Lines.{verdict_text as text_of_verdict, uuid_text as text_of_uuid, two};

use crate::cause_line::{plain_uuid, two_words};
use crate::status::uuid_text;
use selection_check::Verdict;
use std::alloc::{AllocError, Global};
use uuid::Uuid;

/// The name of a verdict, then the identifiers that it names; the project as `-`.
pub(crate) fn verdict_text(alloc: Global, verdict: &Verdict) -> Result<String, AllocError>
    ensures { IfOk result (λ text. string_bytes text ≡ text_of_verdict verdict.now) }
{
    match verdict {
        Verdict::Good => String::from_str(alloc, "Good"),
        Verdict::MissingRoot(uuid) => named_text(alloc, "MissingRoot", uuid),
        Verdict::NoOffer(uuid) => named_text(alloc, "NoOffer", uuid),
        Verdict::MissingDep(uuid, missing) => pair_text(alloc, "MissingDep", uuid, missing),
        Verdict::Outside(uuid, outside) => outside_text(alloc, uuid, outside),
        Verdict::PinBroken(uuid) => named_text(alloc, "PinBroken", uuid),
        Verdict::Unneeded(uuid) => named_text(alloc, "Unneeded", uuid),
    }
}

/// A word and an identifier.
fn named_text(alloc: Global, word: &str, uuid: &Uuid) -> Result<String, AllocError>
    ensures { IfOk result (λ text. string_bytes text ≡ two word.now (text_of_uuid (Some uuid.now))) }
{
    let uuid = plain_uuid(alloc, uuid)?;
    two_words(alloc, word, uuid.as_str())
}

/// A word and two identifiers.
fn pair_text(alloc: Global, word: &str, first: &Uuid, second: &Uuid) -> Result<String, AllocError>
    ensures { IfOk result (λ text. string_bytes text ≡ two word.now (two (text_of_uuid (Some first.now)) (text_of_uuid (Some second.now)))) }
{
    let first = plain_uuid(alloc, first)?;
    let named = named_text(alloc, first.as_str(), second)?;
    two_words(alloc, word, named.as_str())
}

/// The package, or the project, whose compat does not allow the other, and this.
fn outside_text(alloc: Global, uuid: &Option<Uuid>, outside: &Uuid) -> Result<String, AllocError>
    ensures { IfOk result (λ text. string_bytes text ≡ two (codes "Outside") (two (text_of_uuid uuid.now) (text_of_uuid (Some outside.now)))) }
{
    let uuid = uuid_text(alloc, uuid)?;
    let named = named_text(alloc, uuid.as_str(), outside)?;
    two_words(alloc, "Outside", named.as_str())
}
