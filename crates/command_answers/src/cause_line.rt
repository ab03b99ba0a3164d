//! How the cause of a refused file is printed, and the words that it is made of.
ghost use Rattle.std.specs.Prelude.{◌≡◌, ◌++◌, codes, Some, IfOk, string_bytes};
ghost use Rattle.std.specs.Fmt.{decimal};
ghost use Rattle.command_answers.specs.Lines.{cause_text as text_of_cause, uuid_text as text_of_uuid, two};

use pkg_world::{Cause, Name, Text};
use std::alloc::{AllocError, Global};
use uuid::Uuid;

/// The name of a cause, then what it carries.
pub(crate) fn cause_text(alloc: Global, cause: &Cause) -> Result<String, AllocError>
    ensures { IfOk result (λ text. string_bytes text ≡ text_of_cause cause.now) }
{
    match cause {
        Cause::BadToml => String::from_str(alloc, "BadToml"),
        Cause::Deep => String::from_str(alloc, "Deep"),
        Cause::BadDate => String::from_str(alloc, "BadDate"),
        Cause::BadShape(keys) => two_words(alloc, "BadShape", keys.as_str()),
        Cause::BadVersion(keys, place) => placed_text(alloc, "BadVersion", keys.as_str(), *place),
        Cause::BadSpec(keys, place) => placed_text(alloc, "BadSpec", keys.as_str(), *place),
        Cause::Clash(name, version, first, second) => {
            clash_text(alloc, name, version, first, second)
        }
        Cause::SameUuid(uuid) => same_uuid_text(alloc, uuid),
        Cause::Dangling(stanza, listed) => listed_text(alloc, "Dangling", stanza, listed),
        Cause::Unclear(stanza, listed) => listed_text(alloc, "Unclear", stanza, listed),
        Cause::BadLog(line) => bad_log_text(alloc, *line),
    }
}

/// Two words with a space between them.
pub(crate) fn two_words(alloc: Global, first: &str, second: &str) -> Result<String, AllocError>
    ensures { IfOk result (λ text. string_bytes text ≡ two first.now second.now) }
{
    format!(in alloc; "{first} {second}")
}

/// A number in decimal digits.
pub(crate) fn number_text(alloc: Global, number: u64) -> Result<String, AllocError>
    ensures { IfOk result (λ text. string_bytes text ≡ decimal number) }
{
    format!(in alloc; "{number}")
}

/// An identifier in lower case with hyphens. The one error is want of memory.
pub fn plain_uuid(alloc: Global, uuid: &Uuid) -> Result<String, AllocError>
    ensures { IfOk result (λ text. string_bytes text ≡ text_of_uuid (Some uuid.now)) }
{
    let mut buffer = Uuid::encode_buffer();
    String::from_str(alloc, uuid.hyphenated().encode_lower(&mut buffer))
}

fn placed_text(alloc: Global, name: &str, keys: &str, place: u64) -> Result<String, AllocError>
    ensures { IfOk result (λ text. string_bytes text ≡ two name.now (two keys.now (decimal place))) }
{
    format!(in alloc; "{name} {keys} {place}")
}

fn bad_log_text(alloc: Global, line: u64) -> Result<String, AllocError>
    ensures { IfOk result (λ text. string_bytes text ≡ two (codes "BadLog") (decimal line)) }
{
    format!(in alloc; "BadLog {line}")
}

fn clash_text(
    alloc: Global,
    name: &Name,
    version: &Text,
    first: &Text,
    second: &Text,
) -> Result<String, AllocError>
    ensures { IfOk result (λ text. string_bytes text ≡ two (codes "Clash") (two name.now (two version.now (two first.now second.now)))) }
{
    let values = two_words(alloc, first.as_str(), second.as_str())?;
    four_words(
        alloc,
        "Clash",
        name.as_str(),
        version.as_str(),
        values.as_str(),
    )
}

fn four_words(
    alloc: Global,
    first: &str,
    second: &str,
    third: &str,
    fourth: &str,
) -> Result<String, AllocError>
    ensures { IfOk result (λ text. string_bytes text ≡ two first.now (two second.now (two third.now fourth.now))) }
{
    format!(in alloc; "{first} {second} {third} {fourth}")
}

fn same_uuid_text(alloc: Global, uuid: &Uuid) -> Result<String, AllocError>
    ensures { IfOk result (λ text. string_bytes text ≡ two (codes "SameUuid") (text_of_uuid (Some uuid.now))) }
{
    let uuid = plain_uuid(alloc, uuid)?;
    two_words(alloc, "SameUuid", uuid.as_str())
}

/// A cause over two names: that of a stanza, and the name that it lists.
fn listed_text(
    alloc: Global,
    cause: &str,
    stanza: &Name,
    listed: &Name,
) -> Result<String, AllocError>
    ensures { IfOk result (λ text. string_bytes text ≡ two cause.now (two stanza.now listed.now)) }
{
    three_words(alloc, cause, stanza.as_str(), listed.as_str())
}

fn three_words(alloc: Global, first: &str, second: &str, third: &str) -> Result<String, AllocError>
    ensures { IfOk result (λ text. string_bytes text ≡ two first.now (two second.now third.now)) }
{
    format!(in alloc; "{first} {second} {third}")
}
