//! The lines of `check`.
ghost use Rattle.std.specs.Prelude.{◌≡◌, ◌++◌, ◌∷◌, [], codes, Some, IfOk, string_bytes};
ghost use Rattle.check_command.specs.Lines as spec;

use command_answers::plain_uuid;
use jl_versions::Version;
use std::alloc::{AllocError, Global};
use uuid::Uuid;

/// `good`. The one error is want of memory.
pub(crate) fn good_line(alloc: Global) -> Result<String, AllocError>
    ensures { IfOk result (λ text. string_bytes text ≡ spec.good_line) }
{
    String::from_str(alloc, "good\n")
}

/// `good`, and the line of a package that can be raised. The one error is want of memory.
pub(crate) fn raise_lines(
    alloc: Global,
    uuid: &Uuid,
    version: &Version,
) -> Result<String, AllocError>
    ensures { IfOk result (λ text. string_bytes text ≡ spec.good_text (Some (uuid.now, version.now))) }
{
    let mut text = good_line(alloc)?;
    let line = raise_line(alloc, uuid, version)?;
    text.push_str(line.as_str())?;
    Ok(text)
}

fn raise_line(alloc: Global, uuid: &Uuid, version: &Version) -> Result<String, AllocError>
    ensures { IfOk result (λ line. string_bytes line ≡ spec.raise_line uuid.now version.now) }
{
    let uuid = plain_uuid(alloc, uuid)?;
    let version = version.print(alloc)?;
    two_words(alloc, uuid.as_str(), version.as_str())
}

fn two_words(alloc: Global, uuid: &str, version: &str) -> Result<String, AllocError>
    ensures { IfOk result (λ line. string_bytes line ≡ codes "raisable " ++ (uuid.now ++ (codes " " ++ (version.now ++ 10 ∷ [])))) }
{
    format!(in alloc; "raisable {uuid} {version}\n")
}
