//! The texts of a made world.
ghost use Rattle.std.specs.Prelude.{◌≡◌, IfOk, string_bytes};
ghost use Rattle.world_maker.specs.Texts as spec;

use crate::ranges::Span;
use std::alloc::{AllocError, Global};

/// A package's name.
pub(crate) fn name_text(alloc: Global, package: u64) -> Result<String, AllocError>
    ensures { IfOk result (λ text. string_bytes text ≡ spec.name «package») }
{
    let digits = digits(alloc, package)?;
    format!(in alloc; "P{digits}")
}

/// A package's identifier.
pub(crate) fn uuid_text(alloc: Global, package: u64) -> Result<String, AllocError>
    ensures { IfOk result (λ text. string_bytes text ≡ spec.uuid «package») }
{
    let digits = digits(alloc, package)?;
    format!(in alloc; "00000000-0000-4000-9000-000000000{digits}")
}

/// The text of a version.
pub(crate) fn version_text(alloc: Global, minor: u64) -> Result<String, AllocError>
    ensures { IfOk result (λ text. string_bytes text ≡ spec.version minor) }
{
    format!(in alloc; "1.{minor}.0")
}

/// The tree of a package's version.
pub(crate) fn tree_text(alloc: Global, package: u64, minor: u64) -> Result<String, AllocError>
    ensures { IfOk result (λ text. string_bytes text ≡ spec.tree «package» minor) }
{
    let digits = digits(alloc, package)?;
    format!(in alloc; "000000000000000000000000000000000000{digits}{minor}")
}

/// The text of a range.
pub(crate) fn range_text(alloc: Global, span: Span) -> Result<String, AllocError>
    ensures { IfOk result (λ text. string_bytes text ≡ spec.range_text span) }
{
    let Span { low, high } = span;
    format!(in alloc; "1.{low}-1.{high}")
}

/// The last three digits of a number.
fn digits(alloc: Global, number: u64) -> Result<String, AllocError>
    ensures { IfOk result (λ text. string_bytes text ≡ spec.three number) }
{
    let hundreds = number / 100 % 10;
    let tens = number / 10 % 10;
    let ones = number % 10;
    format!(in alloc; "{hundreds}{tens}{ones}")
}
