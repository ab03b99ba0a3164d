//! The folders of named environments inside a depot.
ghost use Rattle.std.specs.Prelude.{◌≡◌, ◌++◌, IfOk, OnOk, string_bytes};
ghost use Rattle.std.specs.Fmt.{decimal};
ghost use Rattle.project_places.specs.Active as spec;

use std::alloc::{AllocError, Global};

/// `environments/NAME`, where the first three `#` of the name are the numbers of Julia's version.
pub(crate) fn environment_text(
    alloc: Global,
    julia: &[u32; 3],
    name: &str,
) -> Result<String, AllocError>
    ensures { IfOk result (λ text. string_bytes text ≡ spec.environment_text julia.now name.now) }
{
    let name = with_numbers(alloc, julia, name)?;
    let name = name.as_str();
    format!(in alloc; "environments/{name}")
}

/// `environments/vMAJOR.MINOR`.
pub(crate) fn version_folder(alloc: Global, julia: &[u32; 3]) -> Result<String, AllocError>
    ensures { IfOk result (λ name. string_bytes name ≡ spec.version_folder julia.now) }
{
    let major = julia[0];
    let minor = julia[1];
    format!(in alloc; "environments/v{major}.{minor}")
}

/// A name whose first `#`s become these numbers.
fn with_numbers(alloc: Global, numbers: &[u32], name: &str) -> Result<String, AllocError>
    ensures { IfOk result (λ text. string_bytes text ≡ spec.with_numbers numbers.now name.now) }
{
    let mut text = String::new(alloc);
    push_numbered(&mut text, numbers, name)?;
    Ok(text)
}

/// Appends a name whose first `#`s become these numbers.
fn push_numbered(text: &mut String, numbers: &[u32], name: &str) -> Result<(), AllocError>
    ensures { OnOk result (string_bytes text.new ≡ string_bytes text.old ++ spec.with_numbers numbers.now name.now) }
{
    match numbers.split_first() {
        None => Ok(text.push_str(name)?),
        Some((number, more)) => match name.split_once('#') {
            None => Ok(text.push_str(name)?),
            Some((front, rest)) => {
                push_front(text, front, *number)?;
                push_numbered(text, more, rest)
            }
        },
    }
}

fn push_front(text: &mut String, front: &str, number: u32) -> Result<(), AllocError>
    ensures { OnOk result (string_bytes text.new ≡ string_bytes text.old ++ (front.now ++ decimal number)) }
{
    text.push_str(front)?;
    write!(text, "{number}")
}
