//! The format of a manifest.
ghost use Rattle.std.specs.Prelude.{◌≡◌, ◌==◌, ◌&&◌, drop, codes};
ghost use Rattle.std.specs.List.{list_all, starts_with};
ghost use Rattle.manifest_file.specs.Format as spec;

use std::alloc::Global;
use toml_view::{Reader, Stop, Value, other_shape};

/// Reads the format, which is 2.
#[derive(Clone, Copy, Debug, Drop)]
pub(crate) struct FormatReader;

impl Reader for FormatReader {
    type Out = ();

    ghost gives = { λ _ value. spec.format_of value };

    fn read(&self, _alloc: Global, value: &Value) -> Result<(), Stop> {
        match value.as_str() {
            Some(text) if is_format_two(text) => Ok(()),
            Some(_) => Err(other_shape()),
            None => Err(other_shape()),
        }
    }
}

/// The format `2`, or `2.` with digits.
fn is_format_two(text: &str) -> bool
    ensures { result ≡ spec.is_format_two text.now }
{
    text == "2" || has_minor(text.as_bytes())
}

fn has_minor(text: &[u8]) -> bool
    ensures { result ≡ (starts_with (λ a b. a == b) text.now (codes "2.") && spec.is_minor (drop 2 text.now)) }
{
    text.starts_with(b"2.") && is_minor(&text[2..])
}

fn is_minor(digits: &[u8]) -> bool
    ensures { result ≡ spec.is_minor digits.now }
{
    !digits.is_empty() && are_digits(digits)
}

fn are_digits(digits: &[u8]) -> bool
    ensures { result ≡ list_all spec.is_digit digits.now }
{
    digits.iter().all(|b| is_digit(*b))
}

fn is_digit(byte: u8) -> bool
    ensures { result ≡ spec.is_digit byte }
{
    b'0' <= byte && byte <= b'9'
}
