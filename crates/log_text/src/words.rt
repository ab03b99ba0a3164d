//! Words and numbers in a line.
ghost use Rattle.std.specs.Prelude.{◌≡◌, ◌<◌, ◌==◌, None, Some, length, MatchOption, IfSome};
ghost use Rattle.std.specs.List.{position};
ghost use Rattle.log_text.specs.Meant as spec;

/// The first number that is too great.
const NUMBER_LIMIT: u64 = 4_294_967_296;

/// The place of the first such byte.
fn place_of(bytes: &[u8], mark: u8) -> Option<usize>
    ensures place { result ≡ position (λ byte. byte == mark) bytes.now }
    ensures inside { IfSome result (λ place. place < length bytes.now) }
{
    bytes.iter().position(|byte| *byte == mark)
}

/// What stands before the first such byte, and what stands behind it; None where there is none.
pub(crate) fn cut_at(bytes: &[u8], mark: u8) -> Option<(&[u8], &[u8])>
    ensures { MatchOption result
        (spec.cut_at mark bytes.now ≡ None)
        (λ parts. spec.cut_at mark bytes.now ≡ Some (parts.0.now, parts.1.now)) }
{
    match place_of(bytes, mark) {
        Some(place) => Some((&bytes[..place], &bytes[place + 1..])),
        None => None,
    }
}

/// Whether there is one byte or more, of which no zero leads others.
fn is_plain(word: &[u8]) -> bool
    ensures { result ≡ spec.is_plain word.now }
{
    match word {
        [] => false,
        [_] => true,
        [first, ..] => *first != b'0',
    }
}

/// The number below 2^32 that decimal digits mean; None where others stand there too.
fn value_of(digits: &[u8]) -> Option<u32>
    ensures { result ≡ spec.value_after 0 digits.now }
{
    let mut value: u32 = 0;
    for digit in digits {
        match value_with(value, *digit) {
            Some(next) => value = next,
            None => return None,
        }
    }
    Some(value)
}

/// The number with a digit more.
fn value_with(value: u32, digit: u8) -> Option<u32>
    ensures { result ≡ spec.value_with value digit }
{
    if digit < b'0' || digit > b'9' {
        return None;
    }
    let next = 10 * u64::from(value) + u64::from(digit - b'0');
    if next < NUMBER_LIMIT {
        Some(next as u32)
    } else {
        None
    }
}

/// The number that a word tells: decimal digits that mean a number below 2^32, without leading zeros.
#[tactic(auto, unfolding(crate::specs::Meant::number_meant))]
pub(crate) fn read_number(word: &[u8]) -> Option<u32>
    ensures { result ≡ spec.number_meant word.now }
{
    if is_plain(word) { value_of(word) } else { None }
}
