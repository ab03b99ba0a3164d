//! The numbers among words: the budget of nodes that a search has, and the number of a made world.
ghost use Rattle.std.specs.Prelude.{◌≡◌};
ghost use Rattle.std.specs.Char.{is_ascii_digit};
ghost use Rattle.std.specs.List.{list_all};
ghost use Rattle.command_words.specs.Numbers as spec;

/// The budget of words that give none.
pub(crate) const USUAL_BUDGET: u32 = 131_072;

/// The greatest budget.
const MOST_NODES: u64 = 16_777_216;

/// The budget that a text gives; None where it isn't digits alone, or their number isn't from 1 to 16,777,216.
pub(crate) fn budget_of(text: &str) -> Option<u32>
    ensures { result ≡ spec.budget_of text.now }
{
    match number_of(text) {
        Some(nodes) => within(nodes),
        None => None,
    }
}

fn within(nodes: u64) -> Option<u32>
    ensures { result ≡ spec.budget_within nodes }
{
    if nodes <= MOST_NODES && nodes >= 1 {
        Some(nodes as u32)
    } else {
        None
    }
}

/// The number that a text gives; None where it isn't digits alone, or their number isn't below 2^64.
pub(crate) fn number_of(text: &str) -> Option<u64>
    ensures { result ≡ spec.number_of text.now }
{
    if !is_digits(text) {
        return None;
    }
    match text.parse::<u64>() {
        Ok(number) => Some(number),
        Err(_) => None,
    }
}

fn is_digits(text: &str) -> bool
    ensures { result ≡ spec.is_digits text.now }
{
    !text.is_empty() && all_digits(text)
}

fn all_digits(text: &str) -> bool
    ensures { result ≡ list_all is_ascii_digit text.now }
{
    text.as_bytes().iter().all(|byte| byte.is_ascii_digit())
}
