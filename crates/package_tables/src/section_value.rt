//! The values of sections: when two are equal, and how they are printed.
ghost use Rattle.std.specs.Prelude.{◌≡◌, ◌++◌, ◌∷◌, IfOk, string_bytes};
ghost use Rattle.std.specs.List.{flat_map};
ghost use Rattle.package_tables.specs.Clash as spec;

use crate::kept_ranges::KeptRanges;
use compat_spec::Range;
use pkg_world::Text;
use std::alloc::{AllocError, Global};
use uuid::Uuid;

/// What a section gives a name.
pub(crate) trait SectionValue: Drop {
    ghost use Rattle.std.specs.Prelude.{Bool, List, ℕ};

    ghost same: { Self → Self → Bool };

    ghost text: { Self → List ℕ };

    /// Whether two values are equal.
    fn is_same(&self, other: &Self) -> bool
        ensures { result ≡ same self.now other.now };

    /// The value as a refusal prints it.
    fn print(&self, alloc: Global) -> Result<Text, AllocError>
        ensures { IfOk result (λ printed. printed ≡ text self.now) };
}

impl SectionValue for Uuid {
    ghost same = { spec.same_id };

    ghost text = { spec.id_text };

    fn is_same(&self, other: &Self) -> bool {
        *self == *other
    }

    fn print(&self, alloc: Global) -> Result<Text, AllocError> {
        let mut buffer = Uuid::encode_buffer();
        Text::of(alloc, self.hyphenated().encode_lower(&mut buffer))
    }
}

impl SectionValue for KeptRanges {
    ghost same = { spec.same_ranges };

    ghost text = { spec.ranges_text };

    fn is_same(&self, other: &Self) -> bool {
        same_ranges(self.items(), other.items())
    }

    fn print(&self, alloc: Global) -> Result<Text, AllocError> {
        ranges_text(alloc, self.items())
    }
}

/// Whether two lists of ranges have the same texts.
fn same_ranges(left: &[Range], right: &[Range]) -> bool
    ensures { result ≡ spec.same_ranges left.now right.now }
{
    let mut left = left;
    let mut right = right;
    loop {
        let Some((range, more)) = left.split_first() else {
            return right.split_first().is_none();
        };
        let Some((other, others)) = right.split_first() else {
            return false;
        };
        if range.text() != other.text() {
            return false;
        }
        left = more;
        right = others;
    }
}

/// The texts of ranges, joined by commas.
fn ranges_text(alloc: Global, ranges: &[Range]) -> Result<Text, AllocError>
    ensures { IfOk result (λ text. text ≡ spec.ranges_text ranges.now) }
{
    let [range, more @ ..] = ranges else {
        return Text::of(alloc, "");
    };
    let text = with_more(alloc, range.text(), more)?;
    Text::of(alloc, text.as_str())
}

fn with_more(alloc: Global, first: &str, more: &[Range]) -> Result<String, AllocError>
    ensures { IfOk result (λ text. string_bytes text ≡ first.now ++ flat_map (λ r. 44 ∷ r.text) more.now) }
{
    let mut text = String::from_str(alloc, first)?;
    for range in more {
        text.push(',')?;
        text.push_str(range.text())?;
    }
    Ok(text)
}
