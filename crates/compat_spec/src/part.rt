//! The parts of a specifier, and reading one byte by byte.

ghost use Rattle.std.specs.Prelude.{◌≡◌};
ghost use Rattle.compat_spec.specs.PartMachine.{part_step, part_end, made_by, stage_after, first_step, operand_step, space_step};
ghost use Rattle.compat_spec.specs.Meaning.{part_holds};
ghost use Rattle.jl_versions.specs.Triple.{triple_of};

use crate::numbers::{Begun, Numbers, Reading};
use jl_versions::Version;

/// One part of a specifier, as it is written.
#[derive(Clone, Copy, Debug, PartialEq, Eq, Drop)]
pub enum Part {
    /// `^a`, or `a` without an operator.
    Caret(Numbers),
    /// `~a`.
    Tilde(Numbers),
    /// `=a`.
    Equal(Numbers),
    /// `>=a` or `≥a`.
    AtLeast(Numbers),
    /// `<a`.
    Below(Numbers),
    /// `a - b`.
    Between(Numbers, Numbers),
    /// `*`.
    Every,
}

/// What stands before the numbers that are being read.
#[derive(Clone, Copy, Drop)]
pub(crate) enum Lead {
    /// Nothing: a hyphen may follow.
    Bare,
    Caret,
    Tilde,
    Equal,
    AtLeast,
    Below,
    /// The lower end of a hyphen.
    Upper(Numbers),
}

/// Where the reading of a part stands.
#[derive(Clone, Copy, Drop)]
pub(crate) enum Stage {
    /// Nothing but spaces so far.
    Before,
    /// After `>`.
    Greater,
    /// After the first byte of `≥`.
    Wide,
    /// After the second byte of `≥`.
    Wider,
    /// After an operator, or a hyphen with its spaces: numbers have to follow.
    Signed(Lead),
    /// Within numbers.
    Within(Lead, Reading),
    /// After numbers without an operator and a space: a hyphen may follow.
    Spaced(Numbers),
    /// After a hyphen: a space has to follow.
    Hyphen(Numbers),
    /// After a whole part: only spaces may follow.
    Done(Part),
}

impl Lead {
    /// The part that these numbers make behind this lead.
    fn part(self, numbers: Numbers) -> Part
        ensures { result ≡ made_by self numbers }
    {
        match self {
            Lead::Bare | Lead::Caret => Part::Caret(numbers),
            Lead::Tilde => Part::Tilde(numbers),
            Lead::Equal => Part::Equal(numbers),
            Lead::AtLeast => Part::AtLeast(numbers),
            Lead::Below => Part::Below(numbers),
            Lead::Upper(low) => Part::Between(low, numbers),
        }
    }

    /// The stage at the space behind the numbers.
    fn stage_after(self, numbers: Numbers) -> Stage
        ensures { result ≡ stage_after self numbers }
    {
        match self {
            Lead::Bare => Stage::Spaced(numbers),
            _ => Stage::Done(self.part(numbers)),
        }
    }

    /// A byte with which numbers begin, or their `v`.
    fn begin(self, byte: u8) -> Option<Stage>
        ensures { result ≡ operand_step self byte }
    {
        if byte == b'v' {
            return Some(Stage::Within(self, Reading::Awaiting(Begun::Nothing)));
        }
        let reading = Reading::Awaiting(Begun::Nothing).step(byte)?;
        Some(Stage::Within(self, reading))
    }
}

/// The first byte of a part that is no space.
fn first(byte: u8) -> Option<Stage>
    ensures { result ≡ first_step byte }
{
    match byte {
        b'^' => Some(Stage::Signed(Lead::Caret)),
        b'~' => Some(Stage::Signed(Lead::Tilde)),
        b'=' => Some(Stage::Signed(Lead::Equal)),
        b'>' => Some(Stage::Greater),
        0xE2 => Some(Stage::Wide),
        b'<' => Some(Stage::Signed(Lead::Below)),
        b'*' => Some(Stage::Done(Part::Every)),
        _ => Lead::Bare.begin(byte),
    }
}

impl Stage {
    /// Reading one byte further, or None where no part goes on so.
    #[tactic(auto, unfolding(crate::specs::PartMachine::part_step))]
    pub(crate) fn step(self, byte: u8) -> Option<Stage>
        ensures { result ≡ part_step self byte }
    {
        if byte == b' ' {
            return self.space();
        }
        match self {
            Stage::Before => first(byte),
            Stage::Greater if byte == b'=' => Some(Stage::Signed(Lead::AtLeast)),
            Stage::Wide if byte == 0x89 => Some(Stage::Wider),
            Stage::Wider if byte == 0xA5 => Some(Stage::Signed(Lead::AtLeast)),
            Stage::Signed(lead) => lead.begin(byte),
            Stage::Within(lead, reading) => {
                let reading = reading.step(byte)?;
                Some(Stage::Within(lead, reading))
            }
            Stage::Spaced(numbers) if byte == b'-' => Some(Stage::Hyphen(numbers)),
            _ => None,
        }
    }

    /// Reading one space further.
    fn space(self) -> Option<Stage>
        ensures { result ≡ space_step self }
    {
        match self {
            Stage::Before | Stage::Signed(_) | Stage::Spaced(_) | Stage::Done(_) => Some(self),
            Stage::Within(lead, reading) => {
                let numbers = reading.finish()?;
                Some(lead.stage_after(numbers))
            }
            Stage::Hyphen(low) => Some(Stage::Signed(Lead::Upper(low))),
            Stage::Greater | Stage::Wide | Stage::Wider => None,
        }
    }

    /// The part that has been read, where it may end here.
    #[tactic(auto, unfolding(crate::specs::PartMachine::part_end))]
    pub(crate) fn finish(self) -> Option<Part>
        ensures { result ≡ part_end self }
    {
        match self {
            Stage::Within(lead, reading) => {
                let numbers = reading.finish()?;
                Some(lead.part(numbers))
            }
            Stage::Spaced(numbers) => Some(Part::Caret(numbers)),
            Stage::Done(part) => Some(part),
            _ => None,
        }
    }
}

impl Part {
    /// Whether the version lies in the part's interval. Takes no memory.
    pub fn holds(self, v: &Version) -> bool
        ensures { result ≡ part_holds self (triple_of v.now) }
    {
        match self {
            Part::Caret(numbers) => numbers.up_to(numbers.caret_top(), v),
            Part::Tilde(numbers) => numbers.up_to(numbers.tilde_top(), v),
            Part::Equal(numbers) => numbers.up_to(numbers.whole(), v),
            Part::AtLeast(numbers) => !numbers.is_above(v),
            Part::Below(numbers) => numbers.is_above(v),
            Part::Between(low, high) => low.up_to(high, v),
            Part::Every => true,
        }
    }
}
