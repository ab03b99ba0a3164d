//! The ranges of a registry, and reading one byte by byte.

ghost use Rattle.std.specs.Prelude.{◌≡◌, IfOk, IfErr, MatchResult, Some, Ok};
ghost use Rattle.jl_versions.specs.Triple.{triple_of};
ghost use Rattle.compat_spec.specs.Refusals.{Refuses};
ghost use Rattle.compat_spec.specs.Meant.{range_meant, RefusesAt};
ghost use Rattle.compat_spec.specs.Ranges.{range_of, IsRange, bounds};

use crate::fault::SpecFault;
use crate::numbers::{Begun, Numbers, Reading};
use jl_versions::Version;
use std::alloc::{AllocError, Global};
use std::marker::Model;

/// A bound of a range.
#[derive(Clone, Copy, Debug, PartialEq, Eq, Drop)]
pub enum Bound {
    /// `*`, which bounds nothing.
    Any,
    /// One to three numbers.
    Of(Numbers),
}

/// Where the reading of a bound stands.
#[derive(Clone, Copy, Drop)]
enum Piece {
    /// Nothing but spaces so far.
    Open,
    /// Within numbers.
    Within(Reading),
    /// After a whole bound: only spaces may follow.
    Closed(Bound),
}

/// Which bound is being read.
#[derive(Clone, Copy, Drop)]
enum Side {
    Lower,
    /// The upper one, behind this lower one.
    Upper(Bound),
}

/// Where the reading of a range stands.
#[derive(Clone, Copy, Drop)]
struct Stage {
    side: Side,
    piece: Piece,
}

impl Piece {
    ghost use Rattle.compat_spec.specs.RangeMachine.{piece_step, piece_space, open_step, piece_end};

    /// Reading one byte further, or None where no bound goes on so.
    #[tactic(auto, unfolding(crate::specs::RangeMachine::piece_step))]
    fn step(self, byte: u8) -> Option<Piece>
        ensures { result ≡ piece_step self byte }
    {
        if byte == b' ' {
            return self.space();
        }
        match self {
            Piece::Open => Piece::begin(byte),
            Piece::Within(reading) => {
                let reading = reading.step(byte)?;
                Some(Piece::Within(reading))
            }
            Piece::Closed(_) => None,
        }
    }

    /// Reading one space further.
    fn space(self) -> Option<Piece>
        ensures { result ≡ piece_space self }
    {
        match self {
            Piece::Open | Piece::Closed(_) => Some(self),
            Piece::Within(reading) => {
                let numbers = reading.finish()?;
                Some(Piece::Closed(Bound::Of(numbers)))
            }
        }
    }

    /// The first byte of a bound.
    fn begin(byte: u8) -> Option<Piece>
        ensures { result ≡ open_step byte }
    {
        match byte {
            b'*' => Some(Piece::Closed(Bound::Any)),
            b'v' => Some(Piece::Within(Reading::Awaiting(Begun::Nothing))),
            _ => {
                let reading = Reading::Awaiting(Begun::Nothing).step(byte)?;
                Some(Piece::Within(reading))
            }
        }
    }

    /// The bound that has been read, where it may end here.
    #[tactic(auto, unfolding(crate::specs::RangeMachine::piece_end))]
    fn finish(self) -> Option<Bound>
        ensures { result ≡ piece_end self }
    {
        match self {
            Piece::Open => None,
            Piece::Within(reading) => {
                let numbers = reading.finish()?;
                Some(Bound::Of(numbers))
            }
            Piece::Closed(bound) => Some(bound),
        }
    }
}

impl Side {
    ghost use Rattle.compat_spec.specs.RangeMachine.{hyphen_step};

    /// The stage behind a hyphen that follows this bound.
    fn hyphen(self, bound: Bound) -> Option<Stage>
        ensures { result ≡ hyphen_step self bound }
    {
        match self {
            Side::Lower => Some(Stage {
                side: Side::Upper(bound),
                piece: Piece::Open,
            }),
            Side::Upper(_) => None,
        }
    }
}

impl Stage {
    ghost use Rattle.compat_spec.specs.RangeMachine.{range_step, range_end};
    ghost use Rattle.compat_spec.specs.RangeMachine.{MatchesBounds};

    /// Reading one byte further, or None where no range goes on so.
    #[tactic(auto, unfolding(crate::specs::RangeMachine::range_step))]
    fn step(self, byte: u8) -> Option<Stage>
        ensures { result ≡ range_step self byte }
    {
        if byte == b'-' {
            let bound = self.piece.finish()?;
            return self.side.hyphen(bound);
        }
        let piece = self.piece.step(byte)?;
        Some(Stage {
            side: self.side,
            piece,
        })
    }

    /// The lower and the upper bound, where the range may end here.
    #[tactic(auto, unfolding(crate::specs::RangeMachine::range_end))]
    fn finish(self) -> Option<(Bound, Bound)>
        ensures { MatchesBounds result (range_end self) }
    {
        let bound = self.piece.finish()?;
        match self.side {
            Side::Lower => Some((bound, bound)),
            Side::Upper(low) => Some((low, bound)),
        }
    }
}

impl Bound {
    ghost use Rattle.compat_spec.specs.Meaning.{cut_below, cut_above};
    ghost use Rattle.compat_spec.specs.RangeMeaning.{bound_numbers};

    /// Whether the version, cut to the count of this bound, is below it.
    fn is_above(self, v: &Version) -> bool
        ensures { result ≡ cut_below (triple_of v.now) (bound_numbers self) }
    {
        match self {
            Bound::Any => false,
            Bound::Of(numbers) => numbers.is_above(v),
        }
    }

    /// Whether the version, cut to the count of this bound, is above it.
    fn is_below(self, v: &Version) -> bool
        ensures { result ≡ cut_above (triple_of v.now) (bound_numbers self) }
    {
        match self {
            Bound::Any => false,
            Bound::Of(numbers) => numbers.is_below(v),
        }
    }
}

/// A range of a registry, seen as the text that it was read from and its two bounds.
#[derive(Drop)]
pub struct Range {
    text: String,
    lower: Bound,
    upper: Bound,
}

impl Model for Range {
    ghost use Rattle.std.specs.Prelude.{string_bytes};
    ghost use Rattle.compat_spec.specs.Ranges.{Ranged};

    ghost Value = { Ranged };

    ghost view = { λ range. record { text = string_bytes range.text; bounds = record { lower = range.lower; upper = range.upper } } };
}

/// The bounds of the range that a text is, or its first bad place.
fn bounds_of(text: &str) -> Result<(Bound, Bound), SpecFault>
    ensures ok { IfOk result (λ found. range_of text.now ≡ Some (bounds found.0 found.1)) }
    ensures bad { IfErr result (Refuses IsRange text.now) }
    ensures meant { MatchResult result (λ found. range_meant text.now ≡ Ok (bounds found.0 found.1)) (RefusesAt (range_meant text.now)) }
{
    let mut stage = Stage {
        side: Side::Lower,
        piece: Piece::Open,
    };
    for (place, byte) in text.as_bytes().iter().enumerate() {
        match stage.step(*byte) {
            Some(after) => stage = after,
            None => return Err(SpecFault::BadSpec(place as u64)),
        }
    }
    match stage.finish() {
        Some(found) => Ok(found),
        None => Err(SpecFault::BadSpec(text.len() as u64)),
    }
}

impl Range {
    ghost use Rattle.compat_spec.specs.RangeMeaning.{range_holds};

    /// The range that a text is: a bound, or two with a hyphen between them, each a star or numbers (the
    /// registries' Compat.toml; where spaces may stand is an own rule). BadSpec comes exactly where the
    /// text is none, with the length in bytes of its longest prefix that begins some range. Memory comes
    /// where memory ran out.
    pub fn read(alloc: Global, text: &str) -> Result<Range, SpecFault>
        ensures kept { IfOk result (λ range. range.text ≡ text.now) }
        ensures ok { IfOk result (λ range. range_of text.now ≡ Some range.bounds) }
        ensures bad { IfErr result (Refuses IsRange text.now) }
        // The same as a function of the text.
        ensures meant { MatchResult result (λ range. range_meant text.now ≡ Ok range.bounds) (RefusesAt (range_meant text.now)) }
    {
        let (lower, upper) = bounds_of(text)?;
        let text = String::from_str(alloc, text)?;
        Ok(Range { text, lower, upper })
    }

    /// The text that the range was read from. Takes no memory.
    pub fn text(&self) -> &str
        ensures { result.now ≡ self.now.text }
    {
        self.text.as_str()
    }

    /// Whether the range holds the version, by its three numbers. Takes no memory.
    pub fn holds(&self, v: &Version) -> bool
        ensures { result ≡ range_holds self.now (triple_of v.now) }
    {
        !self.lower.is_above(v) && !self.upper.is_below(v)
    }

    /// An equal range. Want of memory is the one error.
    pub fn copy(&self, alloc: Global) -> Result<Range, AllocError>
        ensures { IfOk result (λ range. range ≡ self.now) }
    {
        let text = String::from_str(alloc, self.text.as_str())?;
        Ok(Range {
            text,
            lower: self.lower,
            upper: self.upper,
        })
    }
}
