//! One level of a weight.
ghost use Rattle.std.specs.Prelude.{◌≡◌, ◌+ℤ◌, ◌-ℤ◌, pos, IsTrue};
ghost use Rattle.lex_weights.specs.Levels.{clipped, is_limit, IsWithin};
ghost use Rattle.lex_weights.specs.LevelLaws.{added_comm, added_assoc, added_zero, taken_added, added_taken, added_keeps_order, clipped_keeps_order, clipped_twice, clipped_inside, same_where_equal, zero_within, clipped_within, added_within, taken_within, within_more};

use crate::weight::Weight;

const LIMIT: i64 = 1 << 40;

/// A weight of one level, a whole number. It is clipped to plus or minus 2^40.
#[derive(Clone, Copy, Debug, PartialEq, Eq, PartialOrd, Ord)]
pub struct Level(pub i64);

impl Level {
    /// Whether the level is 2^40 or -2^40.
    pub(crate) fn is_limit(self) -> bool
        ensures { result ≡ is_limit self.0 }
    {
        self.0 == LIMIT || self.0 == -LIMIT
    }
}

impl Weight for Level {
    ghost none = { record { 0 = pos 0 } };

    ghost plus = { λ a b. record { 0 = a.0 +ℤ b.0 } };

    ghost minus = { λ a b. record { 0 = a.0 -ℤ b.0 } };

    ghost clip = { λ a. record { 0 = clipped a.0 } };

    ghost is_within = { λ n a. IsWithin n a.0 };

    fn zero() -> Level {
        Level(0)
    }

    fn plus(self, other: Level) -> Level {
        Level(self.0 + other.0)
    }

    fn minus(self, other: Level) -> Level {
        Level(self.0 - other.0)
    }

    fn clip(self) -> Level {
        Level(self.0.clamp(-LIMIT, LIMIT))
    }

    ghost plus_comm = { λ a b i. record { 0 = added_comm a.0 b.0 i } };

    ghost plus_assoc = { λ a b c i. record { 0 = added_assoc a.0 b.0 c.0 i } };

    ghost plus_none = { λ a i. record { 0 = added_zero a.0 i } };

    ghost minus_plus = { λ a b i. record { 0 = taken_added a.0 b.0 i } };

    ghost plus_minus = { λ a b i. record { 0 = added_taken a.0 b.0 i } };

    ghost plus_keeps_order = { λ a b c. added_keeps_order a.0 b.0 c.0 };

    ghost clip_keeps_order = { λ a b h. clipped_keeps_order a.0 b.0 h };

    ghost clip_twice = { λ a i. record { 0 = clipped_twice a.0 i } };

    ghost clip_inside = { λ a h i. record { 0 = clipped_inside a.0 h i } };

    ghost equal_is_same = { λ a b e i. record { 0 = same_where_equal a.0 b.0 e i } };

    ghost none_within = { zero_within };

    ghost clip_within = { λ a. clipped_within a.0 };

    ghost plus_within = { λ m n a b h k. added_within m n a.0 b.0 h k };

    ghost minus_within = { λ m n a b h k. taken_within m n a.0 b.0 h k };

    ghost within_more = { λ m n a h l. within_more m n a.0 h l };
}
