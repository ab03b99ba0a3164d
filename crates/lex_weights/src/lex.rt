//! Weights of more than one level.
ghost use Rattle.std.specs.Prelude.{◌≡◌, ◌^◌, pos, ◌+ℤ◌, ◌-ℤ◌};
ghost use Rattle.std.specs.Cmp.{tied_itself};
ghost use Rattle.lex_weights.specs.Levels.{clipped, is_limit, IsWithin};
ghost use Rattle.lex_weights.specs.LevelLaws.{added_comm, added_assoc, added_zero, taken_added, added_taken, clipped_twice, clipped_inside, zero_within, clipped_within, added_within, taken_within, within_more};
ghost use Rattle.lex_weights.specs.LexLaws.{rest, rest_twice, rest_inside, rest_within, none_below, lex_keeps_order, lex_clip_keeps_order, lex_same};

use crate::level::Level;
use crate::weight::Weight;

/// The weight A and then the weight B: added level by level, and compared by A first.
#[derive(Clone, Copy, Debug, PartialEq, Eq, PartialOrd, Ord)]
pub struct Lex<A, B>(pub A, pub B);

/// A weight of three levels.
pub type Lex3 = Lex<Level, Lex<Level, Level>>;

impl<B: Weight> Weight for Lex<Level, B> {
    ghost none = { record { 0 = record { 0 = pos 0 }; 1 = B.none } };

    ghost plus = { λ a b. record { 0 = record { 0 = a.0.0 +ℤ b.0.0 }; 1 = B.plus a.1 b.1 } };

    ghost minus = { λ a b. record { 0 = record { 0 = a.0.0 -ℤ b.0.0 }; 1 = B.minus a.1 b.1 } };

    ghost clip = { λ a. record { 0 = record { 0 = clipped a.0.0 }; 1 = rest B.clip B.none (clipped a.0.0) a.1 } };

    ghost is_within = { λ n a. IsWithin n a.0.0 × B.is_within n a.1 };

    fn zero() -> Self {
        Lex(Level::zero(), B::zero())
    }

    fn plus(self, other: Self) -> Self {
        Lex(self.0.plus(other.0), self.1.plus(other.1))
    }

    fn minus(self, other: Self) -> Self {
        Lex(self.0.minus(other.0), self.1.minus(other.1))
    }

    /// The clipped level, with zero after it where that level is 2^40 or -2^40. So the clip keeps the order.
    fn clip(self) -> Self {
        let level = self.0.clip();
        if level.is_limit() {
            Lex(level, B::zero())
        } else {
            Lex(level, self.1.clip())
        }
    }

    ghost plus_comm = { λ a b i. record { 0 = record { 0 = added_comm a.0.0 b.0.0 i }; 1 = B.plus_comm a.1 b.1 i } };

    ghost plus_assoc = { λ a b c i. record { 0 = record { 0 = added_assoc a.0.0 b.0.0 c.0.0 i }; 1 = B.plus_assoc a.1 b.1 c.1 i } };

    ghost plus_none = { λ a i. record { 0 = record { 0 = added_zero a.0.0 i }; 1 = B.plus_none a.1 i } };

    ghost minus_plus = { λ a b i. record { 0 = record { 0 = taken_added a.0.0 b.0.0 i }; 1 = B.minus_plus a.1 b.1 i } };

    ghost plus_minus = { λ a b i. record { 0 = record { 0 = added_taken a.0.0 b.0.0 i }; 1 = B.plus_minus a.1 b.1 i } };

    ghost plus_keeps_order = { λ a b c. lex_keeps_order B.cmp B.plus B.plus_keeps_order a.0.0 b.0.0 c.0.0 a.1 b.1 c.1 };

    ghost clip_keeps_order = { λ a b h. lex_clip_keeps_order B.cmp B.clip B.none (tied_itself B.total B.none) B.clip_keeps_order a.0.0 b.0.0 a.1 b.1 h };

    ghost clip_twice = { λ a i. record { 0 = record { 0 = clipped_twice a.0.0 i }; 1 = rest_twice B.clip B.none B.clip_twice a.0.0 a.1 i } };

    ghost clip_inside = { λ a h i. record { 0 = record { 0 = clipped_inside a.0.0 h.0 i }; 1 = rest_inside B.clip B.none a.0.0 a.1 h.0 (B.clip_inside a.1 h.1) i } };

    ghost equal_is_same = { λ a b e i. let both = lex_same B.cmp B.equal_is_same a.0.0 b.0.0 a.1 b.1 e in record { 0 = record { 0 = both.0 i }; 1 = both.1 i } };

    ghost none_within = { (zero_within, B.none_within) };

    ghost clip_within = { λ a. (clipped_within a.0.0, rest_within B.clip B.none (B.is_within (2 ^ 40)) a.1 (clipped a.0.0) (B.within_more 0 (2 ^ 40) B.none B.none_within none_below) (B.clip_within a.1)) };

    ghost plus_within = { λ m n a b h k. (added_within m n a.0.0 b.0.0 h.0 k.0, B.plus_within m n a.1 b.1 h.1 k.1) };

    ghost minus_within = { λ m n a b h k. (taken_within m n a.0.0 b.0.0 h.0 k.0, B.minus_within m n a.1 b.1 h.1 k.1) };

    ghost within_more = { λ m n a h l. (within_more m n a.0.0 h.0 l, B.within_more m n a.1 h.1 l) };
}
