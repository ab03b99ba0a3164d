//! What every weight can do, and the laws that it keeps.
ghost use Rattle.std.specs.Prelude.{◌≡◌, ◌+◌, ◌-◌, ◌^◌, ◌≤◌, ℕ, false};
ghost use Rattle.std.specs.Ordering.{is_gt};
ghost use Rattle.std.specs.declared.cmp.Ordering.TheVariants.{Equal};

/// A weight: a commutative group, in which `minus` takes off what `plus` adds and the other way round, with an
/// order that addition keeps, and a clip that keeps the order too.
/// A weight has levels, each a whole number. It is within n where each of its levels lies within plus or
/// minus n. No call takes memory.
pub trait Weight: Copy + Ord {
    ghost none: { Self };

    ghost plus: { Self → Self → Self };

    ghost minus: { Self → Self → Self };

    ghost clip: { Self → Self };

    ghost is_within: { ℕ → Self → Type 0 };

    /// The weight that changes nothing.
    fn zero() -> Self
        ensures { result ≡ none };

    /// The sum, level by level. It has to be within 2^53.
    fn plus(self, other: Self) -> Self
        requires { is_within (2 ^ 53) (plus self other) }
        ensures { result ≡ plus self other };

    /// The difference, level by level. It has to be within 2^53.
    fn minus(self, other: Self) -> Self
        requires { is_within (2 ^ 53) (minus self other) }
        ensures { result ≡ minus self other };

    /// The weight brought within 2^40, so that no order is turned round.
    fn clip(self) -> Self
        ensures { result ≡ clip self };

    ghost plus_comm: { (a b : Self) → plus a b ≡ plus b a };

    ghost plus_assoc: { (a b c : Self) → plus (plus a b) c ≡ plus a (plus b c) };

    ghost plus_none: { (a : Self) → plus a none ≡ a };

    ghost minus_plus: { (a b : Self) → minus (plus a b) b ≡ a };

    ghost plus_minus: { (a b : Self) → plus (minus a b) b ≡ a };

    ghost plus_keeps_order: { (a b c : Self) → Self.cmp (plus a c) (plus b c) ≡ Self.cmp a b };

    ghost clip_keeps_order: { (a b : Self) → is_gt (Self.cmp a b) ≡ false → is_gt (Self.cmp (clip a) (clip b)) ≡ false };

    ghost clip_twice: { (a : Self) → clip (clip a) ≡ clip a };

    ghost clip_inside: { (a : Self) → is_within (2 ^ 40 - 1) a → clip a ≡ a };

    ghost equal_is_same: { (a b : Self) → Self.cmp a b ≡ Equal → a ≡ b };

    ghost none_within: { is_within 0 none };

    ghost clip_within: { (a : Self) → is_within (2 ^ 40) (clip a) };

    ghost plus_within: { (m n : ℕ) (a b : Self) → is_within m a → is_within n b → is_within (m + n) (plus a b) };

    ghost minus_within: { (m n : ℕ) (a b : Self) → is_within m a → is_within n b → is_within (m + n) (minus a b) };

    ghost within_more: { (m n : ℕ) (a : Self) → is_within m a → m ≤ n → is_within n a };
}
