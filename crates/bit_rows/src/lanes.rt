//! Eight words at a time.
ghost use Rattle.std.specs.Prelude.{◌≡◌, ◌≢◌, ◌+◌, ◌<◌, ◌≤◌, ℕ, length, slice_index, MatchBool};
ghost use Rattle.bit_rows.specs.Stored.{meet_at, differ_at, SomeFrom, NoneFrom, HasMet};
ghost use Rattle.bit_rows.specs.Lanes.{HasLanes};

use std::simd::prelude::*;

/// The eight words from i on.
fn load(words: &[u64], i: usize) -> u64x8
    requires { i + 8 ≤ length words.now }
    ensures { HasLanes result (λ k. slice_index words.now (i + k)) }
{
    u64x8::from_slice(&words[i..])
}

/// Whether a lane isn't 0.
fn is_any_set(lanes: u64x8) -> bool
    ensures { MatchBool result (SomeFrom (slice_index lanes) 0 8) (NoneFrom (slice_index lanes) 0 8) }
{
    lanes.simd_ne(u64x8::splat(0)).any()
}

/// What the eight words from i on have in common.
fn met(a: &[u64], b: &[u64], i: usize) -> u64x8
    requires first { i + 8 ≤ length a.now }
    requires second { i + 8 ≤ length b.now }
    ensures { HasLanes result (λ k. meet_at a.now b.now (i + k)) }
{
    load(a, i) & load(b, i)
}

/// The bits of the mask in which the eight words from i on differ.
fn differing(a: &[u64], b: &[u64], mask: &[u64], i: usize) -> u64x8
    requires first { i + 8 ≤ length a.now }
    requires second { i + 8 ≤ length b.now }
    requires masked { i + 8 ≤ length mask.now }
    ensures { HasLanes result (λ k. differ_at a.now b.now mask.now (i + k)) }
{
    (load(a, i) ^ load(b, i)) & load(mask, i)
}

/// Whether the eight words from i on have a bit in common.
pub(crate) fn do_meet(a: &[u64], b: &[u64], i: usize) -> bool
    requires first { i + 8 ≤ length a.now }
    requires second { i + 8 ≤ length b.now }
    ensures { MatchBool result (SomeFrom (meet_at a.now b.now) i (i + 8)) (NoneFrom (meet_at a.now b.now) i (i + 8)) }
{
    is_any_set(met(a, b, i))
}

/// Whether the eight words from i on differ in a bit of the mask.
pub(crate) fn do_differ(a: &[u64], b: &[u64], mask: &[u64], i: usize) -> bool
    requires first { i + 8 ≤ length a.now }
    requires second { i + 8 ≤ length b.now }
    requires masked { i + 8 ≤ length mask.now }
    ensures { MatchBool result (SomeFrom (differ_at a.now b.now mask.now) i (i + 8)) (NoneFrom (differ_at a.now b.now mask.now) i (i + 8)) }
{
    is_any_set(differing(a, b, mask, i))
}

/// Leaves in the eight words of the target from i on the bits that the other words have too.
pub(crate) fn meet_into(target: &mut [u64], other: &[u64], i: usize)
    requires first { i + 8 ≤ length target.old }
    requires second { i + 8 ≤ length other.now }
    ensures { HasMet target.old other.now target.new i (i + 8) }
{
    let lanes = met(target, other, i);
    lanes.copy_to_slice(&mut target[i..]);
}
