//! Words of 64 bits: what is asked of all of them, eight at a time and then those that are left over.
ghost use Rattle.std.specs.Prelude.{◌≡◌, ◌+◌, ◌*◌, ◌<◌, ◌≤◌, ◌^◌, ◌&&◌, ℕ, true, false, length, slice_index, replicate, count_by, IfOk, MatchBool};
ghost use Rattle.std.specs.List.{range_with_len};
ghost use Rattle.bit_rows.specs.Stored.{is_set, words_of, ShareBit, ShareNone, DifferInBit, DifferInNone, HasBit};

use crate::lanes::{do_differ, do_meet, meet_into};
use std::alloc::{AllocError, Global};

/// How many words a row of that width takes.
pub(crate) fn word_count(width: u32) -> usize
    ensures { result ≡ words_of width }
{
    (width as usize + 63) / 64
}

/// So many of the words, from one on.
pub(crate) fn part(words: &[u64], start: usize, count: usize) -> &[u64]
    requires { start + count ≤ length words.now }
    ensures long { length result.now ≡ count }
    ensures each { (k : ℕ) → k < count → slice_index result.now k ≡ slice_index words.now (start + k) }
{
    &words[start..start + count]
}

/// So many words without a bit.
pub(crate) fn empty_words(alloc: Global, count: usize) -> Result<Vec<u64>, AllocError>
    ensures { IfOk result (λ words. words.items ≡ replicate count 0) }
{
    vec![in alloc; 0; count]
}

/// Whether the words have a bit in common.
pub(crate) fn any_in_common(a: &[u64], b: &[u64]) -> bool
    requires { length a.now ≡ length b.now }
    ensures { MatchBool result (ShareBit a.now b.now) (ShareNone a.now b.now) }
{
    let whole = a.len() / 8;
    for n in 0..whole {
        if do_meet(a, b, 8 * n) {
            return true;
        }
    }
    for k in 8 * whole..a.len() {
        if a[k] & b[k] != 0 {
            return true;
        }
    }
    false
}

/// Whether the words differ in a bit of the mask.
pub(crate) fn any_difference(a: &[u64], b: &[u64], mask: &[u64]) -> bool
    requires others { length a.now ≡ length b.now }
    requires masks { length a.now ≡ length mask.now }
    ensures { MatchBool result (DifferInBit a.now b.now mask.now) (DifferInNone a.now b.now mask.now) }
{
    let whole = a.len() / 8;
    for n in 0..whole {
        if do_differ(a, b, mask, 8 * n) {
            return true;
        }
    }
    for k in 8 * whole..a.len() {
        if (a[k] ^ b[k]) & mask[k] != 0 {
            return true;
        }
    }
    false
}

/// Leaves in the target the bits that the other words have too.
pub(crate) fn keep_common(target: &mut [u64], other: &[u64])
    requires { length target.old ≡ length other.now }
    ensures long { length target.new ≡ length target.old }
    ensures bits { (k : ℕ) → is_set target.new k ≡ (is_set target.old k && is_set other.now k) }
{
    let whole = target.len() / 8;
    for n in 0..whole {
        meet_into(target, other, 8 * n);
    }
    for k in 8 * whole..target.len() {
        target[k] &= other[k];
    }
}

/// How many bits the words have.
pub(crate) fn bit_count(words: &[u64]) -> u64
    requires { length words.now ≤ 2 ^ 26 }
    ensures { result ≡ count_by (is_set words.now) (range_with_len 0 (64 * length words.now)) }
{
    let mut total: u64 = 0;
    for word in words {
        total += u64::from(word.count_ones());
    }
    total
}

/// Whether that bit of that word is set.
pub(crate) fn has_bit(words: &[u64], word: usize, bit: u32) -> bool
    requires known { word < length words.now }
    requires below { bit < 64 }
    ensures { result ≡ is_set words.now (64 * word + bit) }
{
    (words[word] >> bit) & 1 == 1
}

/// Sets that bit of that word.
pub(crate) fn set_bit(words: &mut [u64], word: usize, bit: u32)
    requires known { word < length words.old }
    requires below { bit < 64 }
    ensures { HasBit words.old words.new (64 * word + bit) true }
{
    words[word] |= 1u64 << bit;
}

/// Clears that bit of that word.
pub(crate) fn clear_bit(words: &mut [u64], word: usize, bit: u32)
    requires known { word < length words.old }
    requires below { bit < 64 }
    ensures { HasBit words.old words.new (64 * word + bit) false }
{
    words[word] &= !(1u64 << bit);
}

/// Sets all bits of all words.
pub(crate) fn set_all(words: &mut [u64])
    ensures long { length words.new ≡ length words.old }
    ensures bits { (k : ℕ) → k < 64 * length words.old → is_set words.new k ≡ true }
{
    for word in words.iter_mut() {
        *word = u64::MAX;
    }
}
