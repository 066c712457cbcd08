// Which of 64 numbers lie from a least to a greatest, by vectors: a bit of a word for each. The ends are cut to the
// width of the numbers; a range that the width cannot hold has none of them.

ghost use Rattle.std.specs.Prelude.{◌≡◌, ◌≤◌, ◌<◌, ℕ, length, pos, slice_index_or};
ghost use Rattle.ssb_sets.specs.Marks.{has_bit, is_between};
ghost use Rattle.ssb_sets.specs.Values.{IsWithin, byte_bounds, eight_byte_bounds, four_byte_bounds, two_byte_bounds};

use std::simd::prelude::*;

pub(crate) fn bytes_between(numbers: &[i8], low: i64, high: i64) -> u64
    requires many { 64 ≤ length numbers.now }
    requires within { (i : ℕ) → i < 64 → IsWithin byte_bounds (slice_index_or numbers.now i (pos 0)) }
    ensures { (i : ℕ) → i < 64 → has_bit result i ≡ is_between low high (slice_index_or numbers.now i (pos 0)) }
{
    if high < -128 || low > 127 {
        return 0;
    }
    let least = low.max(-128) as i8;
    let greatest = high.min(127) as i8;
    let lanes = i8x64::from_slice(numbers);
    let above = lanes.simd_ge(i8x64::splat(least));
    let below = lanes.simd_le(i8x64::splat(greatest));
    (above & below).to_bitmask()
}

pub(crate) fn two_bytes_between(numbers: &[i16], low: i64, high: i64) -> u64
    requires many { 64 ≤ length numbers.now }
    requires within { (i : ℕ) → i < 64 → IsWithin two_byte_bounds (slice_index_or numbers.now i (pos 0)) }
    ensures { (i : ℕ) → i < 64 → has_bit result i ≡ is_between low high (slice_index_or numbers.now i (pos 0)) }
{
    if high < -32_768 || low > 32_767 {
        return 0;
    }
    let least = low.max(-32_768) as i16;
    let greatest = high.min(32_767) as i16;
    let lanes = i16x64::from_slice(numbers);
    let above = lanes.simd_ge(i16x64::splat(least));
    let below = lanes.simd_le(i16x64::splat(greatest));
    (above & below).to_bitmask()
}

pub(crate) fn four_bytes_between(numbers: &[i32], low: i64, high: i64) -> u64
    requires many { 64 ≤ length numbers.now }
    requires within { (i : ℕ) → i < 64 → IsWithin four_byte_bounds (slice_index_or numbers.now i (pos 0)) }
    ensures { (i : ℕ) → i < 64 → has_bit result i ≡ is_between low high (slice_index_or numbers.now i (pos 0)) }
{
    if high < -2_147_483_648 || low > 2_147_483_647 {
        return 0;
    }
    let least = low.max(-2_147_483_648) as i32;
    let greatest = high.min(2_147_483_647) as i32;
    let lanes = i32x64::from_slice(numbers);
    let above = lanes.simd_ge(i32x64::splat(least));
    let below = lanes.simd_le(i32x64::splat(greatest));
    (above & below).to_bitmask()
}

pub(crate) fn eight_bytes_between(numbers: &[i64], low: i64, high: i64) -> u64
    requires many { 64 ≤ length numbers.now }
    requires within { (i : ℕ) → i < 64 → IsWithin eight_byte_bounds (slice_index_or numbers.now i (pos 0)) }
    ensures { (i : ℕ) → i < 64 → has_bit result i ≡ is_between low high (slice_index_or numbers.now i (pos 0)) }
{
    let lanes = i64x64::from_slice(numbers);
    let above = lanes.simd_ge(i64x64::splat(low));
    let below = lanes.simd_le(i64x64::splat(high));
    (above & below).to_bitmask()
}
