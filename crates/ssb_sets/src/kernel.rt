// Tests of many listed rows, one column after the other: one loop for all widths of numbers.

ghost use Rattle.std.specs.Prelude.{◌≡◌, ◌≤◌, ◌<◌, ◌+◌, ◌-◌, ◌^◌, ℕ, ℤ, pos, length, map, slice_index_or, take};
ghost use Rattle.std.specs.List.{All, filter, range_with_len};
ghost use Rattle.ssb_sets.specs.Marks.{has_bit, is_between};
ghost use Rattle.ssb_sets.specs.Passing.{passes_at};
ghost use Rattle.ssb_sets.specs.declared.values.Bounds.{Bounds};
ghost use Rattle.ssb_sets.specs.Values.{IsWithin, byte_bounds, two_byte_bounds, four_byte_bounds, eight_byte_bounds};

use crate::asks::Asks;
use crate::lanes::{bytes_between, eight_bytes_between, four_bytes_between, two_bytes_between};

/// A signed number of some width.
pub trait Number: Copy {
    ghost wide: { Self → ℤ };

    ghost bounds: { Bounds };

    /// The same number in 64 bits.
    fn wide(self) -> i64
        ensures number { result ≡ wide self }
        ensures within { IsWithin bounds result };

    /// Which of the first 64 numbers lie from a least to a greatest: a bit for each.
    fn between(numbers: &[Self], low: i64, high: i64) -> u64
        requires many { 64 ≤ length numbers.now }
        requires within { (i : ℕ) → i < 64 → IsWithin bounds (slice_index_or (map wide numbers.now) i (pos 0)) }
        ensures { (i : ℕ) → i < 64 → has_bit result i ≡ is_between low high (slice_index_or (map wide numbers.now) i (pos 0)) };
}

impl Number for i8 {
    ghost wide = { λ n. n };

    ghost bounds = { byte_bounds };

    fn wide(self) -> i64 {
        i64::from(self)
    }

    fn between(numbers: &[i8], low: i64, high: i64) -> u64 {
        bytes_between(numbers, low, high)
    }
}

impl Number for i16 {
    ghost wide = { λ n. n };

    ghost bounds = { two_byte_bounds };

    fn wide(self) -> i64 {
        i64::from(self)
    }

    fn between(numbers: &[i16], low: i64, high: i64) -> u64 {
        two_bytes_between(numbers, low, high)
    }
}

impl Number for i32 {
    ghost wide = { λ n. n };

    ghost bounds = { four_byte_bounds };

    fn wide(self) -> i64 {
        i64::from(self)
    }

    fn between(numbers: &[i32], low: i64, high: i64) -> u64 {
        four_bytes_between(numbers, low, high)
    }
}

impl Number for i64 {
    ghost wide = { λ n. n };

    ghost bounds = { eight_byte_bounds };

    fn wide(self) -> i64 {
        self
    }

    fn between(numbers: &[i64], low: i64, high: i64) -> u64 {
        eight_bytes_between(numbers, low, high)
    }
}

/// Leaves in front the rows of a list whose numbers pass, in their order, and says how many they are. Each row is
/// written before it is known whether it passes: that spares a jump which no processor could foresee.
pub fn next_rows<T: Number, A: Asks>(numbers: &[T], asked: A, rows: &mut [u32]) -> usize
    requires { All (λ row. row < length numbers.now) rows.old }
    ensures count { result ≤ length rows.old }
    ensures rows { take result rows.new ≡ filter (passes_at (A.says asked) (map T.wide numbers.now)) rows.old }
    ensures within { All (λ row. IsWithin T.bounds (slice_index_or (map T.wide numbers.now) row (pos 0))) rows.old }
{
    let mut left = 0;
    for i in 0..rows.len() {
        let row = rows[i];
        rows[left] = row;
        if asked.passes(numbers[row as usize].wide()) {
            left += 1;
        }
    }
    left
}

/// Lists the rows of a stretch, from a first one on, whose numbers pass, and says how many they are. As in [`next_rows`], each
/// is written before it is known whether it passes.
pub fn first_rows<T: Number, A: Asks>(
    numbers: &[T],
    asked: A,
    first: u32,
    rows: &mut [u32],
) -> usize
    requires many { length rows.old ≡ length numbers.now }
    requires fits { first + length numbers.now < 2 ^ 32 }
    ensures count { result ≤ length rows.old }
    ensures rows { take result rows.new ≡ filter (λ r. passes_at (A.says asked) (map T.wide numbers.now) (r - first)) (range_with_len first (length numbers.now)) }
{
    let mut left = 0;
    for i in 0..numbers.len() {
        rows[left] = first + i as u32;
        if asked.passes(numbers[i].wide()) {
            left += 1;
        }
    }
    left
}
