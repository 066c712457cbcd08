// The rows of a range as a list, and of a list those whose values pass: by which loop, by how the values are kept.

ghost use Rattle.std.specs.Prelude.{◌≡◌, ◌≤◌, ◌<◌, ◌+◌, ◌-◌, ◌^◌, OnOk, length, map, pos, slice_index_or};
ghost use Rattle.std.specs.List.{All, filter, range_with_len};
ghost use Rattle.ssb_packed.specs.Lent.{numbers_in};
ghost use Rattle.ssb_sets.specs.Passing.{passes_at};
ghost use Rattle.ssb_sets.specs.Values.{IsWithin, bounds_of, number_bounds, values_in};

use crate::asks::{Asks, OfCode};
use crate::kernel::{Number, first_rows, next_rows};
use crate::values::ValueSlice;
use ssb_packed::NumberSlice;
use std::alloc::AllocError;

/// Fills a list with the rows in `from..end`, whatever their values are.
///
/// # Errors
///
/// Only where a growth was refused.
pub fn fill(rows: &mut Vec<u32>, from: u32, end: u32) -> Result<(), AllocError>
    requires { from ≤ end }
    ensures { OnOk result (rows.new.items ≡ range_with_len from (end - from)) }
{
    rows.clear();
    rows.resize((end - from) as usize, 0)?;
    number_from(from, rows.as_mut_slice());
    Ok(())
}

// Numbers rows from a first one on.
fn number_from(first: u32, rows: &mut [u32])
    requires { first + length rows.old < 2 ^ 32 }
    ensures { rows.new ≡ range_with_len first (length rows.old) }
{
    for i in 0..rows.len() {
        rows[i] = first + i as u32;
    }
}

impl<'a> ValueSlice<'a> {
    /// Leaves the rows whose value passes, in their order. Takes no memory.
    pub fn keep<A: Asks>(self, asked: A, rows: &mut Vec<u32>)
        requires { All (λ r. r < length (values_in self)) rows.old.items }
        ensures rows { rows.new.items ≡ filter (passes_at (A.says asked) (values_in self.entry)) rows.old.items }
        ensures within { All (λ r. IsWithin (bounds_of self.entry) (slice_index_or (values_in self.entry) r (pos 0))) rows.old.items }
    {
        match self {
            ValueSlice::Numbers(numbers) => keep_numbers(numbers, asked, rows),
            ValueSlice::Codes(codes) => keep_numbers(codes.numbers, OfCode { asked }, rows),
        }
    }

    /// Fills a list with the rows in `from..end` whose value passes.
    ///
    /// # Errors
    ///
    /// Only where a growth was refused.
    pub fn list<A: Asks>(
        self,
        asked: A,
        from: u32,
        end: u32,
        rows: &mut Vec<u32>,
    ) -> Result<(), AllocError>
        requires order { from ≤ end }
        requires there { end ≤ length (values_in self) }
        ensures { OnOk result (rows.new.items ≡ filter (passes_at (A.says asked) (values_in self.entry)) (range_with_len from (end - from))) }
    {
        match self {
            ValueSlice::Numbers(numbers) => list_numbers(numbers, asked, from, end, rows),
            ValueSlice::Codes(codes) => {
                list_numbers(codes.numbers, OfCode { asked }, from, end, rows)
            }
        }
    }
}

fn list_numbers<A: Asks>(
    numbers: NumberSlice<'_>,
    asked: A,
    from: u32,
    end: u32,
    rows: &mut Vec<u32>,
) -> Result<(), AllocError>
    requires order { from ≤ end }
    requires there { end ≤ length (numbers_in numbers) }
    ensures { OnOk result (rows.new.items ≡ filter (passes_at (A.says asked) (numbers_in numbers.entry)) (range_with_len from (end - from))) }
{
    match numbers {
        NumberSlice::One(kept) => list_in(kept, asked, from, end, rows),
        NumberSlice::Two(kept) => list_in(kept, asked, from, end, rows),
        NumberSlice::Four(kept) => list_in(kept, asked, from, end, rows),
        NumberSlice::Eight(kept) => list_in(kept, asked, from, end, rows),
    }
}

fn list_in<T: Number, A: Asks>(
    numbers: &[T],
    asked: A,
    from: u32,
    end: u32,
    rows: &mut Vec<u32>,
) -> Result<(), AllocError>
    requires order { from ≤ end }
    requires there { end ≤ length numbers.now }
    ensures { OnOk result (rows.new.items ≡ filter (passes_at (A.says asked) (map T.wide numbers.now)) (range_with_len from (end - from))) }
{
    list_all(&numbers[from as usize..end as usize], asked, from, rows)
}

// Fills a list with the rows of a stretch, from a first one on, whose numbers pass.
fn list_all<T: Number, A: Asks>(
    numbers: &[T],
    asked: A,
    first: u32,
    rows: &mut Vec<u32>,
) -> Result<(), AllocError>
    requires { first + length numbers.now < 2 ^ 32 }
    ensures { OnOk result (rows.new.items ≡ filter (λ r. passes_at (A.says asked) (map T.wide numbers.now) (r - first)) (range_with_len first (length numbers.now))) }
{
    rows.resize(numbers.len(), 0)?;
    let left = first_rows(numbers, asked, first, rows.as_mut_slice());
    rows.truncate(left);
    Ok(())
}

// The match on the width, once for all rows.
fn keep_numbers<A: Asks>(numbers: NumberSlice<'_>, asked: A, rows: &mut Vec<u32>)
    requires { All (λ r. r < length (numbers_in numbers)) rows.old.items }
    ensures rows { rows.new.items ≡ filter (passes_at (A.says asked) (numbers_in numbers.entry)) rows.old.items }
    ensures within { All (λ r. IsWithin (number_bounds numbers.entry) (slice_index_or (numbers_in numbers.entry) r (pos 0))) rows.old.items }
{
    match numbers {
        NumberSlice::One(kept) => keep_in(kept, asked, rows),
        NumberSlice::Two(kept) => keep_in(kept, asked, rows),
        NumberSlice::Four(kept) => keep_in(kept, asked, rows),
        NumberSlice::Eight(kept) => keep_in(kept, asked, rows),
    }
}

fn keep_in<T: Number, A: Asks>(numbers: &[T], asked: A, rows: &mut Vec<u32>)
    requires { All (λ r. r < length numbers.now) rows.old.items }
    ensures rows { rows.new.items ≡ filter (passes_at (A.says asked) (map T.wide numbers.now)) rows.old.items }
    ensures within { All (λ r. IsWithin T.bounds (slice_index_or (map T.wide numbers.now) r (pos 0))) rows.old.items }
{
    let left = next_rows(numbers, asked, rows.as_mut_slice());
    rows.truncate(left);
}
