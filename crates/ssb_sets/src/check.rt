// What stands for a set where many numbers are tested.

ghost use Rattle.std.specs.Prelude.{◌≡◌, ◌<◌, ◌≤◌, ◌+◌, ◌-◌, ◌^◌, ◌≤ℤ◌, ◌<ℤ◌, ◌-ℤ◌, OnOk, true, length, pos, slice_index_or, unsigned_abs};
ghost use Rattle.std.specs.List.{All, filter, range_with_len};
ghost use Rattle.ssb_sets.specs.Checks.{flag_of, last_of, passes, point_of};
ghost use Rattle.ssb_sets.specs.Passing.{passes_at};
ghost use Rattle.ssb_sets.specs.Values.{IsWithin, bounds_of, values_in};

use crate::asked::{Between, Constantly, FlagsAsk, PaddedAsk, PointsAsk, SearchAsk};
use crate::set::NumberSet;
use crate::values::ValueSlice;
use std::alloc::AllocError;
use std::collections::HashSet;

/// What stands for a set, so that a number is tested by few steps.
pub enum Check {
    /// No number passes.
    Never,
    /// Each passes.
    Always,
    /// Those from a least to a greatest pass.
    Within(i64, i64),
    /// By a flag for each number of a span.
    Flagged(Flags),
    /// By single numbers.
    Listed(Points),
    /// By a search in the set.
    Searched(NumberSet),
}

// Written out, so that what lets go of a check need not say how its parts are let go.
impl Drop for Check {
    fn drop(self) {
        match self {
            Check::Never => {}
            Check::Always => {}
            Check::Within(_, _) => {}
            Check::Flagged(flags) => drop(flags),
            Check::Listed(points) => drop(points),
            Check::Searched(set) => drop(set),
        }
    }
}

/// From a base on, what is said of each number; and what is said of all others. Where the last flag says what is said of
/// all others, as those that are made here have it, many numbers are tested without a branch.
#[derive(Drop)]
pub struct Flags {
    /// The first number that has a flag.
    pub base: i64,
    /// Whether it and each next one passes.
    pub flags: Vec<bool>,
    /// Whether all others pass.
    pub others: bool,
}

/// Numbers of which one thing is said, and what is said of all others.
#[derive(Drop)]
pub struct Points {
    /// The numbers.
    pub numbers: HashSet<i64>,
    /// Whether all others pass; then these do not.
    pub others: bool,
}

// What is said of a number by flags, from a base on. Keys nearly always lie in the span of the flags: two branches
// that are predicted cost less than asking both.
pub(crate) fn flag_of(base: i64, flags: &[bool], others: bool, number: i64) -> bool
    ensures { result ≡ flag_of base flags.now others number }
{
    if number < base {
        return others;
    }
    match flags.get(number.abs_diff(base) as usize) {
        Some(flag) => *flag,
        None => others,
    }
}

// How far a number is above a base; of one below it, what is left of 2^64.
#[inline(always)]
fn distance(base: i64, number: i64) -> u64
    ensures above { base ≤ℤ number → result ≡ unsigned_abs (number -ℤ base) }
    ensures below { number <ℤ base → result + unsigned_abs (base -ℤ number) ≡ 2 ^ 64 }
{
    number.wrapping_sub(base).cast_unsigned()
}

// What is said of a number by flags whose last one is what is said of all others. A number without a flag is farther from
// the base than that one, so the nearer of both places serves, and no branch asks where the number lies. Where the base is
// so great that a number below it might seem near, both branches are asked.
#[inline(always)]
pub(crate) fn padded_flag_of(base: i64, flags: &[bool], number: i64) -> bool
    ensures { result ≡ flag_of base flags.now (last_of flags.now) number }
{
    let count = flags.len();
    if count == 0 || i64::MAX.abs_diff(base) < count as u64 {
        return flag_of(base, flags, flags.last().copied().unwrap_or(false), number);
    }
    let place = distance(base, number).min(count as u64 - 1);
    flags[place as usize]
}

impl Flags {
    /// What is said of a number.
    pub fn says(&self, number: i64) -> bool
        ensures { result ≡ flag_of self.now.base self.now.flags.items self.now.others number }
    {
        flag_of(self.base, &self.flags, self.others, number)
    }

    // Whether the last flag is what is said of all others, so that it serves them too.
    fn is_padded(&self) -> bool
        ensures { result ≡ true → last_of self.now.flags.items ≡ self.now.others }
    {
        match self.flags.last() {
            Some(last) => *last == self.others,
            None => false,
        }
    }

    // What the flags ask.
    fn plain(&self) -> FlagsAsk<'_>
        ensures base { result.base ≡ self.now.base }
        ensures flags { result.flags.now ≡ self.now.flags.items }
        ensures others { result.others ≡ self.now.others }
    {
        FlagsAsk {
            base: self.base,
            flags: self.flags.as_slice(),
            others: self.others,
        }
    }

    // The same where they are padded.
    fn padded(&self) -> PaddedAsk<'_>
        ensures base { result.base ≡ self.now.base }
        ensures flags { result.flags.now ≡ self.now.flags.items }
    {
        PaddedAsk {
            base: self.base,
            flags: self.flags.as_slice(),
        }
    }

    /// Leaves the rows whose value passes, in their order. Takes no memory.
    pub fn keep(&self, values: ValueSlice<'_>, rows: &mut Vec<u32>)
        requires { All (λ r. r < length (values_in values)) rows.old.items }
        ensures rows { rows.new.items ≡ filter (passes_at (λ n. flag_of self.now.base self.now.flags.items self.now.others n) (values_in values.entry)) rows.old.items }
        ensures within { All (λ r. IsWithin (bounds_of values.entry) (slice_index_or (values_in values.entry) r (pos 0))) rows.old.items }
    {
        if self.is_padded() {
            values.keep(self.padded(), rows)
        } else {
            values.keep(self.plain(), rows)
        }
    }

    /// Fills a list with the rows in `from..end` whose value passes.
    ///
    /// # Errors
    ///
    /// Only where a growth was refused.
    pub fn list(
        &self,
        values: ValueSlice<'_>,
        from: u32,
        end: u32,
        rows: &mut Vec<u32>,
    ) -> Result<(), AllocError>
        requires order { from ≤ end }
        requires there { end ≤ length (values_in values) }
        ensures { OnOk result (rows.new.items ≡ filter (passes_at (λ n. flag_of self.now.base self.now.flags.items self.now.others n) (values_in values.entry)) (range_with_len from (end - from))) }
    {
        if self.is_padded() {
            values.list(self.padded(), from, end, rows)
        } else {
            values.list(self.plain(), from, end, rows)
        }
    }
}

impl Points {
    // What is said of a number.
    pub(crate) fn says(&self, number: i64) -> bool
        ensures { result ≡ point_of self.now number }
    {
        self.numbers.contains(&number) != self.others
    }
}

impl Check {
    /// Whether a number passes.
    pub fn passes(&self, number: i64) -> bool
        ensures { result ≡ passes self.now number }
    {
        match self {
            Check::Never => false,
            Check::Always => true,
            Check::Within(low, high) => *low <= number && number <= *high,
            Check::Flagged(flags) => flags.says(number),
            Check::Listed(points) => points.says(number),
            Check::Searched(set) => set.has(number),
        }
    }

    /// Leaves the rows whose value passes, in their order. Takes no memory.
    pub fn keep(&self, values: ValueSlice<'_>, rows: &mut Vec<u32>)
        requires { All (λ r. r < length (values_in values)) rows.old.items }
        ensures rows { rows.new.items ≡ filter (passes_at (passes self.now) (values_in values.entry)) rows.old.items }
        ensures within { All (λ r. IsWithin (bounds_of values.entry) (slice_index_or (values_in values.entry) r (pos 0))) rows.old.items }
    {
        match self {
            Check::Never => values.keep(Constantly { all: false }, rows),
            Check::Always => values.keep(Constantly { all: true }, rows),
            Check::Within(low, high) => {
                let asked = Between {
                    low: *low,
                    high: *high,
                };
                values.keep(asked, rows)
            }
            Check::Flagged(flags) => flags.keep(values, rows),
            Check::Listed(points) => values.keep(PointsAsk { points }, rows),
            Check::Searched(set) => values.keep(SearchAsk { set }, rows),
        }
    }
}
