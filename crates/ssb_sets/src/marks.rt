// Rows of a batch as bits of words: each test clears the bits of those that fail, 64 rows at a time.

ghost use Rattle.std.specs.Prelude.{◌≡◌, ◌≤◌, ◌<◌, ◌+◌, ◌-◌, ◌*◌, ◌^◌, ◌++◌, ◌&&◌, ℕ, Bool, true, false, not, OnOk, length, map, nat_lt, pos, slice_index_or, take};
ghost use Rattle.std.specs.List.{All, filter, range_with_len};
ghost use Rattle.ssb_packed.specs.Lent.{flag_at, numbers_in};
ghost use Rattle.ssb_sets.specs.Marks.{AreMarked, has_bit, is_between, is_marked, rows_of};
ghost use Rattle.ssb_sets.specs.Passing.{passes_at};
ghost use Rattle.ssb_sets.specs.Values.{IsWithin, number_bounds};

use crate::kernel::Number;
use ssb_packed::NumberSlice;
use std::alloc::AllocError;

/// Of how many rows marks are at most.
pub const MARKED_ROWS: u32 = 4096;

/// A mark for each of at most 4,096 rows that follow one another.
#[derive(Drop)]
pub struct Marks {
    /// A bit for each, 64 a word.
    pub words: [u64; 64],
}

// The lowest bits of a word, so many.
fn low_ones(count: u32) -> u64
    ensures { (i : ℕ) → i < 64 → has_bit result i ≡ nat_lt i count }
{
    if count >= 64 {
        return u64::MAX;
    }
    (1 << count) - 1
}

// Sets the first bits of words, so many, and no others.
fn set_first(words: &mut [u64], count: u32)
    requires long { length words.old ≡ 64 }
    requires few { count ≤ 4096 }
    ensures { (from : ℕ) → AreMarked (λ r. true) from count words.new }
{
    for at in 0..words.len() {
        words[at] = low_ones(count.saturating_sub(64 * (at as u32)));
    }
}

// Reads each number, so that it is known to fit its width. Nothing comes of it, and no code is left of it.
fn read_all<T: Number>(numbers: &[T])
    ensures { (i : ℕ) → i < length numbers.now → IsWithin T.bounds (slice_index_or (map T.wide numbers.now) i (pos 0)) }
{
    for i in 0..numbers.len() {
        let _number = numbers[i].wide();
    }
}

fn is_between(low: i64, high: i64, number: i64) -> bool
    ensures { result ≡ is_between low high number }
{
    low <= number && number <= high
}

// Of fewer than 64 numbers those that lie from a least to a greatest: a bit for each.
fn few_between<T: Number>(numbers: &[T], low: i64, high: i64) -> u64
    requires { length numbers.now < 64 }
    ensures { (i : ℕ) → i < length numbers.now → has_bit result i ≡ is_between low high (slice_index_or (map T.wide numbers.now) i (pos 0)) }
{
    let mut word = u64::MAX;
    for i in 0..numbers.len() {
        let number = numbers[i].wide();
        if !is_between(low, high, number) {
            word &= !(1 << i);
        }
    }
    word
}

// Clears the bits of the numbers that lie below a least or above a greatest.
fn clear_in<T: Number>(words: &mut [u64], numbers: &[T], low: i64, high: i64)
    requires { length numbers.now ≤ 64 * length words.old }
    ensures each { (i : ℕ) → i < length numbers.now → is_marked words.new i ≡ (is_marked words.old i && is_between low high (slice_index_or (map T.wide numbers.now) i (pos 0))) }
    ensures none { (i : ℕ) → length numbers.now ≤ i → is_marked words.old i ≡ false → is_marked words.new i ≡ false }
    ensures within { (i : ℕ) → i < length numbers.now → IsWithin T.bounds (slice_index_or (map T.wide numbers.now) i (pos 0)) }
{
    read_all(numbers);
    let whole = numbers.len() / 64;
    for at in 0..whole {
        words[at] &= T::between(&numbers[at * 64..], low, high);
    }
    if whole * 64 < numbers.len() {
        words[whole] &= few_between(&numbers[whole * 64..], low, high);
    }
}

// The flags of 64 rows from a first one on, as bits of a word.
fn flags_from(flags: &[u64], first: u32) -> u64
    ensures { (i : ℕ) → i < 64 → has_bit result i ≡ flag_at flags.now (first + i) }
{
    let here = word_at(flags, first / 64);
    let passed = first % 64;
    if passed == 0 {
        return here;
    }
    (here >> passed) | (word_at(flags, first / 64 + 1) << (64 - passed))
}

// Clears the bits of the rows from one on whose flag is set, so many words of them.
fn clear_flagged(words: &mut [u64], many: usize, flags: &[u64], from: u32)
    requires there { many ≤ length words.old }
    requires start { 64 * many < 2 ^ 32 - from + 64 }
    ensures each { (i : ℕ) → i < 64 * many → is_marked words.new i ≡ (is_marked words.old i && not (flag_at flags.now (from + i))) }
    ensures same { (i : ℕ) → 64 * many ≤ i → is_marked words.new i ≡ is_marked words.old i }
{
    for at in 0..many {
        words[at] &= !flags_from(flags, from + 64 * (at as u32));
    }
}

// A word, or none of its bits behind the last one.
fn word_at(words: &[u64], at: u32) -> u64
    ensures { result ≡ slice_index_or words.now at 0 }
{
    match words.get(at as usize) {
        Some(word) => *word,
        None => 0,
    }
}

// Writes the rows whose bits are set in a word, in order, behind those that stand there, and says how many stand
// there then.
fn word_rows(word: u64, base: u32, rows: &mut [u32], left: usize) -> usize
    requires room { left + 64 ≤ length rows.old }
    requires fits { (i : ℕ) → i < 64 → has_bit word i ≡ true → base + i < 2 ^ 32 }
    ensures count { result ≤ left + 64 }
    ensures rows { take result rows.new ≡ take left rows.old ++ rows_of word base }
{
    let mut word = word;
    let mut left = left;
    'bits: while word != 0 {
        let bit = word.trailing_zeros();
        rows[left] = base + bit;
        left += 1;
        word &= !(1 << bit);
    }
    left
}

// Writes the rows whose bits are set in the first words, so many, and says how many rows they are.
fn marked_rows(words: &[u64], many: usize, from: u32, rows: &mut [u32]) -> usize
    requires there { many ≤ length words.now }
    requires room { 64 * many ≤ length rows.old }
    requires fits { (i : ℕ) → i < 64 * many → is_marked words.now i ≡ true → from + i < 2 ^ 32 }
    requires start { 64 * many < 2 ^ 32 - from + 64 }
    ensures count { result ≤ 64 * many }
    ensures rows { take result rows.new ≡ filter (λ r. is_marked words.now (r - from)) (range_with_len from (64 * many)) }
{
    let mut left = 0;
    for at in 0..many {
        left = word_rows(words[at], from + 64 * (at as u32), rows, left);
    }
    left
}

// Fills a list with the rows whose bits are set in the first words, so many.
fn list_marked(words: &[u64], many: usize, from: u32, rows: &mut Vec<u32>) -> Result<(), AllocError>
    requires there { many ≤ length words.now }
    requires fits { (i : ℕ) → i < 64 * many → is_marked words.now i ≡ true → from + i < 2 ^ 32 }
    requires start { 64 * many < 2 ^ 32 - from + 64 }
    ensures { OnOk result (rows.new.items ≡ filter (λ r. is_marked words.now (r - from)) (range_with_len from (64 * many))) }
{
    rows.resize(64 * many, 0)?;
    let left = marked_rows(words, many, from, rows.as_mut_slice());
    rows.truncate(left);
    Ok(())
}

// How many words have a bit for each of so many rows.
fn words_of(count: u32) -> usize
    ensures enough { count ≤ 64 * result }
    ensures fewest { 64 * result < count + 64 }
{
    (count / 64 + (count % 64).min(1)) as usize
}

impl Marks {
    /// A mark for each of so many rows.
    pub fn all(count: u32) -> Marks
        requires { count ≤ 4096 }
        ensures { (from : ℕ) → AreMarked (λ r. true) from count result.words }
    {
        let mut words = [0; 64];
        set_first(&mut words, count);
        Marks { words }
    }

    /// Clears the marks of the rows in `from..end` whose numbers lie below a least or above a greatest.
    pub fn clear_outside(
        &mut self,
        numbers: NumberSlice<'_>,
        from: u32,
        end: u32,
        low: i64,
        high: i64,
    )
        requires order { from ≤ end }
        requires there { end ≤ length (numbers_in numbers) }
        requires few { end - from ≤ 4096 }
        ensures marks { (p : ℕ → Bool) → AreMarked p from (end - from) self.old.words → AreMarked (λ r. p r && passes_at (is_between low high) (numbers_in numbers.entry) r) from (end - from) self.new.words }
        ensures within { All (λ r. IsWithin (number_bounds numbers.entry) (slice_index_or (numbers_in numbers.entry) r (pos 0))) (range_with_len from (end - from)) }
    {
        match numbers {
            NumberSlice::One(kept) => self.clear_stretch(kept, from, end, low, high),
            NumberSlice::Two(kept) => self.clear_stretch(kept, from, end, low, high),
            NumberSlice::Four(kept) => self.clear_stretch(kept, from, end, low, high),
            NumberSlice::Eight(kept) => self.clear_stretch(kept, from, end, low, high),
        }
    }

    fn clear_stretch<T: Number>(&mut self, numbers: &[T], from: u32, end: u32, low: i64, high: i64)
        requires order { from ≤ end }
        requires there { end ≤ length numbers.now }
        requires few { end - from ≤ 4096 }
        ensures marks { (p : ℕ → Bool) → AreMarked p from (end - from) self.old.words → AreMarked (λ r. p r && passes_at (is_between low high) (map T.wide numbers.now) r) from (end - from) self.new.words }
        ensures within { All (λ r. IsWithin T.bounds (slice_index_or (map T.wide numbers.now) r (pos 0))) (range_with_len from (end - from)) }
    {
        let stretch = &numbers[from as usize..end as usize];
        clear_in(&mut self.words, stretch, low, high);
    }

    /// Clears the marks of the rows in `from..end` that are null, by the flags of the nulls.
    pub fn clear_nulls(&mut self, nulls: &[u64], from: u32, end: u32)
        requires order { from ≤ end }
        requires few { end - from ≤ 4096 }
        ensures { (p : ℕ → Bool) → AreMarked p from (end - from) self.old.words → AreMarked (λ r. p r && not (flag_at nulls.now r)) from (end - from) self.new.words }
    {
        if nulls.is_empty() {
            return;
        }
        clear_flagged(&mut self.words, words_of(end - from), nulls, from);
    }

    /// Fills a list with the rows in `from..end` that have a mark.
    ///
    /// # Errors
    ///
    /// Only where a growth was refused.
    pub fn list_rows(&self, from: u32, end: u32, rows: &mut Vec<u32>) -> Result<(), AllocError>
        requires order { from ≤ end }
        requires few { end - from ≤ 4096 }
        requires none { (i : ℕ) → end - from ≤ i → is_marked self.now.words i ≡ false }
        ensures { OnOk result ((p : ℕ → Bool) → AreMarked p from (end - from) self.now.words → rows.new.items ≡ filter p (range_with_len from (end - from))) }
    {
        list_marked(&self.words, words_of(end - from), from, rows)?;
        Ok(())
    }
}
