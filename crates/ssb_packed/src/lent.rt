// Slices that a column lends to code that goes over many rows.

ghost use Rattle.std.specs.Prelude.{◌≡◌, ◌<◌, length, slice_get, Some};
ghost use Rattle.ssb_packed.specs.Lent.{kept_code, codes_in, flag_at, numbers_in};

/// The numbers of a column, one for each row, each in as many bytes as the widest of them needs.
#[derive(Clone, Copy)]
pub enum NumberSlice<'a> {
    /// In a byte each.
    One(&'a [i8]),
    /// In two.
    Two(&'a [i16]),
    /// In four.
    Four(&'a [i32]),
    /// In eight.
    Eight(&'a [i64]),
}

/// By how much the number that is kept for a code is less, so that 256 codes take a byte each.
pub(crate) const BELOW_CODE: u32 = 128;

/// The codes of a column, one for each row.
#[derive(Clone, Copy)]
pub struct CodeSlice<'a> {
    /// For each the number that is 128 less.
    pub numbers: NumberSlice<'a>,
}

impl<'a> NumberSlice<'a> {
    /// The number of a row, counted from 0.
    pub fn get(self, row: usize) -> i64
        requires { row < length (numbers_in self) }
        ensures { slice_get (numbers_in self.entry) row ≡ Some result }
    {
        match self {
            NumberSlice::One(numbers) => i64::from(numbers[row]),
            NumberSlice::Two(numbers) => i64::from(numbers[row]),
            NumberSlice::Four(numbers) => i64::from(numbers[row]),
            NumberSlice::Eight(numbers) => numbers[row],
        }
    }
}

// The code that a number is kept for.
fn kept_code(number: i64) -> u32
    ensures { result ≡ kept_code number }
{
    ((number.cast_unsigned() % 0x1_0000_0000) as u32).wrapping_add(BELOW_CODE)
}

impl<'a> CodeSlice<'a> {
    /// The code of a row, counted from 0.
    pub fn get(self, row: usize) -> u32
        requires { row < length (codes_in self) }
        ensures { slice_get (codes_in self.entry) row ≡ Some result }
    {
        kept_code(self.numbers.get(row))
    }
}

/// Whether a row's bit is set in words of 64 bits each, as it is for a null of the column that lends
/// them. Behind the last word none is.
pub fn flag_at(words: &[u64], row: u32) -> bool
    ensures { result ≡ flag_at words.now row }
{
    match words.get((row / 64) as usize) {
        Some(word) => (*word >> (row % 64)) & 1 == 1,
        None => false,
    }
}
