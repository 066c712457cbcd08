// The values of a column, as numbers.

ghost use Rattle.std.specs.Prelude.{◌≡◌, ◌<◌, length, slice_get, Some};
ghost use Rattle.ssb_sets.specs.Values.{bounds_of, values_in};

use ssb_packed::{CodeSlice, NumberSlice};

/// The values of a column as numbers: its numbers, or the codes of its texts. A null has some number too.
#[derive(Clone, Copy)]
pub enum ValueSlice<'a> {
    /// Its numbers.
    Numbers(NumberSlice<'a>),
    /// The codes of its texts.
    Codes(CodeSlice<'a>),
}

/// A least and a greatest number, which both belong to it.
#[derive(Clone, Copy)]
pub struct Bounds {
    /// The least.
    pub least: i64,
    /// The greatest.
    pub greatest: i64,
}

impl<'a> ValueSlice<'a> {
    /// The number of a row, counted from 0.
    pub fn get(self, row: usize) -> i64
        requires { row < length (values_in self) }
        ensures { slice_get (values_in self.entry) row ≡ Some result }
    {
        match self {
            ValueSlice::Numbers(numbers) => numbers.get(row),
            ValueSlice::Codes(codes) => i64::from(codes.get(row)),
        }
    }

    /// Between which numbers the values lie, by the bytes that each takes.
    pub fn bounds(self) -> Bounds
        ensures { result ≡ bounds_of self.entry }
    {
        match self {
            ValueSlice::Numbers(numbers) => match numbers {
                NumberSlice::One(_) => Bounds {
                    least: -128,
                    greatest: 127,
                },
                NumberSlice::Two(_) => Bounds {
                    least: -32_768,
                    greatest: 32_767,
                },
                NumberSlice::Four(_) => Bounds {
                    least: -2_147_483_648,
                    greatest: 2_147_483_647,
                },
                NumberSlice::Eight(_) => Bounds {
                    least: i64::MIN,
                    greatest: i64::MAX,
                },
            },
            ValueSlice::Codes(_) => Bounds {
                least: 0,
                greatest: 4_294_967_295,
            },
        }
    }
}
