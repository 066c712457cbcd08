// What stands for an aggregate in groups.

ghost use Rattle.std.specs.Prelude.{◌≡◌, ◌+ℤ◌, List};
ghost use Rattle.ssb_cells.specs.Cell.{Cell};
ghost use Rattle.ssb_groups.specs.Keys.{FitsSum, IsKept, kept_total, wide};
ghost use Rattle.ssb_keys.specs.declared.kept.Kept.TheVariants as kept;

use ssb_keys::Kept;

// 2^64.
const BEYOND_LOW: i128 = 0x1_0000_0000_0000_0000;

/// What stands for an aggregate, in 16 bytes.
#[derive(Clone, Copy, PartialEq, Eq)]
pub(crate) enum KeptTotal {
    /// No value.
    Null,
    /// A number of up to 96 bits: they hold each sum of at most as many 64-bit numbers as a table has rows.
    Number {
        /// Its bits above the low 64.
        high: i32,
        /// Its low 64 bits.
        low: u64,
    },
    /// A text, by its code in its column.
    Code(u32),
}

// The number of these bits.
#[inline(always)]
pub(crate) fn wide(high: i32, low: u64) -> i128
    ensures { result ≡ wide high low }
{
    i128::from(high) * BEYOND_LOW + i128::from(low)
}

// The sum of two numbers, where 96 bits hold it.
#[inline(always)]
pub(crate) fn wide_sum(total: i128, more: i128) -> i128
    ensures { FitsSum (total +ℤ more) → result ≡ total +ℤ more }
{
    total.wrapping_add(more)
}

impl KeptTotal {
    // What stands for a number of up to 96 bits. A greater one would become another, but no caller has one: each has a
    // 64-bit number, or a sum of at most as many as a table has rows.
    #[inline(always)]
    pub(crate) fn of_number(number: i128) -> KeptTotal
        ensures number { FitsSum number → kept_total result ≡ kept.Number number }
        ensures kept { (values : List Cell) → IsKept values (kept_total result) }
    {
        KeptTotal::Number {
            high: i32::try_from(number >> 64).unwrap_or(0),
            low: (number.cast_unsigned() % BEYOND_LOW.cast_unsigned()) as u64,
        }
    }

    // What stands for the sum of a number of these bits and another.
    #[inline(always)]
    pub(crate) fn sum(high: i32, low: u64, more: i128) -> KeptTotal
        ensures number { FitsSum (wide high low +ℤ more) → kept_total result ≡ kept.Number (wide high low +ℤ more) }
        ensures kept { (values : List Cell) → IsKept values (kept_total result) }
    {
        KeptTotal::of_number(wide_sum(wide(high, low), more))
    }

    // What stands for a value, as that of an aggregate.
    #[inline(always)]
    pub(crate) fn of(cell: Kept) -> KeptTotal
        ensures { kept_total result ≡ cell }
    {
        match cell {
            Kept::Null => KeptTotal::Null,
            Kept::Number(number) => KeptTotal::of_number(i128::from(number)),
            Kept::Code(code) => KeptTotal::Code(code),
        }
    }
}
