// The values that a column may have, as numbers.

ghost use Rattle.std.specs.Prelude.{◌≡◌, ◌<◌, ◌≤◌, ◌^◌};
ghost use Rattle.ssb_keys.specs.Domains as spec;
ghost use Rattle.ssb_keys.specs.Domains.{IsLawful};

use crate::kept::Kept;

/// The values that a column may have, as the numbers below its radix: 0 for null, and the others from 1 on.
#[derive(Clone, Copy)]
pub enum Domain {
    /// Numbers, from the least one on.
    Numbers {
        /// The least.
        least: i64,
        /// How many there are, and null.
        radix: u64,
    },
    /// Texts, by their codes.
    Codes {
        /// How many there are, and null.
        radix: u64,
    },
}

impl Domain {
    /// How many values there are, null included.
    pub fn radix(self) -> u64
        ensures { result ≡ spec.radix self }
    {
        match self {
            Domain::Numbers { least: _, radix } => radix,
            Domain::Codes { radix } => radix,
        }
    }

    /// The value of a number.
    pub fn cell(self, digit: u64) -> Kept
        requires lawful { IsLawful self }
        requires below { digit < spec.radix self }
        ensures { result ≡ spec.cell self digit }
    {
        if digit == 0 {
            return Kept::Null;
        }
        let beyond = digit - 1;
        match self {
            Domain::Numbers { least, radix: _ } => Kept::Number(least.wrapping_add_unsigned(
                beyond,
            )),
            Domain::Codes { radix: _ } => Kept::Code(beyond as u32),
        }
    }
}
