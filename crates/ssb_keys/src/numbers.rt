// The values of several columns, as one number.

ghost use Rattle.std.specs.Prelude.{◌≡◌, ◌+◌, ◌*◌};
ghost use Rattle.ssb_keys.specs.Domains.{HasDigit, digit, radix};

use crate::domain::Domain;
use crate::kept::Kept;

/// The number that has the digit of a value below the digits of another, where a domain has the value and there are at
/// most 2^62 numbers.
#[inline(always)]
pub fn add_digit(domain: Domain, number: u64, cell: Kept) -> u64
    ensures { HasDigit domain number cell → result ≡ number * radix domain + digit domain cell }
{
    match (domain, cell) {
        (Domain::Numbers { least, radix }, Kept::Number(value)) => {
            let beyond = value.wrapping_sub(least).cast_unsigned();
            number
                .wrapping_mul(radix)
                .wrapping_add(beyond.wrapping_add(1))
        }
        (Domain::Codes { radix }, Kept::Code(code)) => {
            number.wrapping_mul(radix).wrapping_add(u64::from(code) + 1)
        }
        (Domain::Numbers { least: _, radix } | Domain::Codes { radix }, _) => {
            number.wrapping_mul(radix)
        }
    }
}
