// Digits, eight at a time, in the bytes of a word.

ghost use Rattle.std.specs.Prelude.{◌≡◌, ◌+◌, ◌≤◌, List, ℕ, IfSome, drop, length, take, true};
ghost use Rattle.std.specs.Simd.Lanes.{number_l};
ghost use Rattle.core.specs.Dec2flt.Digits.{IsEightBytes};
ghost use Rattle.core.specs.Float.Numeral.{digits_len};
ghost use Rattle.std.specs.Str.{all_ascii_digits};
ghost use Rattle.std.specs.Str.Parse.{digits_value};

// Four bytes from a place on, the first of them in the lowest bits.
#[inline(always)]
fn four_bytes(bytes: &[u8], at: usize) -> u64
    requires { at + 4 ≤ length bytes.now }
    ensures { result ≡ number_l 256 (take 4 (drop at bytes.now)) }
{
    u64::from(bytes[at])
        + (u64::from(bytes[at + 1]) << 8)
        + (u64::from(bytes[at + 2]) << 16)
        + (u64::from(bytes[at + 3]) << 24)
}

// Four to eight bytes as a word, the first of them in the lowest bits: the first four, and behind them what
// the last four have more.
#[inline(always)]
fn word_of(bytes: &[u8]) -> u64
    requires { (4 ≤ length bytes.now) × (length bytes.now ≤ 8) }
    ensures { result ≡ number_l 256 bytes.now }
{
    let count = bytes.len();
    let last = four_bytes(bytes, count - 4);
    four_bytes(bytes, 0) + ((last >> (8 * (8 - count))) << 32)
}

// The number that a word's first bytes spell, where so many and no more are digits.
#[inline(always)]
fn number_in_word(word: u64, count: usize) -> Option<u64>
    requires { (1 ≤ count) × (count ≤ 8) }
    ensures { IfSome result (λ value. (xs : List ℕ) → IsEightBytes xs → word ≡ number_l 256 xs → (digits_len xs ≡ count) × (value ≡ digits_value 10 (take count xs))) }
{
    // A digit is a lane below ten.
    let lanes = word ^ 0x3030_3030_3030_3030;
    let others = ((lanes & 0x7f7f_7f7f_7f7f_7f7f) + 0x7676_7676_7676_7676 | lanes)
        & 0x8080_8080_8080_8080;
    if (others.trailing_zeros() / 8) as usize != count {
        return None;
    }
    // The digits moved up to the last lanes, behind zeros; then pairs, fours and all eight.
    let digits = lanes << (8 * (8 - count));
    let pairs = digits.wrapping_mul(10).wrapping_add(digits >> 8);
    let first = (pairs & 0x0000_00ff_0000_00ff).wrapping_mul(100 + (1_000_000 << 32));
    let second = ((pairs >> 16) & 0x0000_00ff_0000_00ff).wrapping_mul(1 + (10_000 << 32));
    Some(first.wrapping_add(second) >> 32)
}

// The number that four to eight digits spell; none where another byte stands among them.
#[inline(always)]
pub(crate) fn few_digits(bytes: &[u8]) -> Option<u64>
    requires { (4 ≤ length bytes.now) × (length bytes.now ≤ 8) }
    ensures { IfSome result (λ value. (all_ascii_digits bytes.now ≡ true) × (value ≡ digits_value 10 bytes.now)) }
{
    number_in_word(word_of(bytes), bytes.len())
}
