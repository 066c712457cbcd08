// Numbers in decimal.

ghost use Rattle.std.specs.Prelude.{◌≡◌, ◌<◌, Some, IfSome};
ghost use Rattle.ssb_load.specs.Numbers.{number_of};

use crate::digits::few_digits;

/// The number that a text spells.
pub fn number(text: &str) -> Option<i64>
    ensures { result ≡ number_of text.now }
{
    match short_number(text.as_bytes()) {
        Some(value) => Some(value),
        None => any_number(text),
    }
}

// The number that up to 18 digits spell. None may be another number.
#[inline(always)]
fn short_number(bytes: &[u8]) -> Option<i64>
    ensures { IfSome result (λ n. number_of bytes.now ≡ Some n) }
{
    let count = bytes.len();
    if count >= 4 && count <= 8 {
        return i64::try_from(few_digits(bytes)?).ok();
    }
    if count == 0 || count > 18 {
        return None;
    }
    let mut value: u64 = 0;
    for k in 0..count {
        let byte = bytes[k];
        if byte < 48 || byte > 57 {
            return None;
        }
        value = value * 10 + u64::from(byte - 48);
    }
    i64::try_from(value).ok()
}

#[cold]
#[inline(never)]
fn any_number(text: &str) -> Option<i64>
    ensures { result ≡ number_of text.now }
{
    let bytes = text.as_bytes();
    if bytes.is_empty() {
        return None;
    }
    if bytes[0] == b'+' {
        return None;
    }
    text.parse::<i64>().ok()
}
