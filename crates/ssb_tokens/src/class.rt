// What the first byte of a token says.

ghost use Rattle.std.specs.Prelude.{◌≡◌};
ghost use Rattle.ssb_tokens.specs.Class.{class_of};

use crate::token::Mark;

/// What token may begin with a byte.
#[derive(Clone, Copy)]
pub(crate) enum Class {
    /// A word.
    Letter,
    /// A number.
    Digit,
    /// A text.
    Quote,
    /// The mark of this byte alone, or a longer one.
    Mark(Mark),
    /// None.
    Other,
}

/// What token may begin with a byte.
pub(crate) fn class_of(byte: u8) -> Class
    ensures { result ≡ class_of byte }
{
    match byte {
        b'a'..=b'z' | b'A'..=b'Z' => Class::Letter,
        b'0'..=b'9' => Class::Digit,
        b'\'' => Class::Quote,
        b'(' => Class::Mark(Mark::Open),
        b')' => Class::Mark(Mark::Close),
        b',' => Class::Mark(Mark::Comma),
        b'.' => Class::Mark(Mark::Dot),
        b';' => Class::Mark(Mark::Semicolon),
        b'+' => Class::Mark(Mark::Plus),
        b'-' => Class::Mark(Mark::Minus),
        b'*' => Class::Mark(Mark::Times),
        b'=' => Class::Mark(Mark::Equal),
        b'<' => Class::Mark(Mark::Less),
        b'>' => Class::Mark(Mark::Greater),
        _ => Class::Other,
    }
}
