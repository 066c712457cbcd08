// Parts of tokens.

ghost use Rattle.std.specs.Prelude.{◌≡◌, ◌^◌, false, min, Some, [], ◌∷◌, ◌++◌, OnOk};
ghost use Rattle.std.specs.Char.{is_ascii_digit};
ghost use Rattle.ssb_terms.specs.Names.{is_word_byte};
ghost use Rattle.ssb_tokens.specs.Tokens.{begins, is_blank, is_dash, value_of};
ghost use Rattle.ssb_tokens.specs.Reading.{Gives, seen, seen_if};
ghost use Rattle.ssb_tokens.specs.Scanning.{closing_at, first, first_if, past, piece_at, run, skip, skip_step, text_at};

use crate::stop::Stop;
use ssb_terms::is_word_byte;
use std::alloc::{AllocError, Global};

/// The first byte, and what follows it.
pub(crate) fn next(bytes: &[u8]) -> Option<(u8, &[u8])>
    ensures { seen_if result ≡ first bytes.now }
{
    match bytes {
        [byte, rest @ ..] => Some((*byte, rest)),
        [] => None,
    }
}

fn begins_with_dash(bytes: &[u8]) -> bool
    ensures { result ≡ begins is_dash bytes.now }
{
    match next(bytes) {
        Some((byte, _rest)) => byte == b'-',
        None => false,
    }
}

/// Whether the next byte may stand in a word.
pub(crate) fn begins_with_word_byte(bytes: &[u8]) -> bool
    ensures { result ≡ begins is_word_byte bytes.now }
{
    match next(bytes) {
        Some((byte, _rest)) => is_word_byte(byte),
        None => false,
    }
}

fn is_blank(byte: u8) -> bool
    ensures { result ≡ is_blank byte }
{
    byte == b' ' || byte == b'\t' || byte == b'\n' || byte == b'\r'
}

// Whether a comment goes on behind a byte, or None where no separator begins there.
#[tactic(auto, unfolding(crate::specs::Scanning::skip_step))]
fn skip_step(in_comment: bool, byte: u8, rest: &[u8]) -> Option<bool>
    ensures { result ≡ skip_step in_comment byte rest.now }
{
    if in_comment {
        Some(byte != b'\n')
    } else if is_blank(byte) {
        Some(false)
    } else if byte == b'-' && begins_with_dash(rest) {
        Some(true)
    } else {
        None
    }
}

/// What follows the separators.
pub(crate) fn skip(bytes: &[u8]) -> &[u8]
    ensures { result.now ≡ skip false bytes.now }
{
    let mut rest = bytes;
    let mut in_comment = false;
    while let Some((byte, after)) = next(rest) {
        let Some(goes_on) = skip_step(in_comment, byte, after) else {
            return rest;
        };
        in_comment = goes_on;
        rest = after;
    }
    rest
}

fn next_word_byte(bytes: &[u8]) -> Option<(u8, &[u8])>
    ensures { seen_if result ≡ first_if is_word_byte bytes.now }
{
    match bytes {
        [byte, rest @ ..] if is_word_byte(*byte) => Some((*byte, rest)),
        _ => None,
    }
}

fn next_digit(bytes: &[u8]) -> Option<(u8, &[u8])>
    ensures { seen_if result ≡ first_if is_ascii_digit bytes.now }
{
    match bytes {
        [byte, rest @ ..] if byte.is_ascii_digit() => Some((*byte, rest)),
        _ => None,
    }
}

fn past_word(bytes: &[u8]) -> &[u8]
    ensures { result.now ≡ past is_word_byte bytes.now }
{
    let mut rest = bytes;
    while let Some((_byte, after)) = next_word_byte(rest) {
        rest = after;
    }
    rest
}

/// The letters, digits and `_` in front, and what follows them.
pub(crate) fn word(bytes: &[u8]) -> (&[u8], &[u8])
    ensures word { result.0.now ≡ run is_word_byte bytes.now }
    ensures rest { result.1.now ≡ past is_word_byte bytes.now }
{
    let rest = past_word(bytes);
    (&bytes[..bytes.len() - rest.len()], rest)
}

/// The least number that is too large.
pub(crate) const TOO_LARGE: u128 = 1 << 63;

/// The value of the digits in front, or 2 ^ 63 where it is larger, and what follows them.
pub(crate) fn number(bytes: &[u8]) -> (u128, &[u8])
    ensures value { result.0 ≡ min (value_of (run is_ascii_digit bytes.now)) (2 ^ 63) }
    ensures rest { result.1.now ≡ past is_ascii_digit bytes.now }
{
    let mut value = 0;
    let mut rest = bytes;
    while let Some((byte, after)) = next_digit(rest) {
        value = (10 * value + u128::from(byte.saturating_sub(b'0'))).min(TOO_LARGE);
        rest = after;
    }
    (value, rest)
}

// What stands behind a quote in a text: another quote, which is a byte of the text, or its end.
fn closing(bytes: &[u8]) -> (Option<u8>, &[u8])
    ensures { Some (seen result) ≡ closing_at bytes.now }
{
    match next(bytes) {
        Some((byte, rest)) if byte == b'\'' => (Some(byte), rest),
        _ => (None, bytes),
    }
}

// The next byte of a text, or its end.
#[tactic(auto, unfolding(crate::specs::Scanning::piece_at))]
fn next_piece(bytes: &[u8]) -> Option<(Option<u8>, &[u8])>
    ensures { seen_if result ≡ piece_at bytes.now }
{
    match bytes {
        [b'\'', rest @ ..] => Some(closing(rest)),
        [byte, rest @ ..] => Some((Some(*byte), rest)),
        [] => None,
    }
}

fn push(bytes: &mut Vec<u8>, byte: u8) -> Result<(), AllocError>
    ensures { OnOk result (bytes.new.items ≡ bytes.old.items ++ byte ∷ []) }
{
    bytes.push(byte)?;
    Ok(())
}

/// The text whose first quote came just before, and what follows it.
pub(crate) fn text(alloc: Global, bytes: &[u8]) -> Result<(Vec<u8>, &[u8]), Stop>
    ensures { Gives (λ x. (x.0.items, x.1.now)) result (text_at false bytes.now) }
{
    let mut text = Vec::new(alloc);
    let mut rest = bytes;
    while let Some((piece, after)) = next_piece(rest) {
        let Some(byte) = piece else {
            return Ok((text, after));
        };
        push(&mut text, byte)?;
        rest = after;
    }
    Err(Stop::Syntax)
}
