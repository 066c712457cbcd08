// The list of tokens of a text.

ghost use Rattle.std.specs.Prelude.{◌≡◌, true};
ghost use Rattle.std.specs.Char.{is_ascii_alphabetic};
ghost use Rattle.std.specs.Str.{IsUtf8};
ghost use Rattle.ssb_tokens.specs.Tokens.{begins};
ghost use Rattle.ssb_tokens.specs.Reading.{Gives, seen};
ghost use Rattle.ssb_tokens.specs.Scanning.{CutsAtQuotes, greater_at, less_at, mark_at, number_at, text_token_at, token_at, word_at};
ghost use Rattle.ssb_tokens.specs.Lexes.{Lexes, OneListOfTokens};

use crate::class::{Class, class_of};
use crate::scan::{TOO_LARGE, begins_with_word_byte, next, number, skip, text, word};
use crate::stop::Stop;
use crate::token::{Mark, Sign, Token};
use sqlite_items::Items;
use ssb_terms::{Name, Text, keyword_of};
use std::alloc::Global;

// The word in front: a reserved word or a name.
#[tactic(auto, unfolding(crate::specs::Scanning::word_at))]
fn word_token(alloc: Global, bytes: &[u8]) -> Result<(Token, &[u8]), Stop>
    requires { begins is_ascii_alphabetic bytes.now ≡ true }
    ensures { Gives seen result (word_at bytes.now) }
{
    let (word, rest) = word(bytes);
    if let Some(keyword) = keyword_of(word) {
        return Ok((Token::Fixed(Sign::Word(keyword)), rest));
    }
    let name = Name::new(alloc, word)?;
    Ok((Token::Name(name), rest))
}

// The number in front.
#[tactic(auto, using(crate::proofs::TokenFront::number_fits, crate::proofs::TokenFront::number_large, crate::proofs::TokenFront::number_in_word))]
fn number_token(bytes: &[u8]) -> Result<(Token, &[u8]), Stop>
    ensures { Gives seen result (number_at bytes.now) }
{
    let (value, rest) = number(bytes);
    if begins_with_word_byte(rest) {
        return Err(Stop::Syntax);
    }
    if value >= TOO_LARGE {
        return Err(Stop::Syntax);
    }
    Ok((Token::Number(value as u64), rest))
}

// The text whose first quote came just before.
#[tactic(auto, unfolding(crate::specs::Scanning::text_token_at))]
fn text_token(alloc: Global, bytes: &[u8]) -> Result<(Token, &[u8]), Stop>
    requires { IsUtf8 bytes.now }
    ensures { Gives seen result (text_token_at bytes.now) }
{
    let (letters, rest) = text(alloc, bytes)?;
    let Ok(letters) = String::from_utf8(letters) else {
        unreachable!()
    };
    Ok((Token::Text(Text::new(letters)), rest))
}

// The mark that begins with `<`, behind it.
#[tactic(auto, unfolding(crate::specs::Scanning::less_at))]
fn less(bytes: &[u8]) -> (Token, &[u8])
    ensures { seen result ≡ less_at bytes.now }
{
    match next(bytes) {
        Some((byte, rest)) if byte == b'=' => (Token::Fixed(Sign::Mark(Mark::LessEqual)), rest),
        Some((byte, rest)) if byte == b'>' => (Token::Fixed(Sign::Mark(Mark::NotEqual)), rest),
        _ => (Token::Fixed(Sign::Mark(Mark::Less)), bytes),
    }
}

// The mark that begins with `>`, behind it.
#[tactic(auto, unfolding(crate::specs::Scanning::greater_at))]
fn greater(bytes: &[u8]) -> (Token, &[u8])
    ensures { seen result ≡ greater_at bytes.now }
{
    match next(bytes) {
        Some((byte, rest)) if byte == b'=' => (Token::Fixed(Sign::Mark(Mark::GreaterEqual)), rest),
        _ => (Token::Fixed(Sign::Mark(Mark::Greater)), bytes),
    }
}

// The mark that begins with this one, which is one byte long, behind that byte.
fn mark(mark: Mark, bytes: &[u8]) -> (Token, &[u8])
    ensures { seen result ≡ mark_at mark bytes.now }
{
    match mark {
        Mark::Less => less(bytes),
        Mark::Greater => greater(bytes),
        _ => (Token::Fixed(Sign::Mark(mark)), bytes),
    }
}

// The token in front.
fn token(alloc: Global, bytes: &[u8]) -> Result<(Token, &[u8]), Stop>
    requires { CutsAtQuotes bytes.now }
    ensures { Gives seen result (token_at bytes.now) }
{
    let Some((byte, rest)) = next(bytes) else {
        return Err(Stop::Syntax);
    };
    match class_of(byte) {
        Class::Letter => word_token(alloc, bytes),
        Class::Digit => number_token(bytes),
        Class::Quote => text_token(alloc, rest),
        Class::Mark(first) => Ok(mark(first, rest)),
        Class::Other => Err(Stop::Syntax),
    }
}

/// A text's tokens (SQL-92, 5.2); `Syntax` where it is no list of them, `Memory` where a growth was refused.
pub fn lex(alloc: Global, text: &str) -> Result<Items<Token>, Stop>
    ensures { Lexes text.now result }
{
    let mut tokens = Items::new(alloc);
    let mut rest = skip(text.as_bytes());
    while !rest.is_empty() {
        let (found, after) = token(alloc, rest)?;
        tokens.push(found)?;
        rest = skip(after);
    }
    Ok(tokens)
}

/// A text is at most one list of tokens.
pub fn one_list_of_tokens()
    ensures { OneListOfTokens }
{}
