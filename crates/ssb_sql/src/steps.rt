// What every reader of tokens is made of.

ghost use Rattle.std.specs.Prelude.{◌≡◌};
ghost use Rattle.std.specs.Option.{option_copied};
ghost use Rattle.ssb_tokens.specs.Reading.{Gives, seen};
ghost use Rattle.ssb_sql.specs.Steps.{followed_at, is_fixed, after, name_at, number_at, is_literal_next};
ghost use Rattle.ssb_tokens.specs.declared.token.Mark.TheVariants as marks;
ghost use Rattle.ssb_tokens.specs.declared.token.Sign.TheVariants as s;

use ssb_terms::Name;
use ssb_tokens::{Mark, Sign, Stop, Token};
use std::alloc::Global;

/// What was read, and the tokens behind it.
pub(crate) type Parsed<'a, T> = Result<(T, &'a [Token]), Stop>;

#[tactic(auto, unfolding(crate::specs::Steps::is_fixed, crate::specs::Steps::is_sign))]
pub(crate) fn is_fixed(token: &Token, sign: Sign) -> bool
    ensures { result ≡ is_fixed sign token.now }
{
    match token {
        Token::Fixed(found) => *found == sign,
        _ => false,
    }
}

// What follows the sign, where it comes next.
#[tactic(auto, unfolding(crate::specs::Steps::after))]
pub(crate) fn after(tokens: &[Token], sign: Sign) -> Option<&[Token]>
    ensures { option_copied result ≡ after sign tokens.now }
{
    match tokens {
        [token, rest @ ..] if is_fixed(token, sign) => Some(rest),
        _ => None,
    }
}

// What follows the sign, which has to come next.
pub(crate) fn expect(tokens: &[Token], sign: Sign) -> Result<&[Token], Stop>
    ensures { Gives (λ rest. rest.now) result (after sign tokens.now) }
{
    match after(tokens, sign) {
        Some(rest) => Ok(rest),
        None => Err(Stop::Syntax),
    }
}

// What was read, where the sign comes next.
pub(crate) fn followed<T: Drop>(found: T, sign: Sign, tokens: &[Token]) -> Parsed<'_, T>
    ensures { Gives seen result (followed_at found sign tokens.now) }
{
    let rest = expect(tokens, sign)?;
    Ok((found, rest))
}

// What was read, where a `)` comes next.
pub(crate) fn closing<T: Drop>(found: T, tokens: &[Token]) -> Parsed<'_, T>
    ensures { Gives seen result (followed_at found (s.Mark marks.Close) tokens.now) }
{
    followed(found, Sign::Mark(Mark::Close), tokens)
}

// Whether a literal comes next.
#[tactic(auto, unfolding(crate::specs::Steps::is_literal_next))]
pub(crate) fn is_literal_next(tokens: &[Token]) -> bool
    ensures { result ≡ is_literal_next tokens.now }
{
    match tokens {
        [Token::Number(_) | Token::Text(_), ..] => true,
        [Token::Fixed(Sign::Mark(Mark::Plus | Mark::Minus)), ..] => true,
        _ => false,
    }
}

#[tactic(auto, unfolding(crate::specs::Steps::name_at))]
pub(crate) fn name(alloc: Global, tokens: &[Token]) -> Parsed<'_, Name>
    ensures { Gives seen result (name_at tokens.now) }
{
    match tokens {
        [Token::Name(name), rest @ ..] => Ok((name.copy(alloc)?, rest)),
        _ => Err(Stop::Syntax),
    }
}

#[tactic(auto, unfolding(crate::specs::Steps::number_at))]
pub(crate) fn number(tokens: &[Token]) -> Parsed<'_, u64>
    ensures { Gives seen result (number_at tokens.now) }
{
    match tokens {
        [Token::Number(number), rest @ ..] => Ok((*number, rest)),
        _ => Err(Stop::Syntax),
    }
}
