// Reading columns, literals and operands.

ghost use Rattle.std.specs.Prelude.{◌≡◌, ℕ, ◌∷◌, [], length, ◌<◌};
ghost use Rattle.ssb_tokens.specs.Reading.{Gives, seen};
ghost use Rattle.ssb_sql.specs.Steps.{Parser, after, list_at, name_at, nonempty_at};
ghost use Rattle.ssb_sql.specs.ReadParts.{column_at, small_literal_at, below_literal_at, plain_literal_at, literal_at, operand_at};
ghost use Rattle.ssb_tokens.specs.declared.token.Sign.TheVariants as s;

use crate::named::ColumnName;
use crate::steps::{Parsed, after, is_literal_next, name, number};
use ssb_terms::Literal;
use ssb_tokens::{Mark, Sign, Stop, Token};
use ssb_trees::Operand;
use std::alloc::Global;

#[tactic(auto, unfolding(crate::specs::ReadParts::column_at))]
pub(crate) fn column(alloc: Global, tokens: &[Token]) -> Parsed<'_, ColumnName>
    ensures { Gives seen result (column_at tokens.now) }
{
    let (found, rest) = name(alloc, tokens)?;
    match after(rest, Sign::Mark(Mark::Dot)) {
        Some(rest) => {
            let (column, rest) = name(alloc, rest)?;
            let table = Some(found);
            Ok((ColumnName { table, column }, rest))
        }
        None => {
            let (table, column) = (None, found);
            Ok((ColumnName { table, column }, rest))
        }
    }
}

// A number that fits in 64 bits with a sign.
#[tactic(auto, unfolding(crate::specs::ReadParts::small_at))]
fn small(tokens: &[Token]) -> Parsed<'_, Literal>
    ensures { Gives seen result (small_literal_at tokens.now) }
{
    let (found, rest) = number(tokens)?;
    if found <= 9223372036854775807 {
        Ok((Literal::Number(found as i64), rest))
    } else {
        Err(Stop::Syntax)
    }
}

// A number as it stands behind a `-`: one of 0 or below that fits in 64 bits with a sign.
#[tactic(auto, unfolding(crate::specs::ReadParts::below_at))]
fn below(tokens: &[Token]) -> Parsed<'_, Literal>
    ensures { Gives seen result (below_literal_at tokens.now) }
{
    let (found, rest) = number(tokens)?;
    if found <= 9223372036854775807 {
        Ok((Literal::Number(-(found as i64)), rest))
    } else {
        Err(Stop::Syntax)
    }
}

#[tactic(auto, unfolding(crate::specs::ReadParts::plain_literal_at))]
fn plain_literal(alloc: Global, tokens: &[Token]) -> Parsed<'_, Literal>
    ensures { Gives seen result (plain_literal_at tokens.now) }
{
    match tokens {
        [Token::Text(text), rest @ ..] => Ok((Literal::Text(text.copy(alloc)?), rest)),
        _ => small(tokens),
    }
}

#[tactic(auto, unfolding(crate::specs::ReadParts::literal_at))]
pub(crate) fn literal(alloc: Global, tokens: &[Token]) -> Parsed<'_, Literal>
    ensures { Gives seen result (literal_at tokens.now) }
{
    if let Some(rest) = after(tokens, Sign::Mark(Mark::Plus)) {
        return small(rest);
    }
    if let Some(rest) = after(tokens, Sign::Mark(Mark::Minus)) {
        return below(rest);
    }
    plain_literal(alloc, tokens)
}

/// What may stand in a test beside literals: a column in WHERE, in HAVING an aggregate too.
pub(crate) trait Subject: Drop {
    /// How it is read where at most so many more parentheses may be opened.
    ghost read_at: { ℕ → Parser Self };

    /// Reads it. It is one token at least, so that a chain of tests comes to its end.
    fn read(alloc: Global, depth: usize, tokens: &[Token]) -> Parsed<'_, Self>
        ensures { Gives seen result (nonempty_at (read_at depth) tokens.now) };
}

impl Subject for ColumnName {
    ghost read_at = { λ depth. column_at };

    fn read(alloc: Global, _depth: usize, tokens: &[Token]) -> Parsed<'_, ColumnName> {
        column(alloc, tokens)
    }
}

#[tactic(auto, unfolding(crate::specs::ReadParts::operand_at))]
pub(crate) fn operand<C: Subject>(
    alloc: Global,
    depth: usize,
    tokens: &[Token],
) -> Parsed<'_, Operand<C>>
    ensures { Gives seen result (operand_at (C.read_at depth) tokens.now) }
{
    if is_literal_next(tokens) {
        let (literal, rest) = literal(alloc, tokens)?;
        Ok((Operand::Literal(literal), rest))
    } else {
        let (found, rest) = C::read(alloc, depth, tokens)?;
        Ok((Operand::Column(found), rest))
    }
}
