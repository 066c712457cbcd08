// Reading expressions. Only parentheses nest.

ghost use Rattle.std.specs.Prelude.{◌≡◌, [], ◌∷◌, Some};
ghost use Rattle.ssb_sql.specs.Expressions.{sum_of};
ghost use Rattle.ssb_tokens.specs.Reading.{Gives, seen, seen_if};
ghost use Rattle.ssb_sql.specs.Steps.{Makes, after, made_at, more_at, closed_at};
ghost use Rattle.ssb_sql.specs.ReadExpressions.{bare_primary_at, primary_at, adding_at, signed, factor_at, term_at, step_at, expr_at};
ghost use Rattle.ssb_tokens.specs.declared.token.Mark.TheVariants as marks;
ghost use Rattle.ssb_tokens.specs.declared.token.Sign.TheVariants as s;

use crate::chain::made;
use crate::named::ColumnName;
use crate::read_parts::column;
use crate::steps::{Parsed, after, closing};
use sqlite_items::{Boxed, Items};
use ssb_terms::Adding;
use ssb_tokens::{Mark, Sign, Stop, Token};
use ssb_trees::{Expr, Step};
use std::alloc::Global;

#[tactic(auto, using(crate::proofs::Chains::sum_one, crate::proofs::Chains::sum_many))]
fn sum_of(
    alloc: Global,
    first: Expr<ColumnName>,
    steps: Items<Step<ColumnName>>,
    rest: &[Token],
) -> Parsed<'_, Expr<ColumnName>>
    ensures { Gives seen result (Some (sum_of first steps, rest.now)) }
{
    if steps.len() == 0 {
        Ok((first, rest))
    } else {
        Ok((Expr::Chain(Boxed::new(alloc, first)?, steps), rest))
    }
}

#[tactic(auto, unfolding(crate::specs::ReadExpressions::bare_primary_at))]
fn bare_primary(alloc: Global, tokens: &[Token]) -> Parsed<'_, Expr<ColumnName>>
    ensures { Gives seen result (bare_primary_at tokens.now) }
{
    match tokens {
        [Token::Number(number), rest @ ..] => Ok((Expr::Number(*number), rest)),
        _ => {
            let (column, rest) = column(alloc, tokens)?;
            Ok((Expr::Column(column), rest))
        }
    }
}

// Whether one more term follows, and how it is joined.
#[tactic(auto, unfolding(crate::specs::ReadExpressions::adding_at))]
fn adding(tokens: &[Token]) -> Option<(Adding, &[Token])>
    ensures { seen_if result ≡ adding_at tokens.now }
{
    match after(tokens, Sign::Mark(Mark::Plus)) {
        Some(rest) => Some((Adding::Plus, rest)),
        None => match after(tokens, Sign::Mark(Mark::Minus)) {
            Some(rest) => Some((Adding::Minus, rest)),
            None => None,
        },
    }
}

// A factor with its sign.
fn signed(
    alloc: Global,
    sign: Adding,
    found: Expr<ColumnName>,
    rest: &[Token],
) -> Parsed<'_, Expr<ColumnName>>
    ensures { Gives seen result (Some (signed sign found, rest.now)) }
{
    let inner = Boxed::new(alloc, found)?;
    match sign {
        Adding::Plus => Ok((Expr::Positive(inner), rest)),
        Adding::Minus => Ok((Expr::Negative(inner), rest)),
    }
}

#[cycle(expression)]
#[tactic(auto, unfolding(crate::specs::Steps::enclosed_at, crate::specs::Steps::closed_at))]
fn primary(alloc: Global, depth: usize, tokens: &[Token]) -> Parsed<'_, Expr<ColumnName>>
    ensures { Gives seen result (primary_at (expr_at depth) tokens.now) }
{
    match after(tokens, Sign::Mark(Mark::Open)) {
        Some(inside) => {
            let (found, rest) = expression(alloc, depth, inside)?;
            closing(found, rest)
        }
        None => bare_primary(alloc, tokens),
    }
}

#[cycle(expression)]
#[tactic(auto, unfolding(crate::specs::ReadExpressions::factor_at))]
fn factor(alloc: Global, depth: usize, tokens: &[Token]) -> Parsed<'_, Expr<ColumnName>>
    ensures { Gives seen result (factor_at (expr_at depth) tokens.now) }
{
    match adding(tokens) {
        Some((sign, rest)) => {
            let (found, rest) = primary(alloc, depth, rest)?;
            signed(alloc, sign, found, rest)
        }
        None => primary(alloc, depth, tokens),
    }
}

#[cycle(expression)]
fn term(alloc: Global, depth: usize, tokens: &[Token]) -> Parsed<'_, Expr<ColumnName>>
    ensures { Gives seen result (term_at (expr_at depth) tokens.now) }
{
    made(
        alloc,
        Sign::Mark(Mark::Times),
        tokens,
        Expr::Times,
        |start: &[Token]|
            ensures { Gives seen result (factor_at (expr_at depth) start.now) }
        { factor(alloc, depth, start) },
    )
}

#[cycle(expression)]
fn more_terms(alloc: Global, depth: usize, tokens: &[Token]) -> Parsed<'_, Items<Step<ColumnName>>>
    ensures { Gives seen result (more_at adding_at (step_at (expr_at depth)) [] tokens.now) }
{
    let mut all = Items::new(alloc);
    let mut rest = tokens;
    while let Some((adding, start)) = adding(rest) {
        let (term, end) = term(alloc, depth, start)?;
        all.push(Step { adding, term })?;
        rest = end;
    }
    Ok((all, rest))
}

/// Reads an expression inside fewer than `depth` parentheses.
#[cycle(expression)]
#[tactic(auto, unfolding(crate::specs::ReadExpressions::expr_at))]
pub(crate) fn expression(
    alloc: Global,
    depth: usize,
    tokens: &[Token],
) -> Parsed<'_, Expr<ColumnName>>
    ensures { Gives seen result (expr_at depth tokens.now) }
{
    if depth == 0 {
        return Err(Stop::Syntax);
    }
    let (first, rest) = term(alloc, depth - 1, tokens)?;
    let (steps, rest) = more_terms(alloc, depth - 1, rest)?;
    sum_of(alloc, first, steps, rest)
}
