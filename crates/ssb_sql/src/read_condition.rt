// Reading conditions. Only parentheses nest.

ghost use Rattle.std.specs.Prelude.{◌≡◌, [], ◌∷◌, Some};
ghost use Rattle.ssb_tokens.specs.Reading.{Gives, seen};
ghost use Rattle.ssb_sql.specs.Steps.{Makes, after, made_at, closed_at};
ghost use Rattle.ssb_sql.specs.ReadConditions.{neg_at, conj_at, cond_at, test_at};
ghost use Rattle.ssb_terms.specs.declared.keyword.Keyword.TheVariants as words;
ghost use Rattle.ssb_tokens.specs.declared.token.Sign.TheVariants as s;
ghost use Rattle.ssb_trees.specs.declared.condition.Condition.TheVariants as c;

use crate::chain::made;
use crate::read_parts::Subject;
use crate::read_test::bare;
use crate::steps::{Parsed, after, closing};
use sqlite_items::Boxed;
use ssb_terms::Keyword;
use ssb_tokens::{Mark, Sign, Stop, Token};
use ssb_trees::{Condition, Filter};
use std::alloc::Global;

#[cycle(condition)]
#[tactic(auto, unfolding(crate::specs::Steps::enclosed_at, crate::specs::Steps::closed_at))]
fn test<C: Subject>(alloc: Global, depth: usize, tokens: &[Token]) -> Parsed<'_, Filter<C>>
    ensures { Gives seen result (test_at (C.read_at depth) (cond_at C.read_at depth) tokens.now) }
{
    match after(tokens, Sign::Mark(Mark::Open)) {
        Some(inside) => {
            let (found, rest) = condition(alloc, depth, inside)?;
            closing(found, rest)
        }
        None => bare(alloc, depth, tokens),
    }
}

// A condition behind its NOT.
fn negated<C: Drop>(alloc: Global, found: Filter<C>, rest: &[Token]) -> Parsed<'_, Filter<C>>
    ensures { Gives seen result (Some (c.Not found, rest.now)) }
{
    Ok((Condition::Not(Boxed::new(alloc, found)?), rest))
}

#[cycle(condition)]
#[tactic(auto, unfolding(crate::specs::ReadConditions::neg_at))]
fn negation<C: Subject>(alloc: Global, depth: usize, tokens: &[Token]) -> Parsed<'_, Filter<C>>
    ensures { Gives seen result (neg_at (C.read_at depth) (cond_at C.read_at depth) tokens.now) }
{
    match after(tokens, Sign::Word(Keyword::Not)) {
        Some(rest) => {
            let (found, rest) = test(alloc, depth, rest)?;
            negated(alloc, found, rest)
        }
        None => test(alloc, depth, tokens),
    }
}

#[cycle(condition)]
#[tactic(auto, unfolding(crate::specs::ReadConditions::conj_at))]
fn conjunction<C: Subject>(alloc: Global, depth: usize, tokens: &[Token]) -> Parsed<'_, Filter<C>>
    ensures { Gives seen result (conj_at (C.read_at depth) (cond_at C.read_at depth) tokens.now) }
{
    made(
        alloc,
        Sign::Word(Keyword::And),
        tokens,
        Condition::All,
        |start: &[Token]|
            ensures { Gives seen result (neg_at (C.read_at depth) (cond_at C.read_at depth) start.now) }
        { negation(alloc, depth, start) },
    )
}

/// Reads a condition inside fewer than `depth` parentheses.
#[cycle(condition)]
#[tactic(auto, unfolding(crate::specs::ReadConditions::cond_at))]
pub(crate) fn condition<C: Subject>(
    alloc: Global,
    depth: usize,
    tokens: &[Token],
) -> Parsed<'_, Filter<C>>
    ensures { Gives seen result (cond_at C.read_at depth tokens.now) }
{
    if depth == 0 {
        return Err(Stop::Syntax);
    }
    let inside = depth - 1;
    made(
        alloc,
        Sign::Word(Keyword::Or),
        tokens,
        Condition::Any,
        |start: &[Token]|
            ensures { Gives seen result (conj_at (C.read_at inside) (cond_at C.read_at inside) start.now) }
        { conjunction(alloc, inside, start) },
    )
}
