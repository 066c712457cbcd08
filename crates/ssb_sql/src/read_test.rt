// Reading tests that have no parentheses round them.

ghost use Rattle.std.specs.Prelude.{◌≡◌, [], ◌∷◌};
ghost use Rattle.ssb_tokens.specs.Reading.{Gives, seen, seen_if};
ghost use Rattle.ssb_sql.specs.Steps.{after, more_at, list_at};
ghost use Rattle.ssb_sql.specs.ReadParts.{literal_at, operand_at};
ghost use Rattle.ssb_sql.specs.ReadConditions.{op_of, op_at, limits_at, among_at, range_at, null_of, nulled_at, null_at, compared_at, tail_at, bare_at};
ghost use Rattle.ssb_tokens.specs.declared.token.Sign.TheVariants as s;

use crate::chain::{COMMA, chain};
use crate::read_parts::{Subject, literal, operand};
use crate::steps::{Parsed, after, closing, expect, followed};
use sqlite_items::Items;
use ssb_terms::{Keyword, Literal, Op};
use ssb_tokens::{Mark, Sign, Stop, Token};
use ssb_trees::{Condition, Filter, Operand};
use std::alloc::Global;

fn op_of(mark: Mark) -> Option<Op>
    ensures { result ≡ op_of mark }
{
    match mark {
        Mark::Equal => Some(Op::Eq),
        Mark::NotEqual => Some(Op::Ne),
        Mark::Less => Some(Op::Lt),
        Mark::LessEqual => Some(Op::Le),
        Mark::Greater => Some(Op::Gt),
        Mark::GreaterEqual => Some(Op::Ge),
        _ => None,
    }
}

#[tactic(auto, unfolding(crate::specs::ReadConditions::op_at))]
fn op(tokens: &[Token]) -> Option<(Op, &[Token])>
    ensures { seen_if result ≡ op_at tokens.now }
{
    match tokens {
        [Token::Fixed(Sign::Mark(mark)), rest @ ..] => Some((op_of(*mark)?, rest)),
        _ => None,
    }
}

// The two limits of a BETWEEN and the AND between them.
#[tactic(auto, unfolding(crate::specs::ReadConditions::limits_at))]
fn limits<C: Subject>(
    alloc: Global,
    depth: usize,
    tokens: &[Token],
) -> Parsed<'_, (Operand<C>, Operand<C>)>
    ensures { Gives seen result (limits_at (C.read_at depth) tokens.now) }
{
    let (low, rest) = operand(alloc, depth, tokens)?;
    let (low, rest) = followed(low, Sign::Word(Keyword::And), rest)?;
    let (high, rest) = operand(alloc, depth, rest)?;
    Ok(((low, high), rest))
}

// IN and the literals in its parentheses.
#[tactic(auto, unfolding(crate::specs::ReadConditions::among_at, crate::specs::Steps::parens_at, crate::specs::Steps::closed_at), using(crate::proofs::PartFacts::literal_shrinks))]
fn among(alloc: Global, tokens: &[Token]) -> Parsed<'_, Items<Literal>>
    ensures { Gives seen result (among_at tokens.now) }
{
    let rest = expect(tokens, Sign::Word(Keyword::In))?;
    let inside = expect(rest, Sign::Mark(Mark::Open))?;
    let (found, rest) = chain(
        alloc,
        COMMA,
        inside,
        |start: &[Token]| literal(alloc, start),
    )?;
    closing(found, rest)
}

// BETWEEN or IN, after the operand and a NOT if there is one.
#[tactic(auto, unfolding(crate::specs::ReadConditions::range_at))]
fn range<C: Subject>(
    alloc: Global,
    depth: usize,
    negated: bool,
    operand: Operand<C>,
    tokens: &[Token],
) -> Parsed<'_, Filter<C>>
    ensures { Gives seen result (range_at (C.read_at depth) negated operand tokens.now) }
{
    match after(tokens, Sign::Word(Keyword::Between)) {
        Some(rest) => {
            let ((low, high), rest) = limits(alloc, depth, rest)?;
            let found = Condition::Between {
                operand,
                low,
                high,
                negated,
            };
            Ok((found, rest))
        }
        None => {
            let (literals, rest) = among(alloc, tokens)?;
            let found = Condition::In {
                operand,
                literals,
                negated,
            };
            Ok((found, rest))
        }
    }
}

fn null_of<C: Drop>(negated: bool, operand: Operand<C>) -> Option<Filter<C>>
    ensures { result ≡ null_of negated operand }
{
    match &operand {
        Operand::Column(_) => Some(Condition::IsNull { operand, negated }),
        Operand::Literal(_) => None,
    }
}

// NULL, after the operand, IS and a NOT if there is one.
#[tactic(auto, unfolding(crate::specs::ReadConditions::nulled_at))]
fn nulled<C: Drop>(negated: bool, operand: Operand<C>, tokens: &[Token]) -> Parsed<'_, Filter<C>>
    ensures { Gives seen result (nulled_at negated operand tokens.now) }
{
    let (operand, rest) = followed(operand, Sign::Word(Keyword::Null), tokens)?;
    match null_of(negated, operand) {
        Some(found) => Ok((found, rest)),
        None => Err(Stop::Syntax),
    }
}

// [NOT] NULL, after the operand and IS.
#[tactic(auto, unfolding(crate::specs::ReadConditions::null_at))]
fn null<C: Drop>(operand: Operand<C>, tokens: &[Token]) -> Parsed<'_, Filter<C>>
    ensures { Gives seen result (null_at operand tokens.now) }
{
    match after(tokens, Sign::Word(Keyword::Not)) {
        Some(rest) => nulled(true, operand, rest),
        None => nulled(false, operand, tokens),
    }
}

// An operator and an operand, or BETWEEN or IN.
#[tactic(auto, unfolding(crate::specs::ReadConditions::compared_at))]
fn compared<C: Subject>(
    alloc: Global,
    depth: usize,
    left: Operand<C>,
    tokens: &[Token],
) -> Parsed<'_, Filter<C>>
    ensures { Gives seen result (compared_at (C.read_at depth) left tokens.now) }
{
    match op(tokens) {
        Some((op, rest)) => {
            let (right, rest) = operand(alloc, depth, rest)?;
            Ok((Condition::Compare(op, left, right), rest))
        }
        None => range(alloc, depth, false, left, tokens),
    }
}

// What follows an operand.
#[tactic(auto, unfolding(crate::specs::ReadConditions::tail_at))]
fn tail<C: Subject>(
    alloc: Global,
    depth: usize,
    operand: Operand<C>,
    tokens: &[Token],
) -> Parsed<'_, Filter<C>>
    ensures { Gives seen result (tail_at (C.read_at depth) operand tokens.now) }
{
    if let Some(rest) = after(tokens, Sign::Word(Keyword::Not)) {
        return range(alloc, depth, true, operand, rest);
    }
    if let Some(rest) = after(tokens, Sign::Word(Keyword::Is)) {
        return null(operand, rest);
    }
    compared(alloc, depth, operand, tokens)
}

/// Reads a test that has no parentheses round it.
#[tactic(auto, unfolding(crate::specs::ReadConditions::bare_at))]
pub(crate) fn bare<C: Subject>(
    alloc: Global,
    depth: usize,
    tokens: &[Token],
) -> Parsed<'_, Filter<C>>
    ensures { Gives seen result (bare_at (C.read_at depth) tokens.now) }
{
    let (operand, rest) = operand(alloc, depth, tokens)?;
    tail(alloc, depth, operand, rest)
}
