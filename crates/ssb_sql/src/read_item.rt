// Reading items of the select list and keys of ORDER BY.

ghost use Rattle.std.specs.Prelude.{◌≡◌, [], ◌∷◌};
ghost use Rattle.std.specs.Option.{option_copied};
ghost use Rattle.ssb_tokens.specs.Reading.{Gives, seen, seen_if};
ghost use Rattle.ssb_sql.specs.Steps.{after, more_at, list_at};
ghost use Rattle.ssb_sql.specs.ReadSelects.{function_of, function_at, star_at, aggregate_at, output_at, alias_at, item_at, key_at, order_at};
ghost use Rattle.ssb_tokens.specs.declared.token.Sign.TheVariants as s;

use crate::chain::{COMMA, chain};
use crate::named::ColumnName;
use crate::read_expr::expression;
use crate::read_parts::{Subject, column};
use crate::select::{Item, Key, Order, Output};
use crate::steps::{Parsed, after, closing, expect, name};
use sqlite_items::Items;
use ssb_terms::{Keyword, Name};
use ssb_tokens::{Mark, Sign, Stop, Token};
use ssb_trees::{Aggregate, SetFunction};
use std::alloc::Global;

fn function_of(word: Keyword) -> Option<SetFunction>
    ensures { result ≡ function_of word }
{
    match word {
        Keyword::Sum => Some(SetFunction::Sum),
        Keyword::Count => Some(SetFunction::Count),
        Keyword::Min => Some(SetFunction::Min),
        Keyword::Max => Some(SetFunction::Max),
        _ => None,
    }
}

#[tactic(auto, unfolding(crate::specs::ReadSelects::function_at))]
fn function(tokens: &[Token]) -> Option<(SetFunction, &[Token])>
    ensures { seen_if result ≡ function_at tokens.now }
{
    match tokens {
        [Token::Fixed(Sign::Word(word)), rest @ ..] => Some((function_of(*word)?, rest)),
        _ => None,
    }
}

// What follows a `*`, which may stand alone behind COUNT and its `(`.
#[tactic(auto, unfolding(crate::specs::ReadSelects::star_at))]
fn star(function: SetFunction, tokens: &[Token]) -> Option<&[Token]>
    ensures { option_copied result ≡ star_at function tokens.now }
{
    match function {
        SetFunction::Count => after(tokens, Sign::Mark(Mark::Times)),
        SetFunction::Sum | SetFunction::Min | SetFunction::Max => None,
    }
}

// What follows a function.
#[tactic(auto, unfolding(crate::specs::ReadSelects::aggregate_at, crate::specs::ReadSelects::argument_at, crate::specs::Steps::closed_at))]
fn aggregate(
    alloc: Global,
    depth: usize,
    function: SetFunction,
    tokens: &[Token],
) -> Parsed<'_, Aggregate<ColumnName>>
    ensures { Gives seen result (aggregate_at depth function tokens.now) }
{
    let inside = expect(tokens, Sign::Mark(Mark::Open))?;
    match star(function, inside) {
        Some(rest) => closing(Aggregate::Rows, rest),
        None => {
            let (found, rest) = expression(alloc, depth, inside)?;
            closing(Aggregate::Of(function, found), rest)
        }
    }
}

#[tactic(auto, unfolding(crate::specs::ReadSelects::output_at))]
fn output(alloc: Global, depth: usize, tokens: &[Token]) -> Parsed<'_, Output>
    ensures { Gives seen result (output_at depth tokens.now) }
{
    match function(tokens) {
        Some((function, rest)) => {
            let (found, rest) = aggregate(alloc, depth, function, rest)?;
            Ok((Output::Aggregate(found), rest))
        }
        None => {
            let (found, rest) = column(alloc, tokens)?;
            Ok((Output::Column(found), rest))
        }
    }
}

// In HAVING an aggregate may stand for a column.
impl Subject for Output {
    ghost read_at = { output_at };

    fn read(alloc: Global, depth: usize, tokens: &[Token]) -> Parsed<'_, Output> {
        output(alloc, depth, tokens)
    }
}

#[tactic(auto, unfolding(crate::specs::ReadSelects::alias_at))]
fn alias_if(alloc: Global, tokens: &[Token]) -> Parsed<'_, Option<Name>>
    ensures { Gives seen result (alias_at tokens.now) }
{
    match after(tokens, Sign::Word(Keyword::As)) {
        Some(rest) => {
            let (found, rest) = name(alloc, rest)?;
            Ok((Some(found), rest))
        }
        None => Ok((None, tokens)),
    }
}

#[tactic(auto, unfolding(crate::specs::ReadSelects::item_at))]
fn item(alloc: Global, depth: usize, tokens: &[Token]) -> Parsed<'_, Item>
    ensures { Gives seen result (item_at depth tokens.now) }
{
    let (output, rest) = output(alloc, depth, tokens)?;
    let (alias, rest) = alias_if(alloc, rest)?;
    Ok((Item { output, alias }, rest))
}

pub(crate) fn items(alloc: Global, depth: usize, tokens: &[Token]) -> Parsed<'_, Items<Item>>
    ensures { Gives seen result (list_at (item_at depth) tokens.now) }
{
    chain(
        alloc,
        COMMA,
        tokens,
        |start: &[Token]| item(alloc, depth, start),
    )
}

#[tactic(auto, unfolding(crate::specs::ReadSelects::key_at))]
fn key(alloc: Global, tokens: &[Token]) -> Parsed<'_, Key>
    ensures { Gives seen result (key_at tokens.now) }
{
    match tokens {
        [Token::Name(name), rest @ ..] => Ok((Key::Name(name.copy(alloc)?), rest)),
        [Token::Number(number), rest @ ..] => Ok((Key::Position(*number), rest)),
        _ => Err(Stop::Syntax),
    }
}

#[tactic(auto, unfolding(crate::specs::ReadSelects::order_at))]
pub(crate) fn order(alloc: Global, tokens: &[Token]) -> Parsed<'_, Order>
    ensures { Gives seen result (order_at tokens.now) }
{
    let (key, rest) = key(alloc, tokens)?;
    if let Some(rest) = after(rest, Sign::Word(Keyword::Asc)) {
        return Ok((
            Order {
                key,
                descending: false,
            },
            rest,
        ));
    }
    match after(rest, Sign::Word(Keyword::Desc)) {
        Some(rest) => Ok((
            Order {
                key,
                descending: true,
            },
            rest,
        )),
        None => Ok((
            Order {
                key,
                descending: false,
            },
            rest,
        )),
    }
}
