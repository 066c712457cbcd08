// Reading whole queries.

ghost use Rattle.std.specs.Prelude.{◌≡◌, [], ◌∷◌, ◌+◌, ◌<◌, ◌^◌};
ghost use Rattle.ssb_tokens.specs.Reading.{Gives, seen};
ghost use Rattle.ssb_sql.specs.Steps.{Parser, Reads, Shrinks, after, more_at, list_at, name_at};
ghost use Rattle.ssb_sql.specs.ReadParts.{column_at};
ghost use Rattle.ssb_sql.specs.ReadSelects.{item_at, output_at, filter_at, by_at, order_at, is_nil, ends, ordered_at, kept_at, grouped_at, filtered_at, joined_at, query_at};
ghost use Rattle.ssb_tokens.specs.declared.token.Mark.TheVariants as marks;
ghost use Rattle.ssb_tokens.specs.declared.token.Sign.TheVariants as s;

use crate::chain::{COMMA, chain};
use crate::named::ColumnName;
use crate::read_condition::condition;
use crate::read_item::{items, order};
use crate::read_parts::{Subject, column};
use crate::select::{Order, Output, Select};
use crate::steps::{Parsed, after, expect, name};
use sqlite_items::Items;
use ssb_terms::{Keyword, Name};
use ssb_tokens::{Mark, Sign, Stop, Token};
use ssb_trees::Filter;
use std::alloc::Global;

// The word and a condition; or nothing.
#[tactic(auto, unfolding(crate::specs::ReadSelects::filter_at))]
fn condition_if<C: Subject>(
    alloc: Global,
    word: Keyword,
    depth: usize,
    tokens: &[Token],
) -> Parsed<'_, Option<Filter<C>>>
    ensures { Gives seen result (filter_at word C.read_at depth tokens.now) }
{
    match after(tokens, Sign::Word(word)) {
        Some(rest) => {
            let (found, rest) = condition(alloc, depth, rest)?;
            Ok((Some(found), rest))
        }
        None => Ok((None, tokens)),
    }
}

// The word, BY and a list; or nothing.
#[tactic(auto, unfolding(crate::specs::ReadSelects::by_at))]
fn by<T: Drop, F>(alloc: Global, word: Keyword, tokens: &[Token], list: F) -> Parsed<'_, Items<T>>
where
    F: FnOnce(&[Token]) -> Parsed<'_, Items<T>>,
    requires { F.IsAlwaysCallable list }
    ensures { (p : Parser T) → Reads (F.post list) (list_at p) → Gives seen result (by_at word p tokens.now) }
{
    match after(tokens, Sign::Word(word)) {
        Some(rest) => {
            let start = expect(rest, Sign::Word(Keyword::By))?;
            list(start)
        }
        None => Ok((Items::new(alloc), tokens)),
    }
}

// The columns of GROUP BY.
#[tactic(auto, using(crate::proofs::PartFacts::column_shrinks))]
fn columns(alloc: Global, tokens: &[Token]) -> Parsed<'_, Items<ColumnName>>
    ensures { Gives seen result (list_at column_at tokens.now) }
{
    chain(alloc, COMMA, tokens, |start: &[Token]| column(alloc, start))
}

// The keys of ORDER BY.
#[tactic(auto, using(crate::proofs::ItemFacts::order_shrinks))]
fn orders(alloc: Global, tokens: &[Token]) -> Parsed<'_, Items<Order>>
    ensures { Gives seen result (list_at order_at tokens.now) }
{
    chain(alloc, COMMA, tokens, |start: &[Token]| order(alloc, start))
}

fn is_nil(tokens: &[Token]) -> bool
    ensures { result ≡ is_nil tokens.now }
{
    match tokens {
        [] => true,
        [_, ..] => false,
    }
}

// Whether nothing follows, or a `;` and nothing more.
#[tactic(auto, unfolding(crate::specs::ReadSelects::ends))]
fn ends(tokens: &[Token]) -> bool
    ensures { result ≡ ends tokens.now }
{
    match after(tokens, Sign::Mark(Mark::Semicolon)) {
        Some(rest) => is_nil(rest),
        None => is_nil(tokens),
    }
}

// ORDER BY, with nothing behind it but the end.
#[tactic(auto, unfolding(crate::specs::ReadSelects::ordered_at))]
fn ordered(alloc: Global, tokens: &[Token]) -> Result<Items<Order>, Stop>
    ensures { Gives (λ x. x) result (ordered_at tokens.now) }
{
    let (orders, rest) = by(alloc, Keyword::Order, tokens, |list| orders(alloc, list))?;
    if ends(rest) {
        Ok(orders)
    } else {
        Err(Stop::Syntax)
    }
}

// What is read from here on fills a select from its end: each clause is read, then what follows it, and is
// put to that. So no more than one clause is in hand where what follows can't be read.

// HAVING, and what follows.
#[tactic(auto, unfolding(crate::specs::ReadSelects::kept_at))]
fn kept(alloc: Global, depth: usize, tokens: &[Token]) -> Result<Select, Stop>
    requires { depth < 2 ^ 32 }
    ensures { Gives (λ s. (s.having, s.orders)) result (kept_at depth tokens.now) }
{
    let (having, rest) = condition_if(alloc, Keyword::Having, depth + 1, tokens)?;
    let orders = ordered(alloc, rest)?;
    Ok(Select {
        items: Items::new(alloc),
        from: Items::new(alloc),
        condition: None,
        groups: Items::new(alloc),
        having,
        orders,
    })
}

// GROUP BY, and what follows.
#[tactic(auto, unfolding(crate::specs::ReadSelects::grouped_at))]
fn grouped(alloc: Global, depth: usize, tokens: &[Token]) -> Result<Select, Stop>
    requires { depth < 2 ^ 32 }
    ensures { Gives (λ s. (s.groups, s.having, s.orders)) result (grouped_at depth tokens.now) }
{
    let (groups, rest) = by(alloc, Keyword::Group, tokens, |list| columns(alloc, list))?;
    let mut select = kept(alloc, depth, rest)?;
    select.groups = groups;
    Ok(select)
}

// WHERE, and what follows.
#[tactic(auto, unfolding(crate::specs::ReadSelects::filtered_at))]
fn filtered(alloc: Global, depth: usize, tokens: &[Token]) -> Result<Select, Stop>
    requires { depth < 2 ^ 32 }
    ensures { Gives (λ s. (s.condition, s.groups, s.having, s.orders)) result (filtered_at depth tokens.now) }
{
    let (condition, rest) = condition_if(alloc, Keyword::Where, depth + 1, tokens)?;
    let mut select = grouped(alloc, depth, rest)?;
    select.condition = condition;
    Ok(select)
}

// The tables of FROM.
#[tactic(auto, using(crate::proofs::PartFacts::name_shrinks))]
fn tables(alloc: Global, tokens: &[Token]) -> Parsed<'_, Items<Name>>
    ensures { Gives seen result (list_at name_at tokens.now) }
{
    chain(alloc, COMMA, tokens, |start: &[Token]| name(alloc, start))
}

// FROM, and what follows.
#[tactic(auto, unfolding(crate::specs::ReadSelects::joined_at))]
fn joined(alloc: Global, depth: usize, tokens: &[Token]) -> Result<Select, Stop>
    requires { depth < 2 ^ 32 }
    ensures { Gives (λ s. (s.from, (s.condition, s.groups, s.having, s.orders))) result (joined_at depth tokens.now) }
{
    let start = expect(tokens, Sign::Word(Keyword::From))?;
    let (from, rest) = tables(alloc, start)?;
    let mut select = filtered(alloc, depth, rest)?;
    select.from = from;
    Ok(select)
}

/// Reads a query up to its end, with at most `depth` open parentheses.
#[tactic(auto, unfolding(crate::specs::ReadSelects::query_at))]
pub(crate) fn query(alloc: Global, depth: usize, tokens: &[Token]) -> Result<Select, Stop>
    requires { depth < 2 ^ 32 }
    ensures { Gives (λ x. x) result (query_at depth tokens.now) }
{
    let start = expect(tokens, Sign::Word(Keyword::Select))?;
    let (items, rest) = items(alloc, depth, start)?;
    let mut select = joined(alloc, depth, rest)?;
    select.items = items;
    Ok(select)
}
