// Reading chains: lists with commas, conditions with AND and OR, products.

ghost use Rattle.std.specs.Prelude.{◌≡◌, List, [], ◌∷◌};
ghost use Rattle.ssb_tokens.specs.Reading.{Gives, seen};
ghost use Rattle.ssb_sql.specs.Steps.{Makes, Parser, Reads, Shrinks, after, chained_at, made_at};

use crate::steps::{Parsed, after};
use sqlite_items::Items;
use ssb_tokens::{Mark, Sign, Token};
use std::alloc::Global;

/// What stands between the members of a list.
pub(crate) const COMMA: Sign = Sign::Mark(Mark::Comma);

/// Reads one piece, and one more behind each sign.
pub(crate) fn chain<T: Drop, F>(
    alloc: Global,
    sign: Sign,
    tokens: &[Token],
    piece: F,
) -> Parsed<'_, Items<T>>
where
    F: Fn(&[Token]) -> Parsed<'_, T>,
    requires can { F.IsAlwaysCallable piece }
    requires shrinks { (p : Parser T) × Shrinks (after sign) p × Reads (F.post piece) p }
    ensures { (p : Parser T) → Shrinks (after sign) p → Reads (F.post piece) p → Gives seen result (chained_at sign p tokens.now) }
{
    let (found, end) = piece(tokens)?;
    let mut all = Items::new(alloc);
    all.push(found)?;
    let mut rest = end;
    while let Some(start) = after(rest, sign) {
        let (found, end) = piece(start)?;
        all.push(found)?;
        rest = end;
    }
    Ok((all, rest))
}

/// Reads such a chain as one thing: a piece alone is that piece, and of more of them one is made.
pub(crate) fn made<T: Drop, F, G>(
    alloc: Global,
    sign: Sign,
    tokens: &[Token],
    make: G,
    piece: F,
) -> Parsed<'_, T>
where
    F: Fn(&[Token]) -> Parsed<'_, T>,
    G: FnOnce(Items<T>) -> T,
    requires can { F.IsAlwaysCallable piece }
    requires makes { G.IsAlwaysCallable make }
    requires shrinks { (p : Parser T) × Shrinks (after sign) p × Reads (F.post piece) p }
    ensures { (m : List T → T) → Makes (G.post make) m → (p : Parser T) → Shrinks (after sign) p → Reads (F.post piece) p → Gives seen result (made_at m sign p tokens.now) }
{
    let (mut all, rest) = chain(alloc, sign, tokens, piece)?;
    if all.len() == 1 {
        Ok((all.remove(0), rest))
    } else {
        Ok((make(all), rest))
    }
}
