// From tokens to the query that they spell.

ghost use Rattle.std.specs.Prelude.{◌≡◌, ◌+◌, ◌<◌, ◌↔◌, ◌^◌, List, length, IsTrue};
ghost use Rattle.ssb_tokens.specs.declared.token.Token.{Token};
ghost use Rattle.ssb_sql.specs.declared.select.Select.{Select};
ghost use Rattle.ssb_sql.specs.Grammar.{Parses};
ghost use Rattle.ssb_sql.specs.Exact.{Reads};
ghost use Rattle.ssb_sql.specs.Room.{HasRoom, room_after};

use crate::fault::SqlFault;
use crate::read_select::query;
use crate::select::Select;
use crate::steps::is_fixed;
use ssb_tokens::{Mark, Sign, Token};
use std::alloc::Global;

// How many parentheses may be open at once.
const MAX_OPEN: usize = 64;

#[tactic(auto, unfolding(crate::specs::Room::room_after))]
fn room_after(room: u128, token: &Token) -> Option<u128>
    requires { room < 2 ^ 127 }
    ensures { result ≡ room_after room token.now }
{
    if is_fixed(token, Sign::Mark(Mark::Open)) {
        room.checked_sub(1)
    } else if is_fixed(token, Sign::Mark(Mark::Close)) {
        Some(room + 1)
    } else {
        Some(room)
    }
}

// Whether each front has at most so many more `(` than `)`.
fn is_within(tokens: &[Token], most: usize) -> bool
    ensures { IsTrue result ↔ HasRoom most tokens.now }
{
    let mut room = most as u128;
    for token in tokens {
        let Some(left) = room_after(room, token) else {
            return false;
        };
        room = left;
    }
    true
}

/// The query that the tokens spell.
pub(crate) fn parse(alloc: Global, tokens: &[Token]) -> Result<Select, SqlFault>
    ensures { Reads tokens.now result }
{
    if !is_within(tokens, MAX_OPEN) {
        return Err(SqlFault::TooDeep);
    }
    Ok(query(alloc, MAX_OPEN, tokens)?)
}

/// Tokens spell at most one query.
pub fn one_meaning()
    ensures { (ts : List Token) (x y : Select) → Parses ts x → Parses ts y → x ≡ y }
{}
