// From a text to the query that it spells.

ghost use Rattle.ssb_sql.specs.OneStatement.{OneStatement};
ghost use Rattle.ssb_sql.specs.Spells.{OneSelect, ReadsText};

use crate::fault::SqlFault;
use crate::parse::parse;
use crate::select::Select;
use ssb_tokens::lex;
use std::alloc::Global;

// The most bytes that a query may have.
const MAX_BYTES: usize = 65_536;

/// The query that a text spells.
///
/// # Errors
///
/// The first check that the text does not pass: `TooLong`, it has more than 65,536 bytes; `Syntax`,
/// it is no list of tokens; `TooDeep`, some front of the tokens has over 64 more `(` than `)`;
/// `Syntax`, the tokens are no query. `Memory` where a growth was refused.
pub fn read(alloc: Global, text: &str) -> Result<Select, SqlFault>
    ensures { ReadsText text.now result }
{
    if text.len() > MAX_BYTES {
        return Err(SqlFault::TooLong);
    }
    let tokens = lex(alloc, text)?;
    parse(alloc, tokens.as_slice())
}

/// A text spells at most one query.
pub fn one_select()
    ensures { OneSelect }
{}

/// The text of a query has one statement, which reads as the same query.
pub fn one_statement()
    ensures { OneStatement }
{}
