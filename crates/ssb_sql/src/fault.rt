// Why a text is no query.

ghost use Rattle.std.specs.Prelude.{◌≡◌};
ghost use Rattle.ssb_sql.specs.Titles.{sql_title};

use ssb_tokens::Stop;
use std::fmt;
use thiserror::Error;

/// Why a text is no query, in the order of the checks: its length, its tokens, its depth, its
/// grammar.
#[derive(Clone, Copy, PartialEq, Eq, Debug, Error)]
pub enum SqlFault {
    /// The text is no list of tokens, or the tokens are no query.
    Syntax,
    /// Some front of the tokens has over 64 more `(` than `)`.
    TooDeep,
    /// The text has more than 65,536 bytes.
    TooLong,
    /// A growth was refused.
    Memory,
}

impl SqlFault {
    /// Its number and its name, as `docs/FAULTS.md` lists them. Of `Memory` they are never printed: its line
    /// is `ssb: Memory`.
    pub fn title(&self) -> &str
        ensures { result.now ≡ sql_title self.now }
    {
        match self {
            SqlFault::Syntax => "S1 Syntax",
            SqlFault::TooDeep => "S2 TooDeep",
            SqlFault::TooLong => "S3 TooLong",
            SqlFault::Memory => "S4 Memory",
        }
    }
}

impl fmt::Display for SqlFault {
    fn fmt<W: fmt::Write>(&self, f: &mut fmt::Formatter<W>) -> fmt::Result {
        f.write_str(self.title())
    }
}

impl From<Stop> for SqlFault {
    ghost use Rattle.std.specs.Prelude.{◌≡◌};
    ghost use Rattle.ssb_sql.specs.Told.{told};

    ghost from_gives = { λ stop fault. fault ≡ told stop };

    fn from(stop: Stop) -> SqlFault {
        match stop {
            Stop::Memory => SqlFault::Memory,
            Stop::Syntax => SqlFault::Syntax,
        }
    }
}
