// Why a query's answer could not be given.

ghost use Rattle.std.specs.Prelude.{◌≡◌};
ghost use Rattle.ssb_rows.specs.Titles.{answer_title};

use std::fmt;
use thiserror::Error;

/// Why an answer could not be computed or written, least number first.
#[derive(Clone, Copy, PartialEq, Eq, Debug, Error)]
pub enum AnswerFault {
    /// An expression leaves 64 bits at a fact row, numbered from 1.
    RowOverflow(u32),
    /// A sum leaves 64 bits.
    SumOutOfRange,
    /// A growth was refused.
    Memory,
    /// The writer failed.
    Write,
}

impl AnswerFault {
    /// Its number and its name, as `docs/FAULTS.md` lists them. Of `Memory` they are never printed: its line
    /// is `ssb: Memory`.
    pub fn title(&self) -> &str
        ensures { result.now ≡ answer_title self.now }
    {
        match self {
            AnswerFault::RowOverflow(_) => "A1 RowOverflow",
            AnswerFault::SumOutOfRange => "A2 SumOutOfRange",
            AnswerFault::Memory => "A3 Memory",
            AnswerFault::Write => "A4 Write",
        }
    }
}

impl fmt::Display for AnswerFault {
    fn fmt<W: fmt::Write>(&self, f: &mut fmt::Formatter<W>) -> fmt::Result {
        match self {
            AnswerFault::RowOverflow(row) => write!(f, "{} {row}", self.title()),
            _ => f.write_str(self.title()),
        }
    }
}
