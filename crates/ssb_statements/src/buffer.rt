// The room that reading statements takes.

ghost use Rattle.std.specs.Prelude.{◌≡◌, ◌++◌, ◌≤◌, ◌<◌, ℕ, [], List, vec_len};
ghost use Rattle.ssb_tokens.specs.Statements.{statements_of};
ghost use Rattle.ssb_statements.specs.Cutting.{cut};

use crate::cutter::{Cutter, Statement};
use crate::input::Input;
use ssb_records::{History, Source, SourceFault};
use std::alloc::{AllocError, Global};
use std::mem;

// How many bytes of a source are taken at once.
const ROOM: usize = 65_536;

/// Room for one statement and for one piece of a source, which serves one reader after another.
pub struct StatementBuffer {
    cutter: Cutter,
    piece: Vec<u8>,
    // The bytes of the piece from here to their end were not taken.
    at: usize,
    end: usize,
    // The bytes that were taken since the last statement was told.
    taken: History<u8>,
    ghost inside: { at ≤ end },
    ghost held: { end ≤ vec_len piece },
    ghost room: { 0 < vec_len piece },
    ghost known: { (more : List ℕ) → statements_of (taken.items ++ more) ≡ cut cutter.boundary more },
}

// Written out, so that the crates above need no proof of how its parts are let go.
impl Drop for StatementBuffer {
    fn drop(self) {
        let StatementBuffer {
            cutter: _,
            piece: _,
            at: _,
            end: _,
            taken: _,
        } = self;
    }
}

impl StatementBuffer {
    ghost use Rattle.ssb_statements.specs.Reading.{Closes, Fills, Finds, IsSpent, bytes_in, text_in};

    /// Room, which no reader has used.
    ///
    /// # Errors
    ///
    /// `AllocError` where the room for a piece or for a statement was refused.
    pub fn new(alloc: Global) -> Result<StatementBuffer, AllocError> {
        let cutter = Cutter::new(alloc)?;
        let mut piece = Vec::new(alloc);
        piece.resize(ROOM, 0)?;
        Ok(StatementBuffer {
            cutter,
            piece,
            at: 0,
            end: 0,
            taken: History::new(),
        })
    }

    /// Forgets the bytes of its last reader.
    pub(crate) fn clear(&mut self)
        ensures bytes { bytes_in self.new ≡ [] }
        ensures text { text_in self.new ≡ [] }
    {
        self.cutter.clear();
        self.at = 0;
        self.end = 0;
        self.taken = History::new();
    }

    /// The bytes of the statement told last.
    pub(crate) fn text(&self) -> &[u8]
        ensures { result.now ≡ text_in self.now }
    {
        self.cutter.text()
    }

    /// The next statement, where the piece has its end.
    pub(crate) fn find(&mut self) -> Option<Statement>
        ensures { Finds self.old result self.new }
    {
        match self.cutter.take_all(&self.piece[self.at..self.end]) {
            Some(count) => {
                self.at += count;
                let statement = self.cutter.finish();
                self.taken = History::new();
                Some(statement)
            }
            None => {
                let taken = mem::replace(&mut self.taken, History::new());
                self.taken = taken.and_all(&self.piece[self.at..self.end]);
                self.at = self.end;
                None
            }
        }
    }

    /// Reads the next piece, and says whether there is one.
    ///
    /// # Errors
    ///
    /// `SourceFault` where the read failed.
    pub(crate) fn fill<S: Source>(&mut self, input: &mut Input<S>) -> Result<bool, SourceFault>
        requires { IsSpent self.old }
        ensures { Fills input.old self.old result input.new self.new }
    {
        let count = input.read(&mut self.piece)?;
        self.at = 0;
        self.end = count;
        Ok(count > 0)
    }

    /// The last statement, once the source met its end.
    pub(crate) fn close(&mut self) -> Option<Statement>
        requires { IsSpent self.old }
        ensures { Closes self.old result self.new }
    {
        let last = self.cutter.close();
        self.taken = History::new();
        last
    }
}
