// The bytes of the statement at hand.

ghost use Rattle.std.specs.Prelude.{◌≡◌, ◌≤◌, [], vec_len, IfOk};

use crate::boundary::Boundary;
use crate::prefix::Prefix;
use std::alloc::{AllocError, Global};

/// How many bytes a statement may have.
pub const STATEMENT_SIZE: usize = 65_536;

/// What is told of a statement of a source.
#[derive(Clone, Copy, PartialEq, Eq, Debug)]
pub enum Statement {
    /// It has at most `STATEMENT_SIZE` bytes: `Statements::text` gives them.
    Text,
    /// It has more bytes, which were passed over to its end.
    TooLong,
}

/// The statement at hand, of which bytes come one by one, and the one that was told last.
#[derive(Drop)]
pub(crate) struct Cutter {
    boundary: Boundary,
    // The bytes of the statement at hand.
    text: Prefix,
    // How many bytes that are kept are the statement told last.
    told: usize,
    ghost room: { vec_len text.kept ≡ 65536 },
    ghost within: { told ≤ 65536 },
    ghost same: { text.all.items ≡ boundary.so_far.items },
}

impl Cutter {
    ghost use Rattle.ssb_statements.specs.Cutting.{AreTaken, IsClear, IsTaken, told_text};
    ghost use Rattle.ssb_statements.specs.Reading.{IsClosed};
    ghost use Rattle.ssb_statements.specs.Telling.{IsTold};

    /// No statement, and room for one.
    ///
    /// # Errors
    ///
    /// `AllocError` where the room was refused.
    pub(crate) fn new(alloc: Global) -> Result<Cutter, AllocError>
        ensures { IfOk result (λ c. IsClear c.boundary) }
    {
        Ok(Cutter {
            boundary: Boundary::new(),
            text: Prefix::new(alloc, STATEMENT_SIZE)?,
            told: 0,
        })
    }

    /// Begins anew, with no statement told.
    pub(crate) fn clear(&mut self)
        ensures clear { IsClear self.new.boundary }
        ensures told { told_text self.new ≡ [] }
    {
        self.boundary.reset();
        self.text.clear();
        self.told = 0;
    }

    /// The bytes of the statement told last.
    pub(crate) fn text(&self) -> &[u8]
        ensures { result.now ≡ told_text self.now }
    {
        self.text.front(self.told)
    }

    // Takes one byte, and says whether the statement ends with it.
    fn take(&mut self, byte: u8) -> bool
        ensures { IsTaken result self.old.boundary byte self.new.boundary }
    {
        let taken = self.boundary.take(byte);
        self.text.put_if(taken.dash, b'-');
        self.text.put_if(taken.byte, byte);
        taken.ends
    }

    /// Takes bytes up to the end of the statement, and says where that is, if they have it.
    pub(crate) fn take_all(&mut self, bytes: &[u8]) -> Option<usize>
        ensures { AreTaken result self.old.boundary bytes.now self.new.boundary }
    {
        for (i, byte) in bytes.iter().enumerate() {
            if self.take(*byte) {
                return Some(i + 1);
            }
        }
        None
    }

    /// Tells the statement, and begins with none.
    pub(crate) fn finish(&mut self) -> Statement
        ensures told { IsTold result (told_text self.new) self.old.boundary.so_far.items }
        ensures clear { IsClear self.new.boundary }
    {
        let whole = self.text.whole_len();
        self.boundary.reset();
        self.text.clear();
        match whole {
            Some(len) => {
                self.told = len;
                Statement::Text
            }
            None => {
                self.told = 0;
                Statement::TooLong
            }
        }
    }

    /// Tells the last statement, where some of it is at hand, and begins with none.
    pub(crate) fn close(&mut self) -> Option<Statement>
        ensures told { IsClosed result self.old self.new }
        ensures clear { IsClear self.new.boundary }
    {
        let dash = self.boundary.end();
        self.text.put_if(dash, b'-');
        if !self.boundary.has_begun() {
            self.boundary.reset();
            return None;
        }
        Some(self.finish())
    }
}
