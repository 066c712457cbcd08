// The statements of what a source gives.

ghost use Rattle.std.specs.Prelude.{◌≡◌, [], false, IfOk};

use crate::buffer::StatementBuffer;
use crate::cutter::Statement;
use crate::input::Input;
use ssb_records::{Source, SourceFault};
use std::alloc::{AllocError, Global};
use std::marker::Model;

/// The statements of what a source gives, one by one. A statement is told once the bytes up to its `;`
/// were given, and the last one, if it has none, at the end of the source.
pub struct Statements<S: Source> {
    input: Input<S>,
    buffer: StatementBuffer,
}

impl<S: Source> Model for Statements<S> {
    ghost use Rattle.ssb_statements.specs.Reader.{Reader};

    ghost Value = { Reader S };

    ghost use Rattle.ssb_statements.specs.Reading.{read_through};

    ghost view = { λ r. read_through r.input r.buffer };
}

// Written out, so that the crates above need no proof of how its parts are let go.
impl<S: Source + Drop> Drop for Statements<S> {
    fn drop(self) {
        drop(self.into_source());
    }
}

impl<S: Source> Statements<S> {
    ghost use Rattle.ssb_statements.specs.Telling.{Gave, ahead, has_ended, source_of, text_of};

    /// The statements of what a source gives from now on. `next` asks for no memory.
    ///
    /// # Errors
    ///
    /// As of [`StatementBuffer::new`].
    pub fn new(alloc: Global, source: S) -> Result<Statements<S>, AllocError>
    where
        S: Drop,
        ensures source { IfOk result (λ r. source_of r ≡ source) }
        ensures ahead { IfOk result (λ r. ahead r ≡ []) }
        ensures ended { IfOk result (λ r. has_ended r ≡ false) }
    {
        let buffer = StatementBuffer::new(alloc)?;
        Ok(Statements::with_buffer(buffer, source))
    }

    /// The statements of what a source gives from now on, read through a buffer. It asks for no memory, and
    /// nothing of an earlier reader's source is left.
    pub fn with_buffer(mut buffer: StatementBuffer, source: S) -> Statements<S>
        ensures source { source_of result ≡ source }
        ensures ahead { ahead result ≡ [] }
        ensures ended { has_ended result ≡ false }
        ensures text { text_of result ≡ [] }
    {
        buffer.clear();
        Statements {
            input: Input::new(source),
            buffer,
        }
    }

    /// The source itself, as the reads left it, and the buffer, for the next reader.
    pub fn into_parts(self) -> (S, StatementBuffer)
        ensures { result.0 ≡ source_of self }
    {
        let Statements { input, buffer } = self;
        (input.into_source(), buffer)
    }

    /// The source itself, as the reads left it.
    pub fn into_source(self) -> S
        ensures { result ≡ source_of self }
    {
        let (source, buffer) = self.into_parts();
        drop(buffer);
        source
    }

    /// The source, as the reads left it.
    pub fn source(&self) -> &S
        ensures { result.now ≡ source_of self.now }
    {
        &self.input.source
    }

    /// Whether the source met its end.
    pub fn has_ended(&self) -> bool
        ensures { result ≡ has_ended self.now }
    {
        self.input.ended
    }

    /// The bytes of the statement told last, with its `;` where it has one, if that was not too long.
    pub fn text(&self) -> &[u8]
        ensures { result.now ≡ text_of self.now }
    {
        self.buffer.text()
    }

    /// Goes on to the next statement, and says what it is, or that none comes. It reads the source only
    /// where the bytes that it has do not reach to the statement's end, and never once the source met
    /// its own. After an error no byte is lost: the next call goes on.
    ///
    /// # Errors
    ///
    /// `SourceFault` where a read failed, and where one statement goes on for 2 ^ 64 - 1 bytes.
    pub fn next(&mut self) -> Result<Option<Statement>, SourceFault>
        ensures { Gave S.Source self.old result self.new }
    {
        for _ in 0..u64::MAX {
            if let Some(statement) = self.buffer.find() {
                return Ok(Some(statement));
            }
            if !self.buffer.fill(&mut self.input)? {
                return Ok(self.buffer.close());
            }
        }
        // No statement has as many bytes.
        Err(SourceFault)
    }
}
