// Statements mixed with lines that are commands.

ghost use Rattle.std.specs.Prelude.{◌≡◌, ◌≤◌, ◌<◌, ◌++◌, [], length, take, ◌↔◌, None, IfOk, IsTrue};
ghost use Rattle.ssb_statements.specs.Parting.{EndsBefore, IsAtCommand};

use crate::input::Input;
use crate::position::{Position, counted};
use crate::prefix::Prefix;
use ssb_records::{History, Source, SourceFault};
use std::alloc::{AllocError, Global};
use std::marker::Model;
use std::mem;

// How many bytes of a source are taken at once.
const ROOM: usize = 65_536;

// How many bytes of a command are kept.
const LINE_SIZE: usize = 4096;

/// What hears of each read of a script's source before it, as a prompt on a terminal does. No clause depends
/// on it.
pub trait Prompts {
    /// A read comes: of a statement or a line that has begun, or of a new one.
    fn before_read(&mut self, has_begun: bool);
}

/// Hears nothing.
#[derive(Clone, Copy)]
pub struct NoPrompts;

impl Prompts for NoPrompts {
    fn before_read(&mut self, _has_begun: bool) {}
}

/// What comes next in a script.
#[derive(Clone, Copy, PartialEq, Eq, Debug)]
pub enum Next {
    /// A line that was a command: `Script::line` gives it.
    Command,
    /// Statements, which the script gives as a source.
    Statements,
    /// Nothing: the source met its end.
    End,
}

/// What a source gives, parted into stretches of statements and the commands between them: each stretch is
/// given as a source of its own, which meets its end before the next command.
pub struct Script<S: Source, P: Prompts> {
    input: Input<S>,
    prompts: P,
    piece: Vec<u8>,
    // The bytes of the piece from here to its end wait to be given.
    at: usize,
    end: usize,
    // Behind the bytes of this stretch.
    position: Position,
    line: Prefix,
    // How often this stretch was told to have ended.
    ended: History<()>,
}

impl<S: Source, P: Prompts> Model for Script<S, P> {
    ghost use Rattle.ssb_statements.specs.Reader.{ScriptReader};

    ghost Value = { ScriptReader S };

    ghost use Rattle.ssb_statements.specs.ScriptParts.{IsWhole, seen};

    ghost view = { seen };

    ghost invariant = { IsWhole };
}

// Written out, so that the crates above need no proof of how its parts are let go.
impl<S: Source + Drop, P: Prompts + Drop> Drop for Script<S, P> {
    fn drop(self) {
        let Script {
            input,
            prompts,
            piece: _,
            at: _,
            end: _,
            position: _,
            line: _,
            ended: _,
        } = self;
        drop(input.into_source());
        drop(prompts);
    }
}

// Gives bytes from the front of some, up to the `.` of a command, and says how many.
fn give(bytes: &[u8], position: &mut Position, room: &mut [u8]) -> usize
    ensures bytes { result ≤ length bytes.now }
    ensures room { result ≤ length room.new }
    ensures length { length room.new ≡ length room.old }
    ensures given { take result room.new ≡ take result bytes.now }
    ensures passed { position.new.all.items ≡ position.old.all.items ++ take result bytes.now }
    ensures none { result ≡ 0 → 0 < length bytes.now → 0 < length room.old → IsAtCommand position.old.all.items bytes.now }
{
    let most = bytes.len().min(room.len());
    for at in 0..most {
        let byte = bytes[at];
        if byte == b'.' && position.is_before_command() {
            return at;
        }
        position.pass(byte);
        room[at] = byte;
    }
    most
}

// Tells of a read that comes, where one does.
fn announce<P: Prompts>(prompts: &mut P, is_over: bool, position: &Position) {
    if !is_over {
        prompts.before_read(!position.is_before_command());
    }
}

impl<S: Source, P: Prompts> Script<S, P> {
    ghost use Rattle.ssb_statements.specs.Scripts.{Comes, Refills, TakesByte, TakesLine, has_met_end, line_of, source_in, stretch, waiting};

    /// What a source gives from now on.
    ///
    /// # Errors
    ///
    /// `AllocError` where the room for a piece or for a line was refused.
    pub fn new(alloc: Global, source: S, prompts: P) -> Result<Script<S, P>, AllocError>
    where
        S: Drop,
        P: Drop,
        ensures source { IfOk result (λ s. source_in s ≡ source) }
        ensures stretch { IfOk result (λ s. stretch s ≡ []) }
        ensures waiting { IfOk result (λ s. waiting s ≡ []) }
    {
        let line = Prefix::new(alloc, LINE_SIZE)?;
        let mut piece = Vec::new(alloc);
        piece.resize(ROOM, 0)?;
        Ok(Script {
            input: Input::new(source),
            prompts,
            piece,
            at: 0,
            end: 0,
            position: Position::new(),
            line,
            ended: History::new(),
        })
    }

    /// A law: where a stretch has met its end, as a source, the next byte begins a command, or none is left and
    /// the script's own source met its end.
    pub fn stretches_are_whole(&self)
        ensures { 0 < ⟦<Script<S, P> as Source>⟧.ends self.now → EndsBefore (stretch self.now) (waiting self.now) (has_met_end self.now) }
    {
        // Where a part is named, the proof has what holds of all parts.
        let _ended = &self.ended;
    }

    /// The command told last, without its line feed: its first 4,096 bytes.
    pub fn line(&self) -> &[u8]
        ensures { result.now ≡ line_of self.now }
    {
        self.line.as_slice()
    }

    // The bytes that wait to be given.
    fn waiting(&self) -> &[u8]
        ensures { result.now ≡ waiting self.now }
    {
        &self.piece[self.at..self.end]
    }

    // Reads the next piece where none waits.
    fn refill(&mut self) -> Result<(), SourceFault>
        ensures { Refills S.Source self.old result self.new }
    {
        if self.at < self.end {
            return Ok(());
        }
        announce(&mut self.prompts, self.input.ended, &self.position);
        let count = self.input.read(&mut self.piece)?;
        self.at = 0;
        self.end = count;
        Ok(())
    }

    // Takes the first byte that waits, where there is one, at the beginning of a stretch.
    fn take_byte(&mut self) -> Option<u8>
        requires { stretch self.old ≡ [] }
        ensures { TakesByte self.old result self.new }
    {
        if self.at == self.end {
            return None;
        }
        let byte = self.piece[self.at];
        self.at += 1;
        self.ended = History::new();
        Some(byte)
    }

    // Whether a command comes first of the bytes that wait.
    fn is_at_command(&self) -> bool
        ensures { IsTrue result ↔ IsAtCommand (stretch self.now) (waiting self.now) }
    {
        match self.waiting().first() {
            Some(b'.') => self.position.is_before_command(),
            Some(_) | None => false,
        }
    }

    // Takes the line that begins here, and begins a new stretch behind it.
    fn take_line(&mut self) -> Result<(), SourceFault>
        ensures { TakesLine S.Source self.old result self.new }
    {
        self.position.restart();
        self.ended = History::new();
        self.line.clear();
        for _ in 0..u64::MAX {
            self.refill()?;
            let Some(byte) = self.take_byte() else {
                return Ok(());
            };
            if byte == b'\n' {
                return Ok(());
            }
            self.line.put(byte);
        }
        // No line has as many bytes.
        Err(SourceFault)
    }

    /// What comes next: it takes a command, and begins a new stretch behind it. It reads the source only
    /// where no byte waits, and for the rest of a command, and never once the source met its end.
    ///
    /// # Errors
    ///
    /// `SourceFault` where a read failed, and where one line goes on for 2 ^ 64 - 1 bytes. Of a command that has
    /// begun `line` gives what came then, its first 4,096 bytes; all other bytes still wait.
    pub fn next(&mut self) -> Result<Next, SourceFault>
        ensures { Comes S.Source self.old result self.new }
    {
        self.refill()?;
        if self.at == self.end {
            return Ok(Next::End);
        }
        if !self.is_at_command() {
            return Ok(Next::Statements);
        }
        self.take_line()?;
        Ok(Next::Command)
    }
}

impl<S: Source, P: Prompts> Source for Script<S, P> {
    ghost use Rattle.ssb_statements.specs.Scripts.{source_in, stretch};

    ghost given = { stretch };

    ghost failures = { λ s. S.failures (source_in s) };

    ghost ends = { λ s. s.ends };

    // It is not told what comes, since only the bytes show where a command is.
    ghost whole = { λ s. None };

    fn read(&mut self, room: &mut [u8]) -> Result<usize, SourceFault> {
        self.refill()?;
        let count = give(&self.piece[self.at..self.end], &mut self.position, room);
        self.at += count;
        let ended = mem::replace(&mut self.ended, History::new());
        self.ended = counted(ended, count == 0 && !room.is_empty());
        Ok(count)
    }

    ghost begins = { λ s. tt };

    ghost settled = { λ s met. tt };
}
