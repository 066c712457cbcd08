// The pieces of a source's bytes.

ghost use Rattle.std.specs.Prelude.{◌≡◌, ◌+◌, ◌≤◌, ◌<◌, ◌++◌, [], length, take, drop, true, false, vec_len, OnOk, OnErr, IfOk, IfNone, IfSome};
ghost use Rattle.ssb_records.specs.Lines.{EndsInLf, IsCutAtLf, IsPartOfLine};

use crate::history::History;
use crate::source::Source;
use memchr::memrchr;
use std::alloc::{AllocError, Global};
use std::mem;
use std::snapshot::Snapshot;

const LF: u8 = b'\n';

/// The bytes of a source in pieces of whole lines, with the history of those handed out. The last
/// piece may end in a part of a line; where a read failed, such a part is kept back.
pub struct Pieces<S> {
    buffer: Vec<u8>,
    // How many bytes of the buffer were read.
    filled: usize,
    // How many of these are the piece at hand.
    cut: usize,
    // How long the buffer is at first.
    size: usize,
    // Whether no more is read: the source met its end, or failed.
    stopped: bool,
    failed: bool,
    done: History<u8>,
    // The source before any of this.
    begun: Snapshot<S>,
    ghost within: { cut ≤ filled },
    ghost held: { filled ≤ vec_len buffer },
}

impl<S> Drop for Pieces<S> {
    fn drop(self) {
        let Pieces {
            buffer: _,
            filled: _,
            cut: _,
            size: _,
            stopped: _,
            failed: _,
            done: _,
            begun: _,
        } = self;
    }
}

// Moves bytes of the buffer to its front.
fn slide(buffer: &mut [u8], from: usize, count: usize)
    requires { from + count ≤ length buffer.old }
    ensures { take count buffer.new ≡ take count (drop from buffer.old) }
{
    for i in 0..count {
        buffer[i] = buffer[from + i];
    }
}

// Makes the buffer longer.
fn grow(buffer: &mut Vec<u8>, size: usize) -> Result<(), AllocError>
    ensures front { take (vec_len buffer.old) buffer.new.items ≡ buffer.old.items }
    ensures len { vec_len buffer.old ≤ vec_len buffer.new }
    ensures room { OnOk result (vec_len buffer.old < vec_len buffer.new) }
{
    let more = buffer.len().max(size).max(1);
    let Some(wanted) = buffer.len().checked_add(more) else {
        return Err(AllocError);
    };
    buffer.resize(wanted, 0)
}

// The place behind the last LF, where there is one.
fn last_line(bytes: &[u8]) -> Option<usize>
    ensures inside { IfSome result (λ end. end ≤ length bytes.now) }
    ensures some { IfSome result (λ end. 0 < end) }
    ensures lines { IfSome result (λ end. EndsInLf (take end bytes.now)) }
    ensures rest { IfSome result (λ end. IsPartOfLine (drop end bytes.now)) }
    ensures none { IfNone result (IsPartOfLine bytes.now) }
{
    match memrchr(LF, bytes) {
        Some(at) => Some(at + 1),
        None => None,
    }
}

// The place behind the last whole line of a text.
fn lines_end(text: &[u8]) -> usize
    ensures inside { result ≤ length text.now }
    ensures cut { IsCutAtLf text.now (take result text.now) (drop result text.now) }
{
    match last_line(text) {
        Some(end) => end,
        None => 0,
    }
}

/// The whole lines of a text, and the part of a line behind them.
pub fn split_lines(text: &[u8]) -> (&[u8], &[u8])
    ensures { IsCutAtLf text.now result.0.now result.1.now }
{
    text.split_at(lines_end(text))
}

impl<S> Pieces<S> {
    ghost use Rattle.ssb_records.specs.Pieces.{IsPlace, begun_with, handed, has_failed, has_stopped, piece_of, rest_of};

    /// The pieces of what a source gives from now on, with a buffer of this size, in bytes, where no
    /// line is longer.
    pub fn new(alloc: Global, source: &S, size: usize) -> Pieces<S>
        ensures handed { handed result ≡ [] }
        ensures rest { rest_of result ≡ [] }
        ensures stopped { has_stopped result ≡ false }
        ensures failed { has_failed result ≡ false }
        ensures begun { begun_with result ≡ source.now }
    {
        Pieces {
            buffer: Vec::new(alloc),
            filled: 0,
            cut: 0,
            size,
            stopped: false,
            failed: false,
            done: History::new(),
            begun: Snapshot::of(source),
        }
    }

    /// The piece at hand.
    pub fn piece(&self) -> &[u8]
        ensures { result.now ≡ piece_of self.now }
    {
        &self.buffer[..self.cut]
    }

    /// Whether a read failed.
    pub fn has_failed(&self) -> bool
        ensures { result ≡ has_failed self.now }
    {
        self.failed
    }

    // Forgets the piece at hand.
    fn shift(&mut self)
        ensures rest { rest_of self.new ≡ rest_of self.old }
        ensures cut { self.new.cut ≡ 0 }
        ensures stopped { self.new.stopped ≡ self.old.stopped }
        ensures failed { self.new.failed ≡ self.old.failed }
        ensures handed { handed self.new ≡ handed self.old }
        ensures begun { self.new.begun ≡ self.old.begun }
    {
        let count = self.filled - self.cut;
        slide(&mut self.buffer, self.cut, count);
        self.filled = count;
        self.cut = 0;
    }

    // Hands out the first bytes.
    fn hand_out(&mut self, end: usize)
        requires cut { self.old.cut ≡ 0 }
        requires end { end ≤ self.old.filled }
        ensures handed { handed self.new ≡ handed self.old ++ piece_of self.new }
        ensures split { rest_of self.old ≡ piece_of self.new ++ rest_of self.new }
        ensures piece { piece_of self.new ≡ take end self.old.buffer.items }
        ensures rest { rest_of self.new ≡ drop end (take self.old.filled self.old.buffer.items) }
        ensures stopped { self.new.stopped ≡ self.old.stopped }
        ensures failed { self.new.failed ≡ self.old.failed }
        ensures begun { self.new.begun ≡ self.old.begun }
    {
        let done = mem::replace(&mut self.done, History::new());
        self.done = done.and_all(&self.buffer[..end]);
        self.cut = end;
    }

    // Makes room for a read.
    fn make_room(&mut self) -> Result<(), AllocError>
        ensures rest { rest_of self.new ≡ rest_of self.old }
        ensures cut { self.new.cut ≡ self.old.cut }
        ensures stopped { self.new.stopped ≡ self.old.stopped }
        ensures failed { self.new.failed ≡ self.old.failed }
        ensures handed { handed self.new ≡ handed self.old }
        ensures begun { self.new.begun ≡ self.old.begun }
        ensures filled { self.new.filled ≡ self.old.filled }
        ensures room { OnOk result (self.new.filled < vec_len self.new.buffer) }
    {
        if self.filled == self.buffer.len() {
            grow(&mut self.buffer, self.size)?;
        }
        Ok(())
    }

    // Where whole lines end, if the buffer is full.
    fn full_lines(&self) -> Option<usize>
        ensures inside { IfSome result (λ end. end ≤ self.now.filled) }
        ensures lines { IfSome result (λ end. EndsInLf (take end self.now.buffer.items)) }
    {
        if self.filled < self.buffer.len() {
            return None;
        }
        last_line(&self.buffer)
    }

    // Where to cut once no more is read.
    fn last_cut(&self) -> usize
        requires { self.now.stopped ≡ true }
        ensures { IsPlace result self.now }
    {
        if !self.failed {
            return self.filled;
        }
        lines_end(&self.buffer[..self.filled])
    }
}

impl<S: Source> Pieces<S> {
    ghost use Rattle.ssb_records.specs.Pieces.{IsPassedOn, IsPiece, IsOver, IsPlace, begun_with, handed, has_failed, has_stopped, piece_of, rest_of, turns_left};

    // Reads once, where there is room.
    fn read(&mut self, source: &mut S)
        requires cut { self.old.cut ≡ 0 }
        requires stopped { self.old.stopped ≡ false }
        requires room { self.old.filled < vec_len self.old.buffer }
        requires follows { IsPassedOn S.given S.failures S.ends self.old source.old }
        ensures follows { IsPassedOn S.given S.failures S.ends self.new source.new }
        ensures whole { S.whole source.new ≡ S.whole source.old }
        ensures cut { self.new.cut ≡ 0 }
        ensures nearer { turns_left self.new < turns_left self.old }
        ensures handed { handed self.new ≡ handed self.old }
        ensures begun { self.new.begun ≡ self.old.begun }
    {
        match source.read(&mut self.buffer[self.filled..]) {
            Ok(count) => {
                self.stopped = count == 0;
                self.filled += count;
            }
            Err(_) => {
                self.stopped = true;
                self.failed = true;
            }
        }
    }

    // Reads until an LF stands in a full buffer, or no more comes, and says where to cut.
    fn look(&mut self, source: &mut S) -> Result<usize, AllocError>
        requires cut { self.old.cut ≡ 0 }
        requires follows { IsPassedOn S.given S.failures S.ends self.old source.old }
        ensures follows { IsPassedOn S.given S.failures S.ends self.new source.new }
        ensures whole { S.whole source.new ≡ S.whole source.old }
        ensures cut { self.new.cut ≡ 0 }
        ensures handed { handed self.new ≡ handed self.old }
        ensures begun { self.new.begun ≡ self.old.begun }
        ensures place { IfOk result (λ end. IsPlace end self.new) }
        ensures over { self.old.stopped ≡ true → rest_of self.new ≡ rest_of self.old }
        ensures stays { self.old.stopped ≡ true → self.new.failed ≡ self.old.failed }
    {
        while !self.stopped {
            self.make_room()?;
            self.read(source);
            if let Some(end) = self.full_lines() {
                return Ok(end);
            }
        }
        Ok(self.last_cut())
    }

    /// Goes on to the next piece, and says whether there is one: none comes at the end of the source,
    /// and where a read failed.
    ///
    /// # Errors
    ///
    /// `AllocError` where a growth was refused.
    pub fn fill(&mut self, source: &mut S) -> Result<bool, AllocError>
        requires { IsPassedOn S.given S.failures S.ends self.old source.old }
        ensures follows { IsPassedOn S.given S.failures S.ends self.new source.new }
        ensures whole { S.whole source.new ≡ S.whole source.old }
        ensures handed { handed self.new ≡ handed self.old ++ piece_of self.new }
        ensures begun { begun_with self.new ≡ begun_with self.old }
        ensures hands { IfOk result (λ more. IsPiece more self.new) }
        ensures none { OnErr result (piece_of self.new ≡ []) }
        ensures over { IsOver self.old → piece_of self.new ≡ [] }
        ensures stays { has_stopped self.old ≡ true → has_failed self.new ≡ has_failed self.old }
    {
        self.shift();
        let end = self.look(source)?;
        self.hand_out(end);
        Ok(end > 0)
    }
}
