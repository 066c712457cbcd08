// Bytes kept together before they are written.
ghost use Rattle.std.specs.Prelude.{◌≡◌, ◌≤◌, ◌+◌, ◌<◌, ◌++◌, [], length, OnOk, OnErr};
ghost use Rattle.ssb_rows.specs.Taking.{GrewAlike, IsBeginning};
ghost use Rattle.ssb_rows.specs.Writing.{Writes, desk};

use crate::sink::{Sink, SinkFault, write_all};
use std::marker::Model;

/// Bytes that wait to be written, seen as their list.
#[derive(Drop)]
pub struct Page {
    bytes: [u8; 4096],
    len: usize,
}

impl Model for Page {
    ghost use Rattle.std.specs.Prelude.{ℕ, List, take, ◌≤◌};

    ghost Value = { List ℕ };

    ghost view = { λ p. take p.len p.bytes };

    ghost invariant = { λ p. p.len ≤ 4096 };
}

impl Page {
    /// No bytes.
    pub fn new() -> Page
        ensures { result ≡ [] }
    {
        Page {
            bytes: [0; 4096],
            len: 0,
        }
    }

    fn room(&self) -> usize
        ensures { length self.now + result ≡ 4096 }
    {
        4096 - self.len
    }

    fn as_slice(&self) -> &[u8]
        ensures { result.now ≡ self.now }
    {
        &self.bytes[..self.len]
    }

    fn clear(&mut self)
        ensures { self.new ≡ [] }
    {
        self.len = 0;
    }

    fn keep(&mut self, bytes: &[u8])
        requires { length self.old + length bytes.now ≤ 4096 }
        ensures { self.new ≡ self.old ++ bytes.now }
    {
        let end = self.len + bytes.len();
        self.bytes[self.len..end].copy_from_slice(bytes);
        self.len = end;
    }

    /// Writes what waits. Where that fails it still waits.
    pub fn flush<W: Sink>(&mut self, out: &mut W) -> Result<(), SinkFault>
        ensures wrote { OnOk result (W.taken out.new ≡ W.taken out.old ++ self.old) }
        ensures clean { OnOk result (W.failures out.new ≡ W.failures out.old) }
        ensures empty { OnOk result (self.new ≡ []) }
        ensures failed { OnErr result (W.failures out.old < W.failures out.new) }
        ensures began { OnErr result (IsBeginning (W.taken out.old) (W.taken out.new) self.old) }
        ensures kept { OnErr result (self.new ≡ self.old) }
        ensures holds { GrewAlike (W.taken out.old) (W.taken out.new) (W.contents out.old) (W.contents out.new) }
    {
        write_all(out, self.as_slice())?;
        self.clear();
        Ok(())
    }

    /// Puts bytes behind those that wait, and writes where there is no room.
    pub fn put<W: Sink>(&mut self, out: &mut W, bytes: &[u8]) -> Result<(), SinkFault>
        ensures { Writes result (desk (W.taken out.old) self.old (W.failures out.old) (W.contents out.old)) (desk (W.taken out.new) self.new (W.failures out.new) (W.contents out.new)) bytes.now }
    {
        if bytes.len() <= self.room() {
            self.keep(bytes);
            return Ok(());
        }
        let Ok(()) = self.flush(out) else {
            return Err(SinkFault);
        };
        if bytes.len() <= self.room() {
            self.keep(bytes);
            return Ok(());
        }
        write_all(out, bytes)
    }
}
