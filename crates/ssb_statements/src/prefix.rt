// The first bytes of a text.

ghost use Rattle.std.specs.Prelude.{◌≡◌, ◌++◌, ◌+◌, ◌≤◌, ◌∷◌, [], length, min, slice_set, take, vec_len, IfOk};
ghost use Rattle.ssb_statements.specs.Bytes.{if_so};

use ssb_records::History;
use std::alloc::{AllocError, Global};

/// The bytes of a text that come one by one, of which the first are kept, as many as there is room for.
#[derive(Drop)]
pub(crate) struct Prefix {
    kept: Vec<u8>,
    // How many bytes there are, or one more than there is room for where they are more.
    count: usize,
    all: History<u8>,
    ghost counted: { count ≡ min (length all.items) (vec_len kept + 1) },
    ghost same: { take count kept.items ≡ take (vec_len kept) all.items },
}

// Stores a byte, where there is room.
fn store(text: &mut Vec<u8>, at: usize, byte: u8)
    ensures items { text.new.items ≡ slice_set text.old.items at byte }
    ensures len { vec_len text.new ≡ vec_len text.old }
{
    if at < text.len() {
        text[at] = byte;
    }
}

impl Prefix {
    ghost use Rattle.ssb_statements.specs.Cutting.{IsWholeLen};

    /// No bytes, and room for so many.
    ///
    /// # Errors
    ///
    /// `AllocError` where the room was refused.
    pub(crate) fn new(alloc: Global, room: usize) -> Result<Prefix, AllocError>
        ensures none { IfOk result (λ p. p.all.items ≡ []) }
        ensures room { IfOk result (λ p. vec_len p.kept ≡ room) }
    {
        let mut kept = Vec::new(alloc);
        kept.resize(room, 0)?;
        Ok(Prefix {
            kept,
            count: 0,
            all: History::new(),
        })
    }

    /// No bytes of a text that begins. Those that were kept stay until others come.
    pub(crate) fn clear(&mut self)
        ensures none { self.new.all.items ≡ [] }
        ensures kept { self.new.kept ≡ self.old.kept }
    {
        self.count = 0;
        self.all = History::new();
    }

    /// One byte more.
    pub(crate) fn put(&mut self, byte: u8)
        ensures all { self.new.all.items ≡ self.old.all.items ++ byte ∷ [] }
        ensures room { vec_len self.new.kept ≡ vec_len self.old.kept }
    {
        store(&mut self.kept, self.count, byte);
        self.count = (self.count + 1).min(self.kept.len() + 1);
        self.all = self.all.and(&byte);
    }

    /// One byte more, where this is so.
    pub(crate) fn put_if(&mut self, is_so: bool, byte: u8)
        ensures all { self.new.all.items ≡ self.old.all.items ++ if_so is_so byte }
        ensures room { vec_len self.new.kept ≡ vec_len self.old.kept }
    {
        if is_so {
            self.put(byte);
        }
    }

    /// How many bytes there are, if all are kept.
    pub(crate) fn whole_len(&self) -> Option<usize>
        ensures { IsWholeLen self.now result }
    {
        if self.count > self.kept.len() {
            return None;
        }
        Some(self.count)
    }

    /// The bytes that are kept of this text and of those before, so many of them.
    pub(crate) fn front(&self, len: usize) -> &[u8]
        requires { len ≤ vec_len self.now.kept }
        ensures { result.now ≡ take len self.now.kept.items }
    {
        &self.kept[..len]
    }

    /// The bytes that are kept.
    pub(crate) fn as_slice(&self) -> &[u8]
        ensures { result.now ≡ take (vec_len self.now.kept) self.now.all.items }
    {
        &self.kept[..self.count.min(self.kept.len())]
    }
}
