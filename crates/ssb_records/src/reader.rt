// A reader of std as a source.

ghost use Rattle.std.specs.Prelude.{◌≡◌, [], length};
ghost use Rattle.ssb_records.specs.Giving.{Leaves};
ghost use Rattle.ssb_records.specs.Settled.{begins, settles};

use crate::history::History;
use crate::source::{Source, SourceFault};
use std::io::Read;
use std::mem;
use std::snapshot::Snapshot;

/// A reader, with the history of what it gave, of its failures and of its ends. The histories take no
/// memory.
pub struct In<R: Read> {
    reader: R,
    begun: Snapshot<R>,
    given: History<u8>,
    failed: History<()>,
    ended: History<()>,
    // What the reader has left, where that is known.
    ghost known: { ∥ Leaves (R.remaining begun.value) (R.remaining reader) given.items (length ended.items) ∥₁ },
}

// Written out, so that the crates above need no proof of how its parts are let go.
impl<R: Read + Drop> Drop for In<R> {
    fn drop(self) {
        drop(self.into_reader());
    }
}

impl<R: Read> In<R> {
    /// The reader before any read.
    pub fn new(reader: R) -> In<R>
        ensures given { result.given.items ≡ [] }
        ensures failed { result.failed.items ≡ [] }
        ensures ended { result.ended.items ≡ [] }
        ensures begun { result.begun.value ≡ reader }
    {
        let begun = Snapshot::of(&reader);
        In {
            reader,
            begun,
            given: History::new(),
            failed: History::new(),
            ended: History::new(),
        }
    }

    /// The reader itself, as the reads left it.
    pub fn into_reader(self) -> R
        ensures { result ≡ self.reader }
    {
        let In {
            reader,
            begun: _,
            given: _,
            failed: _,
            ended: _,
        } = self;
        reader
    }
}

impl<R: Read> Source for In<R> {
    ghost given = { λ source. source.given.items };

    ghost failures = { λ source. length source.failed.items };

    ghost ends = { λ source. length source.ended.items };

    ghost whole = { λ source. R.remaining source.begun.value };

    fn read(&mut self, room: &mut [u8]) -> Result<usize, SourceFault> {
        match self.reader.read(room) {
            Ok(count) => {
                let given = mem::replace(&mut self.given, History::new());
                self.given = given.and_all(&room[..count]);
                if count == 0 && !room.is_empty() {
                    self.ended = self.ended.and(&());
                }
                Ok(count)
            }
            Err(_) => {
                self.failed = self.failed.and(&());
                Err(SourceFault)
            }
        }
    }

    ghost begins = { λ source. begins _ _ _ _ source.known };

    ghost settled = { λ source more. settles _ _ _ _ source.known more };
}
