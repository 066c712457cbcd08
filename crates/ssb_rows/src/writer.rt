// A writer of std as a sink.
ghost use Rattle.std.specs.Prelude.{◌≡◌, [], length};
ghost use Rattle.std.specs.Io.KnownBytes.{Appends};

use crate::sink::{Sink, SinkFault};
use ssb_records::History;
use std::io::Write;
use std::mem;
use std::snapshot::Snapshot;

/// A writer, with the history of what it took and of its failures. The history takes no memory.
#[derive(Drop)]
pub struct Out<W: Write> {
    writer: W,
    begun: Snapshot<W>,
    taken: History<u8>,
    failed: History<()>,
    // What the writer holds, where that is known: what it held, and the bytes taken.
    ghost known: { ∥ Appends (W.contents begun.value) (W.contents writer) taken.items ∥₁ },
}

impl<W: Write> Out<W> {
    /// The writer before any write.
    pub fn new(writer: W) -> Out<W>
        ensures taken { result.taken.items ≡ [] }
        ensures failed { result.failed.items ≡ [] }
        ensures begun { result.begun.value ≡ writer }
        ensures writer { result.writer ≡ writer }
    {
        let begun = Snapshot::of(&writer);
        Out {
            writer,
            begun,
            taken: History::new(),
            failed: History::new(),
        }
    }

    /// The writer itself, as the writes left it, so that a caller can flush it.
    pub fn into_writer(self) -> W
        ensures { result ≡ self.writer }
    {
        let Out {
            writer,
            begun: _,
            taken: _,
            failed: _,
        } = self;
        writer
    }
}

impl<W: Write> Sink for Out<W> {
    ghost taken = { λ out. out.taken.items };

    ghost failures = { λ out. length out.failed.items };

    ghost contents = { λ out. W.contents out.writer };

    fn write(&mut self, bytes: &[u8]) -> Result<usize, SinkFault> {
        match self.writer.write(bytes) {
            Ok(count) => {
                let history = mem::replace(&mut self.taken, History::new());
                self.taken = history.and_all(&bytes[..count]);
                if count == 0 && !bytes.is_empty() {
                    self.failed = self.failed.and(&());
                }
                Ok(count)
            }
            Err(_) => {
                self.failed = self.failed.and(&());
                Err(SinkFault)
            }
        }
    }
}
