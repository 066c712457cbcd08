// A source that is read up to its end.

ghost use Rattle.std.specs.Prelude.{◌≡◌, ◌<◌, length, true, false};

use ssb_records::{Source, SourceFault};

/// A source, which is not read again once it met its end.
pub(crate) struct Input<S: Source> {
    pub(crate) source: S,
    pub(crate) ended: bool,
    ghost over: { ended ≡ true → 0 < S.ends source },
}

impl<S: Source> Input<S> {
    ghost use Rattle.ssb_statements.specs.Reading.{WasRead};

    /// The source before any read.
    pub(crate) fn new(source: S) -> Input<S>
        ensures source { result.source ≡ source }
        ensures ended { result.ended ≡ false }
    {
        Input {
            source,
            ended: false,
        }
    }

    /// The source itself.
    pub(crate) fn into_source(self) -> S
        ensures { result ≡ self.source }
    {
        let Input { source, ended: _ } = self;
        source
    }

    /// Reads some bytes into the front of the room, and says how many: none once the source met its
    /// end.
    ///
    /// # Errors
    ///
    /// `SourceFault` where the read failed.
    pub(crate) fn read(&mut self, room: &mut [u8]) -> Result<usize, SourceFault>
        requires { 0 < length room.old }
        ensures { WasRead self.old result room.new self.new }
    {
        if self.ended {
            return Ok(0);
        }
        let count = self.source.read(room)?;
        self.ended = count == 0;
        Ok(count)
    }
}
