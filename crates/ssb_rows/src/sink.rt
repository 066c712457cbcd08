// What takes bytes.
ghost use Rattle.std.specs.Prelude.{◌≡◌, ◌+◌, ◌++◌, ◌≤◌, ℕ, List, Option, length, IfOk, OnOk, OnErr, ◌<◌};
ghost use Rattle.std.specs.Io.KnownBytes.{Appends};
ghost use Rattle.ssb_rows.specs.Taking.{taken_of, write_failures, GrewAlike, IsBeginning};

/// A write failed.
#[derive(Clone, Copy, PartialEq, Eq, Debug)]
pub struct SinkFault;

/// What takes bytes, and tells in contracts which it took, how often it failed, and what it holds.
pub trait Sink {
    /// The bytes that it took.
    ghost taken: { Self → List ℕ };

    /// How often a write answered an error, or took no byte of some.
    ghost failures: { Self → ℕ };

    /// What it holds, where that is known, as std's `Write` tells.
    ghost contents: { Self → Option (List ℕ) };

    /// Takes some of the bytes from the front, and says how many.
    fn write(&mut self, bytes: &[u8]) -> Result<usize, SinkFault>
        ensures bound { IfOk result (λ count. count ≤ length bytes.now) }
        ensures taken { taken self.new ≡ taken self.old ++ taken_of result bytes.now }
        ensures failures { failures self.new ≡ failures self.old + write_failures result bytes.now }
        ensures contents { Appends (contents self.old) (contents self.new) (taken_of result bytes.now) };
}

/// Writes all bytes.
pub fn write_all<W: Sink>(out: &mut W, text: &[u8]) -> Result<(), SinkFault>
    ensures wrote { OnOk result (W.taken out.new ≡ W.taken out.old ++ text.now) }
    ensures clean { OnOk result (W.failures out.new ≡ W.failures out.old) }
    ensures failed { OnErr result (W.failures out.old < W.failures out.new) }
    ensures began { OnErr result (IsBeginning (W.taken out.old) (W.taken out.new) text.now) }
    ensures holds { GrewAlike (W.taken out.old) (W.taken out.new) (W.contents out.old) (W.contents out.new) }
{
    let mut rest = text;
    while !rest.is_empty() {
        let Ok(count) = out.write(rest) else {
            return Err(SinkFault);
        };
        if count == 0 {
            return Err(SinkFault);
        }
        rest = &rest[count..];
    }
    Ok(())
}
