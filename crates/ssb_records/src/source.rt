// What gives bytes.

ghost use Rattle.std.specs.Prelude.{◌≡◌, ◌+◌, ◌++◌, ◌≤◌, ◌<◌, ℕ, List, length, take, Option, IfOk, IfSome};
ghost use Rattle.ssb_records.specs.Giving.{given_of, failures_of, ends_of};

/// How many bytes of a source are taken at once, where no line is longer.
pub const PIECE_SIZE: usize = 262_144;

/// A read failed.
#[derive(Clone, Copy, PartialEq, Eq, Debug)]
pub struct SourceFault;

/// What gives bytes, and tells in contracts which it gave, how often it failed, and how often it met
/// its end.
pub trait Source {
    /// The bytes that it gave.
    ghost given: { Self → List ℕ };

    /// How often a read answered an error.
    ghost failures: { Self → ℕ };

    /// How often a read into some room gave no byte.
    ghost ends: { Self → ℕ };

    /// All its bytes, given and to come, where they are told.
    ghost whole: { Self → Option (List ℕ) };

    /// Reads some bytes into the front of the room, and says how many. No byte into some room is the
    /// end. A read that a signal interrupts is a failed one.
    fn read(&mut self, room: &mut [u8]) -> Result<usize, SourceFault>
        ensures bound { IfOk result (λ count. count ≤ length room.new) }
        ensures given { given self.new ≡ given self.old ++ given_of result room.new }
        ensures failures { failures self.new ≡ failures self.old + failures_of result }
        ensures ends { ends self.new ≡ ends self.old + ends_of result room.new }
        ensures whole { whole self.new ≡ whole self.old };

    /// What was given is a beginning of all, where that is told.
    ghost begins: { (s : Self) → IfSome (whole s) (λ all. take (length (given s)) all ≡ given s) };

    /// Once the end was met, what was given is all, where that is told.
    ghost settled: { (s : Self) → 0 < ends s → IfSome (whole s) (λ all. given s ≡ all) };
}
