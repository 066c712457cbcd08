// Where the bytes of a script stand.

ghost use Rattle.std.specs.Prelude.{◌≡◌, ◌≤◌, ◌↔◌, ◌+◌, ◌++◌, ◌∷◌, [], ℕ, List, length, take, if◌then◌else◌, IsTrue};
ghost use Rattle.ssb_tokens.specs.Statements.{statements_of};
ghost use Rattle.ssb_statements.specs.Cutting.{Passes, cut};
ghost use Rattle.ssb_statements.specs.Parting.{HasNoCommand, IsBeforeCommand, begins_line};

use crate::boundary::Boundary;
use ssb_records::History;
use std::mem;

const LF: u8 = b'\n';

/// Where the next byte stands behind those that were passed: at the head of a line or not, where a
/// statement may begin or not.
#[derive(Drop)]
pub(crate) struct Position {
    boundary: Boundary,
    // Whether a line begins here.
    at_head: bool,
    // The bytes that were passed, and how many statements have ended in them.
    all: History<u8>,
    told: History<()>,
    ghost few: { length told.items ≤ length (statements_of all.items) },
    ghost known: { (more : List ℕ) → statements_of (all.items ++ more) ≡ take (length told.items) (statements_of all.items) ++ cut boundary more },
    ghost head: { at_head ≡ begins_line all.items },
    ghost none: { HasNoCommand all.items },
}

// Takes a byte, and says whether a statement ends with it; then the next one is at hand.
fn take_byte(boundary: &mut Boundary, byte: u8) -> bool
    ensures { Passes result boundary.old byte boundary.new }
{
    let has_ended = boundary.take(byte).ends;
    if has_ended {
        boundary.reset();
    }
    has_ended
}

/// One more, where this is so.
pub(crate) fn counted(noted: History<()>, is_so: bool) -> History<()>
    ensures { length result.items ≡ length noted.items + (if is_so then 1 else 0) }
{
    if is_so { noted.and(&()) } else { noted }
}

impl Position {
    /// Before all bytes.
    pub(crate) fn new() -> Position
        ensures { result.all.items ≡ [] }
    {
        Position {
            boundary: Boundary::new(),
            at_head: true,
            all: History::new(),
            told: History::new(),
        }
    }

    /// Whether a command begins here, where a `.` is the next byte.
    pub(crate) fn is_before_command(&self) -> bool
        ensures { IsTrue result ↔ IsBeforeCommand self.now.all.items }
    {
        self.at_head && self.boundary.is_clear()
    }

    /// Passes a byte that begins no command.
    pub(crate) fn pass(&mut self, byte: u8)
        requires { byte ≡ 46 → ¬ IsBeforeCommand self.old.all.items }
        ensures { self.new.all.items ≡ self.old.all.items ++ byte ∷ [] }
    {
        let has_ended = take_byte(&mut self.boundary, byte);
        let told = mem::replace(&mut self.told, History::new());
        self.told = counted(told, has_ended);
        self.at_head = byte == LF;
        self.all = self.all.and(&byte);
    }

    /// Begins anew, before all bytes.
    pub(crate) fn restart(&mut self)
        ensures { self.new.all.items ≡ [] }
    {
        self.boundary.reset();
        self.at_head = true;
        self.all = History::new();
        self.told = History::new();
    }
}
