// Where a statement begins and where it ends.

ghost use Rattle.std.specs.Prelude.{◌≡◌, ◌++◌, ◌∷◌, [], false, ◌↔◌, IsTrue};
ghost use Rattle.ssb_tokens.specs.Tokens.{is_blank};
ghost use Rattle.ssb_statements.specs.Bytes.{has_any, if_so};

use ssb_records::History;

/// Where the next byte stands.
#[derive(Clone, Copy)]
pub(crate) enum Place {
    /// Outside text literals and comments.
    Plain,
    /// There too, behind a `-` that may begin a comment.
    Dash,
    /// In a text literal.
    Literal,
    /// In a comment.
    Comment,
}

/// What is to be done with a byte.
#[derive(Clone, Copy)]
pub(crate) struct Taken {
    /// Whether the `-` before it belongs to the statement at hand, where that was left open.
    pub(crate) dash: bool,
    /// Whether the byte does, as far as it is known.
    pub(crate) byte: bool,
    /// Whether the statement ends with it.
    pub(crate) ends: bool,
}

/// What is known of the statement at hand, of which bytes come one by one. It keeps none of them. What takes a
/// byte is inlined, since it is called for each.
#[derive(Drop)]
pub(crate) struct Boundary {
    place: Place,
    // Whether the statement has a byte so far.
    has_begun: bool,
    // Its bytes so far.
    so_far: History<u8>,
    ghost begun: { has_begun ≡ has_any so_far.items },
}

#[inline(always)]
fn is_blank(byte: u8) -> bool
    ensures { result ≡ is_blank byte }
{
    byte == b' ' || byte == b'\t' || byte == b'\n' || byte == b'\r'
}

// A byte with which no statement ends: whether it belongs to the one at hand.
#[inline(always)]
fn going_on(byte: bool) -> Taken
    ensures { result ≡ record { dash = false; byte = byte; ends = false } }
{
    Taken {
        dash: false,
        byte,
        ends: false,
    }
}

impl Boundary {
    ghost use Rattle.ssb_statements.specs.Cutting.{IsClear, IsTaken, cut, taken_bytes};
    ghost use Rattle.ssb_tokens.specs.Statements.{if_any, within};

    /// No statement is at hand.
    pub(crate) fn new() -> Boundary
        ensures { IsClear result }
    {
        Boundary {
            place: Place::Plain,
            has_begun: false,
            so_far: History::new(),
        }
    }

    /// Begins anew.
    pub(crate) fn reset(&mut self)
        ensures { IsClear self.new }
    {
        self.place = Place::Plain;
        self.has_begun = false;
        self.so_far = History::new();
    }

    /// Whether nothing is at hand, not even a comment.
    pub(crate) fn is_clear(&self) -> bool
        ensures { IsTrue result ↔ IsClear self.now }
    {
        match self.place {
            Place::Plain => !self.has_begun,
            Place::Dash | Place::Literal | Place::Comment => false,
        }
    }

    /// Whether the statement at hand has a byte so far.
    pub(crate) fn has_begun(&self) -> bool
        ensures { result ≡ has_any self.now.so_far.items }
    {
        self.has_begun
    }

    // One byte more of the statement.
    #[inline(always)]
    fn put(&mut self, byte: u8)
        ensures so_far { self.new.so_far.items ≡ self.old.so_far.items ++ byte ∷ [] }
        ensures place { self.new.place ≡ self.old.place }
    {
        self.has_begun = true;
        self.so_far = self.so_far.and(&byte);
    }

    // One byte more, which belongs to the statement where that has begun: whether it does.
    #[inline(always)]
    fn put_within(&mut self, byte: u8) -> bool
        ensures so_far { self.new.so_far.items ≡ within self.old.so_far.items byte }
        ensures bytes { self.new.so_far.items ≡ self.old.so_far.items ++ if_so result byte }
        ensures place { self.new.place ≡ self.old.place }
    {
        if !self.has_begun {
            return false;
        }
        self.put(byte);
        true
    }

    // A `;` outside text literals and comments, which ends the statement where it has begun.
    fn take_end(&mut self) -> Taken
        requires { self.old.place ≡ Place.Plain }
        ensures dash { result.dash ≡ false }
        ensures bytes { self.new.so_far.items ≡ self.old.so_far.items ++ taken_bytes result 59 }
        ensures cut { IsTaken result.ends self.old 59 self.new }
    {
        if !self.has_begun {
            return going_on(false);
        }
        self.put(b';');
        Taken {
            dash: false,
            byte: true,
            ends: true,
        }
    }

    // One byte more outside text literals and comments.
    #[inline(always)]
    fn take_plain(&mut self, byte: u8) -> Taken
        requires { self.old.place ≡ Place.Plain }
        ensures dash { result.dash ≡ false }
        ensures bytes { self.new.so_far.items ≡ self.old.so_far.items ++ taken_bytes result byte }
        ensures cut { IsTaken result.ends self.old byte self.new }
    {
        if byte == b';' {
            return self.take_end();
        }
        if byte == b'-' {
            self.place = Place::Dash;
            return going_on(false);
        }
        if byte == b'\'' {
            self.put(byte);
            self.place = Place::Literal;
            return going_on(true);
        }
        if is_blank(byte) {
            return going_on(self.put_within(byte));
        }
        self.put(byte);
        going_on(true)
    }

    // One byte more behind a `-`: with another one a comment begins.
    fn take_behind_dash(&mut self, byte: u8) -> Taken
        requires { self.old.place ≡ Place.Dash }
        ensures bytes { self.new.so_far.items ≡ self.old.so_far.items ++ taken_bytes result byte }
        ensures cut { IsTaken result.ends self.old byte self.new }
    {
        if byte == b'-' {
            let dash = self.put_within(b'-');
            let byte = self.put_within(b'-');
            self.place = Place::Comment;
            return Taken {
                dash,
                byte,
                ends: false,
            };
        }
        self.put(b'-');
        self.place = Place::Plain;
        let Taken {
            dash: _,
            byte,
            ends,
        } = self.take_plain(byte);
        Taken {
            dash: true,
            byte,
            ends,
        }
    }

    // One byte more in a text literal.
    #[inline(always)]
    fn take_in_literal(&mut self, byte: u8) -> Taken
        requires { self.old.place ≡ Place.Literal }
        ensures bytes { self.new.so_far.items ≡ self.old.so_far.items ++ taken_bytes result byte }
        ensures cut { IsTaken result.ends self.old byte self.new }
    {
        self.put(byte);
        if byte == b'\'' {
            self.place = Place::Plain;
        }
        going_on(true)
    }

    // One byte more in a comment.
    #[inline(always)]
    fn take_in_comment(&mut self, byte: u8) -> Taken
        requires { self.old.place ≡ Place.Comment }
        ensures bytes { self.new.so_far.items ≡ self.old.so_far.items ++ taken_bytes result byte }
        ensures cut { IsTaken result.ends self.old byte self.new }
    {
        let is_within = self.put_within(byte);
        if byte == b'\n' {
            self.place = Place::Plain;
        }
        going_on(is_within)
    }

    /// Takes one byte, and says what is to be done with it.
    #[inline(always)]
    pub(crate) fn take(&mut self, byte: u8) -> Taken
        ensures bytes { self.new.so_far.items ≡ self.old.so_far.items ++ taken_bytes result byte }
        ensures cut { IsTaken result.ends self.old byte self.new }
    {
        match self.place {
            Place::Plain => self.take_plain(byte),
            Place::Dash => self.take_behind_dash(byte),
            Place::Literal => self.take_in_literal(byte),
            Place::Comment => self.take_in_comment(byte),
        }
    }

    /// No byte follows: whether a `-` before belongs to the statement, where that was left open.
    pub(crate) fn end(&mut self) -> bool
        ensures bytes { self.new.so_far.items ≡ self.old.so_far.items ++ if_so result 45 }
        ensures cut { cut self.old [] ≡ if_any self.new.so_far.items }
    {
        if let Place::Dash = self.place {
            self.put(b'-');
            return true;
        }
        false
    }
}
