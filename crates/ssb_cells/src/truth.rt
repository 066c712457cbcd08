// Three-valued logic.

ghost use Rattle.std.specs.Prelude.{◌≡◌};
ghost use Rattle.ssb_cells.specs.Truth.{and, is_true, not, or};

/// What a condition says of a row: with nulls there are three answers. (SQL-92, 8.12.)
#[derive(Clone, Copy, PartialEq, Eq, Debug)]
pub enum Truth {
    /// It holds.
    True,
    /// It does not hold.
    False,
    /// A null leaves it open.
    Unknown,
}

impl Truth {
    /// AND: False where one of the two is False, True where both are True, else Unknown.
    pub fn and(self, other: Truth) -> Truth
        ensures { result ≡ and self other }
    {
        match (self, other) {
            (Truth::False, _) | (_, Truth::False) => Truth::False,
            (Truth::True, Truth::True) => Truth::True,
            _ => Truth::Unknown,
        }
    }

    /// OR: True where one of the two is True, False where both are False, else Unknown.
    pub fn or(self, other: Truth) -> Truth
        ensures { result ≡ or self other }
    {
        match (self, other) {
            (Truth::True, _) | (_, Truth::True) => Truth::True,
            (Truth::False, Truth::False) => Truth::False,
            _ => Truth::Unknown,
        }
    }

    /// NOT: Unknown stays Unknown.
    pub fn not(self) -> Truth
        ensures { result ≡ not self }
    {
        match self {
            Truth::True => Truth::False,
            Truth::False => Truth::True,
            Truth::Unknown => Truth::Unknown,
        }
    }

    /// Whether it is True: WHERE keeps a row only then, and drops it where this is Unknown.
    pub fn is_true(self) -> bool
        ensures { result ≡ is_true self }
    {
        self == Truth::True
    }
}
