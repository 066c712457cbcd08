// How answers of several sets become one.

ghost use Rattle.std.specs.Prelude.{◌≡◌};
ghost use Rattle.ssb_sets.specs.Joins.{joined, unit};

/// How several sets become one.
#[derive(Clone, Copy)]
pub enum Join {
    /// The numbers that any of them has; of no sets, no number.
    Or,
    /// The numbers that all of them have; of no sets, all numbers.
    And,
}

impl Join {
    // The answer of two sets.
    pub(crate) fn of(self, one: bool, other: bool) -> bool
        ensures { result ≡ joined self one other }
    {
        match self {
            Join::Or => one || other,
            Join::And => one && other,
        }
    }

    // The answer of no set.
    pub(crate) fn unit(self) -> bool
        ensures { result ≡ unit self }
    {
        match self {
            Join::Or => false,
            Join::And => true,
        }
    }
}
