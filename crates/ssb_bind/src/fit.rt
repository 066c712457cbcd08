// How many things a name fits.

ghost use Rattle.std.specs.Prelude.{◌≡◌};
ghost use Rattle.ssb_bind.specs.Columns.{and_one};

/// How many a name or an order key fits.
#[derive(Drop)]
pub enum Fit<T> {
    /// None.
    Missing,
    /// One, and which.
    One(T),
    /// Two or more.
    Several,
}

impl<T: Copy> Fit<T> {
    /// How many there are with one more.
    pub fn and_one(self, other: T) -> Fit<T>
        ensures { result ≡ and_one self other }
    {
        match self {
            Fit::Missing => Fit::One(other),
            _ => Fit::Several,
        }
    }
}

/// What can be wrong with a column's name.
#[derive(Clone, Copy)]
pub enum Wrong {
    /// It fits no column.
    Unknown,
    /// It fits two or more.
    Ambiguous,
}
