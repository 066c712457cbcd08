// The number of an expression, which may be Over.

ghost use Rattle.std.specs.Prelude.{◌≡◌, List, IfSome, pos};
ghost use Rattle.ssb_groups.specs.Keys.{IsKept, spelt_cell};
ghost use Rattle.ssb_cells.specs.Cell.{Cell};
ghost use Rattle.ssb_groups.specs.Outcomes.{checked_outcome, exact, kept_outcome, outcome_of};
ghost use Rattle.ssb_groups.specs.Stands.{IsRanged};
ghost use Rattle.ssb_groups.specs.Value.{apply, checked, column_number};

use ssb_keys::Kept;

/// What is done with two numbers.
#[derive(Clone, Copy, PartialEq, Eq)]
pub(crate) enum Operation {
    /// Their sum.
    Plus,
    /// What the first is above the second.
    Minus,
    /// Their product.
    Times,
}

/// The number of an expression.
#[derive(Clone, Copy)]
pub(crate) enum Outcome {
    /// A number beyond 64 bits, at the end or on the way to it.
    Over,
    /// None.
    Null,
    /// A number.
    Number(i64),
}

impl Operation {
    // The exact number, where 64 bits hold it.
    #[inline(always)]
    pub(crate) fn on(self, a: i64, b: i64) -> Option<i64>
        ensures { checked_outcome result ≡ checked (exact self a b) }
    {
        match self {
            Operation::Plus => a.checked_add(b),
            Operation::Minus => a.checked_sub(b),
            Operation::Times => a.checked_mul(b),
        }
    }
}

impl Outcome {
    // That of a column's value; a text has none.
    pub(crate) fn of(cell: Kept) -> Outcome
        ensures { (values : List Cell) → outcome_of result ≡ column_number (spelt_cell values cell) }
    {
        match cell {
            Kept::Null | Kept::Code(_) => Outcome::Null,
            Kept::Number(number) => Outcome::Number(number),
        }
    }

    // A number of the query.
    pub(crate) fn of_number(number: u64) -> Outcome
        ensures { outcome_of result ≡ checked (pos number) }
    {
        match i64::try_from(number) {
            Ok(number) => Outcome::Number(number),
            Err(_) => Outcome::Over,
        }
    }

    // Over where an operand is, else null without two numbers, else exact, or Over beyond 64 bits.
    pub(crate) fn apply(self, operation: Operation, other: Outcome) -> Outcome
        ensures { outcome_of result ≡ apply (exact operation) (outcome_of self) (outcome_of other) }
    {
        match (self, other) {
            (Outcome::Over, _) | (_, Outcome::Over) => Outcome::Over,
            (Outcome::Number(a), Outcome::Number(b)) => match operation.on(a, b) {
                Some(number) => Outcome::Number(number),
                None => Outcome::Over,
            },
            _ => Outcome::Null,
        }
    }

    // What stands for it; None where it is Over.
    pub(crate) fn kept(self) -> Option<Kept>
        ensures value { (values : List Cell) → kept_outcome values result ≡ outcome_of self }
        ensures kept { (values : List Cell) → IfSome result (IsKept values) }
        ensures ranged { IsRanged (outcome_of self) }
    {
        match self {
            Outcome::Over => None,
            Outcome::Null => Some(Kept::Null),
            Outcome::Number(number) => Some(Kept::Number(number)),
        }
    }
}
