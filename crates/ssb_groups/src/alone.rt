// Set functions over each of many values alone.

ghost use Rattle.std.specs.Prelude.{◌≡◌, true, length};
ghost use Rattle.ssb_groups.specs.Alone.{AreAlone, AreApplied, IsAlone, IsItself};
ghost use Rattle.ssb_groups.specs.Keys.{AreOfKind, IsOfKind};
ghost use Rattle.ssb_groups.specs.Tallies.{kept_numbers};
ghost use Rattle.ssb_keys.specs.declared.kept.Kept.{Kept as AnyKept};
ghost use Rattle.ssb_terms.specs.declared.rule.ColType.TheVariants as kinds;
ghost use Rattle.ssb_trees.specs.declared.aggregate.SetFunction.{SetFunction as AnyFunction};

use crate::outcome::{Operation, Outcome};
use ssb_keys::Kept;
use ssb_terms::ColType;
use ssb_trees::SetFunction;

/// A set function over one value alone.
#[inline(always)]
pub(crate) fn alone(function: SetFunction, cell: Kept) -> Kept
    ensures { IsAlone function cell result }
{
    match function {
        SetFunction::Sum => match cell {
            Kept::Null => Kept::Null,
            Kept::Number(number) => Kept::Number(number),
            Kept::Code(_) => Kept::Number(0),
        },
        SetFunction::Count => match cell {
            Kept::Null => Kept::Number(0),
            Kept::Number(_) | Kept::Code(_) => Kept::Number(1),
        },
        SetFunction::Min | SetFunction::Max => cell,
    }
}

// Whether a set function over a value of a column of this type alone is that value.
pub(crate) fn is_itself(function: SetFunction, kind: ColType) -> bool
    ensures { result ≡ true → IsItself function kind }
{
    match (function, kind) {
        (SetFunction::Count, _) | (SetFunction::Sum, ColType::Text) => false,
        (SetFunction::Sum, ColType::Int) | (SetFunction::Min | SetFunction::Max, _) => true,
    }
}

// Makes each of some values of a column of this type what a set function is over it alone.
pub(crate) fn alone_all(function: SetFunction, kind: ColType, cells: &mut [Kept])
    requires { AreOfKind kind cells.old }
    ensures { AreAlone function cells.old cells.new }
{
    if is_itself(function, kind) {
        return;
    }
    for at in 0..cells.len() {
        cells[at] = alone(function, cells[at]);
    }
}

// Makes totals those of a set function over what an operation makes of each two numbers that stand side by side, unless
// that is Over somewhere.
pub(crate) fn apply_all(
    operation: Operation,
    function: SetFunction,
    left: &[Kept],
    right: &[Kept],
    totals: &mut [Kept],
) -> bool
    requires left { length totals.old ≡ length left.now }
    requires right { length totals.old ≡ length right.now }
    ensures { result ≡ true → AreApplied operation function left.now right.now totals.new }
{
    for at in 0..totals.len() {
        let number = Outcome::of(left[at]).apply(operation, Outcome::of(right[at]));
        let Some(cell) = number.kept() else {
            return false;
        };
        totals[at] = alone(function, cell);
    }
    true
}

// Makes each number what an operation makes of it and of the one that stands beside it, unless 64 bits do not hold one
// of them.
pub(crate) fn apply_numbers(operation: Operation, left: &mut [i64], right: &[i64]) -> bool
    requires many { length left.old ≡ length right.now }
    requires left { AreOfKind kinds.Int (kept_numbers left.old) }
    requires right { AreOfKind kinds.Int (kept_numbers right.now) }
    ensures { (f : AnyFunction) → result ≡ true → IsItself f kinds.Int → AreApplied operation f (kept_numbers left.old) (kept_numbers right.now) (kept_numbers left.new) }
{
    for at in 0..left.len() {
        match operation.on(left[at], right[at]) {
            Some(number) => left[at] = number,
            None => return false,
        }
    }
    true
}
