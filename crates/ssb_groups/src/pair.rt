// Expressions of two columns.

ghost use Rattle.std.specs.Prelude.{IfSome};
ghost use Rattle.ssb_groups.specs.Pairs.{AreSides, IsOperation, IsPairOf};

use crate::outcome::Operation;
use ssb_plan::ColumnRef;
use ssb_terms::Adding;
use ssb_trees::Expr;

/// Two columns, and what is done with their numbers.
#[derive(Clone, Copy)]
pub(crate) struct Pair {
    pub(crate) left: ColumnRef,
    pub(crate) operation: Operation,
    pub(crate) right: ColumnRef,
}

fn operation_of(adding: Adding) -> Operation
    ensures { IsOperation adding result }
{
    match adding {
        Adding::Plus => Operation::Plus,
        Adding::Minus => Operation::Minus,
    }
}

// The pair of two operands that are columns.
fn pair_with(left: &Expr<ColumnRef>, operation: Operation, right: &Expr<ColumnRef>) -> Option<Pair>
    ensures { IfSome result (AreSides left.now operation right.now) }
{
    match (left, right) {
        (Expr::Column(left), Expr::Column(right)) => Some(Pair {
            left: *left,
            operation,
            right: *right,
        }),
        _ => None,
    }
}

// The pair that an expression is, if it is the sum, the difference or the product of two columns.
pub(crate) fn pair_of(expr: &Expr<ColumnRef>) -> Option<Pair>
    ensures { IfSome result (IsPairOf expr.now) }
{
    match expr {
        Expr::Chain(first, steps) => match steps.as_slice() {
            [step] => pair_with(first.get(), operation_of(step.adding), &step.term),
            _ => None,
        },
        Expr::Times(factors) => match factors.as_slice() {
            [left, right] => pair_with(left, Operation::Times, right),
            _ => None,
        },
        _ => None,
    }
}
