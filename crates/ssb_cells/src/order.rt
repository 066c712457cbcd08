// Two values beside each other: what a comparison says of them, and which comes first.

ghost use Rattle.std.specs.Prelude.{◌≡◌};
ghost use Rattle.ssb_cells.specs.Compare.{compare, meets};
ghost use Rattle.ssb_cells.specs.Order.{cell_cmp};
ghost use Rattle.ssb_cells.specs.Values.{cell_of};

use crate::truth::Truth;
use crate::value::Value;
use ssb_terms::Op;
use std::cmp::Ordering;

fn meets(op: Op, order: Ordering) -> bool
    ensures { result ≡ meets op order }
{
    match op {
        Op::Eq => order.is_eq(),
        Op::Ne => order.is_ne(),
        Op::Lt => order.is_lt(),
        Op::Le => order.is_le(),
        Op::Gt => order.is_gt(),
        Op::Ge => order.is_ge(),
    }
}

/// What a comparison says of two values: Unknown where either is null (SQL-92, 8.2), else True or
/// False by the order of [`sort_cmp`]. A number beside a text compares as that order has it, the
/// number below the text; no query that was bound to its tables asks for it.
pub fn compare(op: Op, left: &Value<'_>, right: &Value<'_>) -> Truth
    ensures { result ≡ compare op (cell_of left.now) (cell_of right.now) }
{
    match (left, right) {
        (Value::Null, _) | (_, Value::Null) => Truth::Unknown,
        _ => {
            if meets(op, sort_cmp(left, right)) {
                Truth::True
            } else {
                Truth::False
            }
        }
    }
}

/// The order of values: null is least, then come numbers by their size, then texts by their UTF-8
/// bytes, a beginning of a text before the text. Texts are not padded: spaces at the end count.
/// Numbers are as in SQL-92, 8.2; the rest is this project's own.
pub fn sort_cmp(left: &Value<'_>, right: &Value<'_>) -> Ordering
    ensures { result ≡ cell_cmp (cell_of left.now) (cell_of right.now) }
{
    match (left, right) {
        (Value::Null, Value::Null) => Ordering::Equal,
        (Value::Null, _) => Ordering::Less,
        (_, Value::Null) => Ordering::Greater,
        (Value::Int(left), Value::Int(right)) => left.cmp(right),
        (Value::Int(_), Value::Text(_)) => Ordering::Less,
        (Value::Text(_), Value::Int(_)) => Ordering::Greater,
        (Value::Text(left), Value::Text(right)) => left.cmp(right),
    }
}
