// Conditions over any operands.

use sqlite_items::{Boxed, Items};
use ssb_terms::{Literal, Op};

/// A condition over operands. Parentheses round one thing leave no trace.
pub enum Condition<O> {
    /// Two or more, joined by OR.
    Any(Items<Condition<O>>),
    /// Two or more, joined by AND.
    All(Items<Condition<O>>),
    /// NOT before one test.
    Not(Boxed<Condition<O>>),
    /// A comparison of the left operand to the right one.
    Compare(Op, O, O),
    /// Whether the operand lies between two others.
    Between {
        operand: O,
        low: O,
        high: O,
        /// Whether it is NOT BETWEEN.
        negated: bool,
    },
    /// Whether the operand is one of the literals.
    In {
        operand: O,
        literals: Items<Literal>,
        /// Whether it is NOT IN.
        negated: bool,
    },
    /// Whether the operand has no value.
    IsNull {
        operand: O,
        /// Whether it is IS NOT NULL.
        negated: bool,
    },
}

// Written out, so that the crates above need no proof of how the parts of a condition are let go.
impl<O: Drop> Drop for Condition<O> {
    fn drop(self) {
        match self {
            Condition::Any(parts) | Condition::All(parts) => drop(parts),
            Condition::Not(part) => drop(part),
            Condition::Compare(_, a, b) => {
                drop(a);
                drop(b);
            }
            Condition::Between {
                operand,
                low,
                high,
                negated: _,
            } => {
                drop(operand);
                drop(low);
                drop(high);
            }
            Condition::In {
                operand,
                literals,
                negated: _,
            } => {
                drop(operand);
                drop(literals);
            }
            Condition::IsNull {
                operand,
                negated: _,
            } => drop(operand),
        }
    }
}
