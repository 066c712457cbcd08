// Which conditions speak of one column alone.

ghost use Rattle.std.specs.Prelude.{◌≡◌};
ghost use Rattle.ssb_plan.specs.Sets.{is_column, is_other, sole_column};

use ssb_query::{BoundColumn, BoundOperand};
use ssb_trees::{Filter, Operand, Test};

// Any column.
#[derive(Clone, Copy)]
struct AnyColumn;

impl Test<BoundOperand> for AnyColumn {
    ghost passed = { λ _ o. is_column o };

    fn passes(&self, operand: &BoundOperand) -> bool {
        match operand {
            Operand::Column(_) => true,
            Operand::Literal(_) => false,
        }
    }
}

// A column other than this one.
#[derive(Clone, Copy)]
struct OtherThan {
    column: BoundColumn,
}

impl Test<BoundOperand> for OtherThan {
    ghost passed = { λ t o. is_other t.column o };

    fn passes(&self, operand: &BoundOperand) -> bool {
        match operand {
            Operand::Column(column) => *column != self.column,
            Operand::Literal(_) => false,
        }
    }
}

// The column of a condition, where it has one and no other.
pub(crate) fn sole_column(condition: &Filter<BoundColumn>) -> Option<BoundColumn>
    ensures { result ≡ sole_column condition.now }
{
    let Some(Operand::Column(column)) = condition.find(&AnyColumn) else {
        return None;
    };
    match condition.find(&OtherThan { column: *column }) {
        Some(_) => None,
        None => Some(*column),
    }
}
