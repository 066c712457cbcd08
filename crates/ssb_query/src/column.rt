// Columns of a query's tables, and copies of conditions over them.

ghost use Rattle.std.specs.Prelude.{◌≡◌, true, IfOk};

use ssb_trees::{Filter, Leaves, Operand, mapped_columns};
use std::alloc::{AllocError, Global};

/// A column of a table of FROM.
#[derive(Clone, Copy, PartialEq, Eq)]
pub struct BoundColumn {
    /// The table's place in FROM, from 0.
    pub table: usize,
    /// The column's place in its table, from 0.
    pub column: usize,
}

/// What a test of WHERE compares, once its names are bound.
pub type BoundOperand = Operand<BoundColumn>;

// Each column becomes a copy of it.
struct Copying;

impl Leaves<BoundColumn, BoundColumn> for Copying {
    ghost taken = { λ _. true };

    ghost given = { λ _ c. c };

    fn leaf(&self, _alloc: Global, column: &BoundColumn) -> Result<BoundColumn, AllocError> {
        Ok(*column)
    }
}

/// A copy of a condition.
///
/// # Errors
///
/// Only where a growth was refused.
pub fn copy_condition(
    alloc: Global,
    condition: &Filter<BoundColumn>,
) -> Result<Filter<BoundColumn>, AllocError>
    ensures { IfOk result (λ c. c ≡ condition.now) }
{
    mapped_columns(alloc, condition, &Copying)
}
