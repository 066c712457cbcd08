// Aggregates over any columns.

ghost use Rattle.std.specs.Prelude.{◌≡◌, true, IfOk};
ghost use Rattle.std.specs.List.{list_all};
ghost use Rattle.ssb_trees.specs.Expressions.{aggregate_columns, mapped_aggregate};

use crate::expr::Expr;
use crate::leaf::{Leaves, Made};
use std::alloc::Global;

/// What is computed of an expression's values (SQL-92, 6.5).
#[derive(Clone, Copy)]
pub enum SetFunction {
    /// Their sum.
    Sum,
    /// How many there are.
    Count,
    /// The least of them.
    Min,
    /// The greatest of them.
    Max,
}

/// What is computed over rows.
pub enum Aggregate<C> {
    /// How many rows there are: COUNT(*).
    Rows,
    /// A set function of an expression's values, those that are not null.
    Of(SetFunction, Expr<C>),
}

// Written out, so that the crates above need no proof of how its parts are let go.
impl<C: Drop> Drop for Aggregate<C> {
    fn drop(self) {
        match self {
            Aggregate::Rows => {}
            Aggregate::Of(_, expr) => drop(expr),
        }
    }
}

impl<C> Aggregate<C> {
    /// The same aggregate over what each column becomes.
    ///
    /// # Errors
    ///
    /// Only where a growth was refused.
    pub fn mapped<D: Drop, M: Leaves<C, D>>(&self, alloc: Global, columns: &M) -> Made<Aggregate<D>>
        requires { list_all M.taken (aggregate_columns self.now) ≡ true }
        ensures { IfOk result (λ a. a ≡ mapped_aggregate (M.given columns.now) self.now) }
    {
        match self {
            Aggregate::Rows => Ok(Aggregate::Rows),
            Aggregate::Of(function, expr) => {
                let expr = expr.mapped(alloc, columns)?;
                Ok(Aggregate::Of(*function, expr))
            }
        }
    }
}
