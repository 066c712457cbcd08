// The first column of an expression that passes a test.

ghost use Rattle.std.specs.Prelude.{◌≡◌, find, map};
ghost use Rattle.std.specs.Option.{option_copied};
ghost use Rattle.ssb_trees.specs.Expressions.{columns, step_columns};
ghost use Rattle.ssb_trees.specs.Lists.{concat};

use crate::expr::{Expr, Step};
use crate::leaf::{Test, in_leaf};

#[cycle(expr)]
fn in_steps<'a, C, T: Test<C>>(test: &T, steps: &'a [Step<C>]) -> Option<&'a C>
    ensures { option_copied result ≡ find (T.passed test.now) (concat (map (step_columns _) steps.now)) }
{
    for step in steps {
        if let Some(column) = in_expr(test, &step.term) {
            return Some(column);
        }
    }
    None
}

#[cycle(expr)]
fn in_factors<'a, C, T: Test<C>>(test: &T, factors: &'a [Expr<C>]) -> Option<&'a C>
    ensures { option_copied result ≡ find (T.passed test.now) (concat (map (columns _) factors.now)) }
{
    for factor in factors {
        if let Some(column) = in_expr(test, factor) {
            return Some(column);
        }
    }
    None
}

#[cycle(expr)]
fn in_expr<'a, C, T: Test<C>>(test: &T, expr: &'a Expr<C>) -> Option<&'a C>
    ensures { option_copied result ≡ find (T.passed test.now) (columns _ expr.now) }
{
    match expr {
        Expr::Column(column) => in_leaf(test, column),
        Expr::Number(_) => None,
        Expr::Positive(part) => in_expr(test, part.get()),
        Expr::Negative(part) => in_expr(test, part.get()),
        Expr::Chain(first, steps) => match in_expr(test, first.get()) {
            Some(column) => Some(column),
            None => in_steps(test, steps.as_slice()),
        },
        Expr::Times(factors) => in_factors(test, factors.as_slice()),
    }
}

impl<C> Expr<C> {
    /// The first column, in the order of the text, that passes a test. It takes no memory.
    pub fn find<T: Test<C>>(&self, test: &T) -> Option<&C>
        ensures { option_copied result ≡ find (T.passed test.now) (columns _ self.now) }
    {
        in_expr(test, self)
    }
}
