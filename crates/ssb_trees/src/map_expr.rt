// The same expression over other columns.

ghost use Rattle.std.specs.Prelude.{◌≡◌, true, IfOk, IsOkAnd, map};
ghost use Rattle.std.specs.List.{list_all};
ghost use Rattle.ssb_trees.specs.Expressions.{mapped, mapped_step, step_columns};
ghost use Rattle.ssb_trees.specs.Expressions as spec;
ghost use Rattle.ssb_trees.specs.Lists.{concat};

use crate::expr::{Expr, Step};
use crate::leaf::{Leaves, Made, with_made};
use sqlite_items::{Boxed, Items};
use ssb_terms::Adding;
use std::alloc::Global;

fn made_step<D: Drop>(adding: Adding, term: Made<Expr<D>>) -> Made<Step<D>>
    ensures { IfOk result (λ step. IsOkAnd term (λ t. step ≡ record { adding = adding; term = t })) }
{
    let term = term?;
    Ok(Step { adding, term })
}

#[cycle(expr)]
fn mapped_steps<C, D: Drop, M: Leaves<C, D>>(
    alloc: Global,
    columns: &M,
    steps: &[Step<C>],
) -> Made<Items<Step<D>>>
    requires { list_all M.taken (concat (map (step_columns _) steps.now)) ≡ true }
    ensures { IfOk result (λ all. all ≡ map (mapped_step _ _ (M.given columns.now)) steps.now) }
{
    let mut all = Items::new(alloc);
    for step in steps {
        all = with_made(
            all,
            made_step(step.adding, mapped_expr(alloc, columns, &step.term)),
        )?;
    }
    Ok(all)
}

#[cycle(expr)]
fn mapped_factors<C, D: Drop, M: Leaves<C, D>>(
    alloc: Global,
    columns: &M,
    factors: &[Expr<C>],
) -> Made<Items<Expr<D>>>
    requires { list_all M.taken (concat (map (spec.columns _) factors.now)) ≡ true }
    ensures { IfOk result (λ all. all ≡ map (mapped _ _ (M.given columns.now)) factors.now) }
{
    let mut all = Items::new(alloc);
    for factor in factors {
        all = with_made(all, mapped_expr(alloc, columns, factor))?;
    }
    Ok(all)
}

// A part that is kept by itself: what has a sign, or a chain's first term.
#[cycle(expr)]
fn mapped_part<C, D: Drop, M: Leaves<C, D>>(
    alloc: Global,
    columns: &M,
    part: &Expr<C>,
) -> Made<Boxed<Expr<D>>>
    requires { list_all M.taken (spec.columns _ part.now) ≡ true }
    ensures { IfOk result (λ e. e ≡ mapped _ _ (M.given columns.now) part.now) }
{
    let part = mapped_expr(alloc, columns, part)?;
    Boxed::new(alloc, part)
}

#[cycle(expr)]
fn mapped_expr<C, D: Drop, M: Leaves<C, D>>(
    alloc: Global,
    columns: &M,
    expr: &Expr<C>,
) -> Made<Expr<D>>
    requires { list_all M.taken (spec.columns _ expr.now) ≡ true }
    ensures { IfOk result (λ e. e ≡ mapped _ _ (M.given columns.now) expr.now) }
{
    match expr {
        Expr::Column(column) => columns.leaf(alloc, column).map(Expr::Column),
        Expr::Number(number) => Ok(Expr::Number(*number)),
        Expr::Positive(part) => mapped_part(alloc, columns, part.get()).map(Expr::Positive),
        Expr::Negative(part) => mapped_part(alloc, columns, part.get()).map(Expr::Negative),
        Expr::Chain(first, steps) => {
            let first = mapped_part(alloc, columns, first.get())?;
            let steps = mapped_steps(alloc, columns, steps.as_slice())?;
            Ok(Expr::Chain(first, steps))
        }
        Expr::Times(factors) => mapped_factors(alloc, columns, factors.as_slice()).map(Expr::Times),
    }
}

impl<C> Expr<C> {
    /// The same expression over what each column becomes.
    ///
    /// # Errors
    ///
    /// Only where a growth was refused.
    pub fn mapped<D: Drop, M: Leaves<C, D>>(&self, alloc: Global, columns: &M) -> Made<Expr<D>>
        requires { list_all M.taken (spec.columns _ self.now) ≡ true }
        ensures { IfOk result (λ e. e ≡ mapped _ _ (M.given columns.now) self.now) }
    {
        mapped_expr(alloc, columns, self)
    }
}
