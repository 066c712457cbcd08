// The number of an expression on a combination of rows.

ghost use Rattle.std.specs.Prelude.{◌≡◌, true, fold, map};
ghost use Rattle.std.specs.List.{list_all};
ghost use Rattle.ssb_conditions.specs.Rows.{IsCombination};
ghost use Rattle.ssb_plan.specs.Inputs.{has_column};
ghost use Rattle.ssb_plan.specs.JobShape.{from_tables};
ghost use Rattle.ssb_groups.specs.Outcomes.{outcome_of};
ghost use Rattle.ssb_groups.specs.Refs.{ref_value};
ghost use Rattle.ssb_groups.specs.Value.{add_step, number_of, product, step_number};
ghost use Rattle.ssb_trees.specs.Expressions.{columns, step_columns};
ghost use Rattle.ssb_trees.specs.Lists.{concat};

use crate::column::cell;
use crate::outcome::{Operation, Outcome};
use ssb_job::{Job, JoinedRow};
use ssb_plan::ColumnRef;
use ssb_terms::Adding;
use ssb_trees::{Expr, Step};

fn add_step(so_far: Outcome, adding: Adding, term: Outcome) -> Outcome
    ensures { outcome_of result ≡ add_step (outcome_of so_far) (adding, outcome_of term) }
{
    match adding {
        Adding::Plus => so_far.apply(Operation::Plus, term),
        Adding::Minus => so_far.apply(Operation::Minus, term),
    }
}

#[cycle(expr)]
fn chain(job: &Job, row: &JoinedRow, first: Outcome, steps: &[Step<ColumnRef>]) -> Outcome
    requires row { IsCombination (from_tables job.now) row.now }
    requires there { list_all (has_column job.now.query job.now.tables) (concat (map (step_columns _) steps.now)) ≡ true }
    ensures { outcome_of result ≡ fold add_step (outcome_of first) (map (step_number (ref_value job.now row.now)) steps.now) }
{
    let mut so_far = first;
    for step in steps {
        let term = number(job, row, &step.term);
        so_far = add_step(so_far, step.adding, term);
    }
    so_far
}

#[cycle(expr)]
fn product(job: &Job, row: &JoinedRow, factors: &[Expr<ColumnRef>]) -> Outcome
    requires row { IsCombination (from_tables job.now) row.now }
    requires there { list_all (has_column job.now.query job.now.tables) (concat (map (columns _) factors.now)) ≡ true }
    ensures { outcome_of result ≡ product (map (number_of (ref_value job.now row.now)) factors.now) }
{
    let mut so_far = Outcome::Number(1);
    for factor in factors {
        so_far = so_far.apply(Operation::Times, number(job, row, factor));
    }
    so_far
}

#[cycle(expr)]
pub(crate) fn number(job: &Job, row: &JoinedRow, expr: &Expr<ColumnRef>) -> Outcome
    requires row { IsCombination (from_tables job.now) row.now }
    requires there { list_all (has_column job.now.query job.now.tables) (columns _ expr.now) ≡ true }
    ensures { outcome_of result ≡ number_of (ref_value job.now row.now) expr.now }
{
    match expr {
        Expr::Column(column) => Outcome::of(cell(job, row, *column)),
        Expr::Number(number) => Outcome::of_number(*number),
        Expr::Positive(part) => number(job, row, part.get()),
        Expr::Negative(part) => {
            Outcome::Number(0).apply(Operation::Minus, number(job, row, part.get()))
        },
        Expr::Chain(first, steps) => {
            chain(job, row, number(job, row, first.get()), steps.as_slice())
        }
        Expr::Times(factors) => product(job, row, factors.as_slice()),
    }
}
