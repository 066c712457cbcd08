// The spelling of an expression.

ghost use Rattle.std.specs.Prelude.{◌≡◌, ◌++◌, List, OnOk, map, string_bytes, ℕ};
ghost use Rattle.std.specs.Fmt.{decimal};
ghost use Rattle.ssb_trees.specs.Lists.{concat};
ghost use Rattle.ssb_query.specs.declared.column.BoundColumn.{BoundColumn as AnyColumn};
ghost use Rattle.ssb_spelling.specs.Titles as spec;

use crate::form::Form;
use crate::names::put_name;
use itoa::Buffer;
use ssb_catalog::Catalog;
use ssb_query::{BoundColumn, QueryParts};
use ssb_terms::Adding;
use ssb_trees::{Aggregate, Expr, SetFunction, Step};
use std::alloc::AllocError;

fn form_of(expr: &Expr<BoundColumn>) -> Form
    ensures { (name : AnyColumn → List ℕ) → result ≡ (spec.spelling name expr.now).form }
{
    match expr {
        Expr::Column(_) | Expr::Number(_) => Form::Primary,
        Expr::Positive(_) | Expr::Negative(_) => Form::Factor,
        Expr::Chain(_, _) => Form::Chain,
        Expr::Times(_) => Form::Term,
    }
}

fn operator(adding: Adding) -> &'static str
    ensures { result.now ≡ spec.operator adding }
{
    match adding {
        Adding::Plus => " + ",
        Adding::Minus => " - ",
    }
}

fn function_name(function: SetFunction) -> &'static str
    ensures { result.now ≡ spec.function_name function }
{
    match function {
        SetFunction::Sum => "sum",
        SetFunction::Count => "count",
        SetFunction::Min => "min",
        SetFunction::Max => "max",
    }
}

fn put_number(title: &mut String, number: u64) -> Result<(), AllocError>
    ensures { OnOk result (string_bytes title.new ≡ string_bytes title.old ++ decimal number) }
{
    let mut buffer = Buffer::new();
    title.push_str(buffer.format(number))
}

// Puts an expression bare, or in parentheses.
#[cycle(expr)]
fn put_part(
    title: &mut String,
    catalog: &Catalog,
    query: &QueryParts,
    expr: &Expr<BoundColumn>,
    is_bare: bool,
) -> Result<(), AllocError>
    ensures { OnOk result (string_bytes title.new ≡ string_bytes title.old ++ spec.closed_unless is_bare (spec.spelling (spec.column_name catalog.now query.now.from) expr.now).text) }
{
    if is_bare {
        return put_expr(title, catalog, query, expr);
    }
    title.push_str("(")?;
    put_expr(title, catalog, query, expr)?;
    title.push_str(")")
}

#[cycle(expr)]
fn put_primary(
    title: &mut String,
    catalog: &Catalog,
    query: &QueryParts,
    expr: &Expr<BoundColumn>,
) -> Result<(), AllocError>
    ensures { OnOk result (string_bytes title.new ≡ string_bytes title.old ++ spec.as_primary (spec.spelling (spec.column_name catalog.now query.now.from) expr.now)) }
{
    put_part(title, catalog, query, expr, form_of(expr).is_primary())
}

#[cycle(expr)]
fn put_factor(
    title: &mut String,
    catalog: &Catalog,
    query: &QueryParts,
    expr: &Expr<BoundColumn>,
) -> Result<(), AllocError>
    ensures { OnOk result (string_bytes title.new ≡ string_bytes title.old ++ spec.as_factor (spec.spelling (spec.column_name catalog.now query.now.from) expr.now)) }
{
    put_part(title, catalog, query, expr, form_of(expr).is_factor())
}

#[cycle(expr)]
fn put_term(
    title: &mut String,
    catalog: &Catalog,
    query: &QueryParts,
    expr: &Expr<BoundColumn>,
) -> Result<(), AllocError>
    ensures { OnOk result (string_bytes title.new ≡ string_bytes title.old ++ spec.as_term (spec.spelling (spec.column_name catalog.now query.now.from) expr.now)) }
{
    put_part(title, catalog, query, expr, form_of(expr).is_term())
}

#[cycle(expr)]
fn put_signed(
    title: &mut String,
    catalog: &Catalog,
    query: &QueryParts,
    sign: &str,
    part: &Expr<BoundColumn>,
) -> Result<(), AllocError>
    ensures { OnOk result (string_bytes title.new ≡ string_bytes title.old ++ (sign.now ++ spec.as_primary (spec.spelling (spec.column_name catalog.now query.now.from) part.now))) }
{
    title.push_str(sign)?;
    put_primary(title, catalog, query, part)
}

#[cycle(expr)]
fn put_steps(
    title: &mut String,
    catalog: &Catalog,
    query: &QueryParts,
    steps: &[Step<BoundColumn>],
) -> Result<(), AllocError>
    ensures { OnOk result (string_bytes title.new ≡ string_bytes title.old ++ concat (map (spec.step_spelling (spec.column_name catalog.now query.now.from)) steps.now)) }
{
    for step in steps {
        title.push_str(operator(step.adding))?;
        put_term(title, catalog, query, &step.term)?;
    }
    Ok(())
}

// Puts factors, each behind an operator.
#[cycle(expr)]
fn put_further(
    title: &mut String,
    catalog: &Catalog,
    query: &QueryParts,
    factors: &[Expr<BoundColumn>],
) -> Result<(), AllocError>
    ensures { OnOk result (string_bytes title.new ≡ string_bytes title.old ++ spec.times (map (spec.spelling (spec.column_name catalog.now query.now.from)) factors.now)) }
{
    for factor in factors {
        title.push_str(" * ")?;
        put_factor(title, catalog, query, factor)?;
    }
    Ok(())
}

#[cycle(expr)]
fn put_expr(
    title: &mut String,
    catalog: &Catalog,
    query: &QueryParts,
    expr: &Expr<BoundColumn>,
) -> Result<(), AllocError>
    ensures { OnOk result (string_bytes title.new ≡ string_bytes title.old ++ (spec.spelling (spec.column_name catalog.now query.now.from) expr.now).text) }
{
    match expr {
        Expr::Column(column) => put_name(title, catalog, query, *column),
        Expr::Number(number) => put_number(title, *number),
        Expr::Positive(part) => put_signed(title, catalog, query, "+", part.get()),
        Expr::Negative(part) => put_signed(title, catalog, query, "-", part.get()),
        Expr::Chain(first, steps) => {
            put_term(title, catalog, query, first.get())?;
            put_steps(title, catalog, query, steps.as_slice())
        }
        Expr::Times(factors) => {
            let Some((first, rest)) = factors.as_slice().split_first() else {
                return Ok(());
            };
            put_factor(title, catalog, query, first)?;
            put_further(title, catalog, query, rest)
        }
    }
}

/// Puts the title of an aggregate.
///
/// # Errors
///
/// Only where a growth was refused.
pub fn put_aggregate(
    title: &mut String,
    catalog: &Catalog,
    query: &QueryParts,
    aggregate: &Aggregate<BoundColumn>,
) -> Result<(), AllocError>
    ensures { OnOk result (string_bytes title.new ≡ string_bytes title.old ++ spec.aggregate_title (spec.column_name catalog.now query.now.from) aggregate.now) }
{
    match aggregate {
        Aggregate::Rows => title.push_str("count(*)"),
        Aggregate::Of(function, expr) => {
            title.push_str(function_name(*function))?;
            put_part(title, catalog, query, expr, false)
        }
    }
}
