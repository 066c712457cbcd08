// What a job computes with: columns of its tables, each found once.

ghost use Rattle.std.specs.Prelude.{◌≡◌, true, IfOk, map};
ghost use Rattle.ssb_plan.specs.Inputs as spec;

use ssb_query::{BoundColumn, QueryParts};
use ssb_terms::ColType;
use ssb_trees::{Aggregate, Expr, Leaves};
use std::alloc::{AllocError, Global};

/// A column of a table of FROM, where it stands in the tables of the catalog.
#[derive(Clone, Copy, PartialEq, Eq)]
pub struct ColumnRef {
    /// The place of its table in FROM, from 0.
    pub place: usize,
    /// The number of its table in the catalog, from 0.
    pub table: usize,
    /// Its place in its table, from 0.
    pub column: usize,
    /// Its type.
    pub kind: ColType,
}

/// What an aggregate takes of each combination.
#[derive(Drop)]
pub enum Input {
    /// No value: rows are counted.
    Rows,
    /// A column's value.
    Column(ColumnRef),
    /// The number of an expression, which is not a column alone.
    Number(Expr<ColumnRef>),
}

// Each column becomes where it stands.
impl Leaves<BoundColumn, ColumnRef> for QueryParts {
    ghost taken = { λ _. true };

    ghost given = { λ query x. spec.column_ref query x };

    fn leaf(&self, _alloc: Global, column: &BoundColumn) -> Result<ColumnRef, AllocError> {
        Ok(column_ref(self, *column))
    }
}

fn column_ref(query: &QueryParts, column: BoundColumn) -> ColumnRef
    ensures { result ≡ spec.column_ref query.now column }
{
    let table = query.from.as_slice().get(column.table);
    let kind = match query.rule(column) {
        Some(rule) => rule.kind,
        None => ColType::Int,
    };
    ColumnRef {
        place: column.table,
        table: table.copied().unwrap_or(0),
        column: column.column,
        kind,
    }
}

fn input_of(
    alloc: Global,
    query: &QueryParts,
    aggregate: &Aggregate<BoundColumn>,
) -> Result<Input, AllocError>
    ensures { IfOk result (λ input. input ≡ spec.input_of query.now aggregate.now) }
{
    match aggregate {
        Aggregate::Rows => Ok(Input::Rows),
        Aggregate::Of(_, Expr::Column(column)) => Ok(Input::Column(column_ref(query, *column))),
        Aggregate::Of(_, expr) => Ok(Input::Number(expr.mapped(alloc, query)?)),
    }
}

// The columns of GROUP BY.
pub(crate) fn keys_of(alloc: Global, query: &QueryParts) -> Result<Vec<ColumnRef>, AllocError>
    ensures { IfOk result (λ keys. keys.items ≡ map (spec.column_ref query.now) query.now.groups) }
{
    let mut keys = Vec::with_capacity(alloc, query.groups.len())?;
    for column in query.groups.as_slice() {
        keys.push(column_ref(query, *column))?;
    }
    Ok(keys)
}

// What each aggregate takes.
pub(crate) fn inputs_of(alloc: Global, query: &QueryParts) -> Result<Vec<Input>, AllocError>
    ensures { IfOk result (λ inputs. inputs.items ≡ map (spec.input_of query.now) query.now.aggregates) }
{
    let mut inputs = Vec::with_capacity(alloc, query.aggregates.len())?;
    for aggregate in query.aggregates.as_slice() {
        inputs.push(input_of(alloc, query, aggregate)?)?;
    }
    Ok(inputs)
}
