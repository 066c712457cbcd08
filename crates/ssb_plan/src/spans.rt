// The least and the greatest number of each column of GROUP BY.

ghost use Rattle.std.specs.Prelude.{◌≡◌, IfOk, map};
ghost use Rattle.ssb_plan.specs.Inputs.{key_span};
ghost use Rattle.ssb_plan.specs.Spans.{span_of};

use crate::index::Span;
use crate::input::ColumnRef;
use ssb_cells::{Column, Table, Value};
use std::alloc::{AllocError, Global};

fn span_in(column: &Column) -> Span
    ensures { result ≡ span_of column.now.values }
{
    let mut span = Span::none();
    for row in 0..column.len() {
        if let Value::Int(number) = column.get(row) {
            span = span.with(number);
        }
    }
    span
}

// That of no number where there is no such column.
fn key_span(tables: &[Table], key: ColumnRef) -> Span
    ensures { result ≡ key_span tables.now key }
{
    match tables.get(key.table) {
        Some(table) if key.column < table.column_count() => span_in(table.column(key.column)),
        _ => Span::none(),
    }
}

pub(crate) fn spans_of(
    alloc: Global,
    tables: &[Table],
    keys: &[ColumnRef],
) -> Result<Vec<Span>, AllocError>
    ensures { IfOk result (λ spans. spans.items ≡ map (key_span tables.now) keys.now) }
{
    let mut spans = Vec::with_capacity(alloc, keys.len())?;
    for key in keys {
        spans.push(key_span(tables, *key))?;
    }
    Ok(spans)
}
