// The most groups that GROUP BY may make.

ghost use Rattle.std.specs.Prelude.{◌≡◌, ◌≤◌, ◌^◌, Some, map};
ghost use Rattle.std.specs.List.{list_any};
ghost use Rattle.ssb_conditions.specs.Holds.{is_null};
ghost use Rattle.ssb_explain.specs.GroupCount as spec;
ghost use Rattle.ssb_plan.specs.Inputs.{key_span};
ghost use Rattle.ssb_plan.specs.Spans.{span_of};

use ssb_cells::{Column, Table};
use ssb_plan::{ColumnRef, Span};
use ssb_terms::ColType;

// How many numbers there are from the least to the greatest.
fn number_count(span: Span) -> u128
    ensures count { result ≡ spec.number_count span }
    ensures few { result ≤ 2 ^ 64 }
{
    let Span { least, greatest } = span;
    if greatest < least {
        return 0;
    }
    u128::from(greatest.abs_diff(least)) + 1
}

// The different numbers that a column may have, or the different texts that it has.
fn known_values(column: &Column, span: Span) -> u128
    requires { span ≡ span_of column.now.values }
    ensures count { result ≡ spec.known_values column.now.kind column.now.values }
    ensures few { result ≤ 2 ^ 64 }
{
    match column.kind() {
        ColType::Int => number_count(span),
        ColType::Text => u128::from(column.text_count()),
    }
}

fn has_null(column: &Column) -> bool
    ensures { result ≡ list_any is_null column.now.values }
{
    if column.null_words().is_empty() {
        return false;
    }
    for row in 0..column.len() {
        if column.get(row).is_null() {
            return true;
        }
    }
    false
}

// How many different values a column may have, null among them.
fn most_values(column: &Column, span: Span) -> u32
    requires { span ≡ span_of column.now.values }
    ensures { result ≡ spec.most_values (Some column.now) }
{
    let nulls = if has_null(column) { 1 } else { 0 };
    let count = known_values(column, span) + nulls;
    count.min(u128::from(column.len())) as u32
}

// How many different values the column of a key may have, 0 where there is no such column.
fn key_count(tables: &[Table], key: ColumnRef, span: Span) -> u32
    requires { span ≡ key_span tables.now key }
    ensures { result ≡ spec.key_count tables.now key }
{
    match tables.get(key.table) {
        Some(table) if key.column < table.column_count() => {
            most_values(table.column(key.column), span)
        }
        _ => 0,
    }
}

/// The most groups that columns, given with their spans, may make of so many rows: each column's values with each of
/// the others', at most one for each row.
pub(crate) fn groups_by(tables: &[Table], keys: &[ColumnRef], spans: &[Span], rows: u32) -> u32
    requires { spans.now ≡ map (key_span tables.now) keys.now }
    ensures { result ≡ spec.groups_by tables.now rows keys.now }
{
    let mut groups: u32 = 1;
    for at in 0..keys.len() {
        let values = key_count(tables, keys[at], spans[at]);
        groups = groups.saturating_mul(values).min(rows);
    }
    groups
}
