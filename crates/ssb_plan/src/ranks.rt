// Ranks: numbers in the order of a column's texts, so that MIN and MAX compare two codes by two numbers in place of
// two texts.

ghost use Rattle.std.specs.Prelude.{◌≡◌, [], IfOk, get_or, length};
ghost use Rattle.std.specs.Arc.{arc_value};
ghost use Rattle.std.specs.List.{range_with_len};
ghost use Rattle.std.specs.List.Sorted.{IsPermutation};
ghost use Rattle.ssb_cells.specs.Codes.{texts_of};
ghost use Rattle.ssb_plan.specs.Ranks.{AreAllRanks, AreInOrder, ArePlaces, AreRanks, HasRanks, text_order};
ghost use Rattle.ssb_plan.specs.declared.input.Input.TheVariants as inputs;
ghost use Rattle.ssb_terms.specs.declared.rule.ColType.TheVariants as kinds;

use crate::input::{ColumnRef, Input};
use ssb_cells::{Column, Table};
use ssb_query::BoundColumn;
use ssb_terms::ColType;
use ssb_trees::{Aggregate, SetFunction};
use std::alloc::{AllocError, Global};
use std::cmp::Ordering;
use std::sync::Arc;

// Texts are ranked where the fact table has at least so many rows for each: to sort more of them would cost more
// than it spares.
const ROWS_PER_TEXT: u32 = 16;

// The text of a code of a text column, empty where there is none: a sort may ask for the order of any two numbers.
fn text_at(column: &Column, code: u32) -> &str
    requires { column.now.kind ≡ kinds.Text }
    ensures { result.now ≡ get_or (texts_of column.now.values) code [] }
{
    if code < column.text_count() {
        column.spelt(code)
    } else {
        ""
    }
}

// The order of the texts of two codes of a text column.
fn text_order(column: &Column, a: u32, b: u32) -> Ordering
    requires { column.now.kind ≡ kinds.Text }
    ensures { result ≡ text_order (texts_of column.now.values) a b }
{
    text_at(column, a).cmp(text_at(column, b))
}

// The codes of a text column, in the order of their texts.
fn codes_in_order(alloc: Global, column: &Column) -> Result<Vec<u32>, AllocError>
    requires { column.now.kind ≡ kinds.Text }
    ensures { IfOk result (λ codes. AreInOrder (texts_of column.now.values) codes.items) }
{
    let mut codes: Vec<u32> = (0..column.text_count()).collect(alloc)?;
    codes.sort_unstable_by(|a, b| text_order(column, *a, *b));
    Ok(codes)
}

// The place of each code among these, which are the numbers below a count.
fn places(alloc: Global, codes: &[u32], count: u32) -> Result<Vec<u32>, AllocError>
    requires { IsPermutation (range_with_len 0 count) codes.now }
    ensures { IfOk result (λ places. ArePlaces codes.now places.items) }
{
    let mut places = Vec::new(alloc);
    places.resize(codes.len(), 0)?;
    for place in 0..count {
        let code = codes[place as usize];
        places[code as usize] = place;
    }
    Ok(places)
}

// The ranks of the texts of a text column: no two are equal, so they are the places of their codes.
fn ranks(alloc: Global, column: &Column) -> Result<Vec<u32>, AllocError>
    requires { column.now.kind ≡ kinds.Text }
    ensures { IfOk result (λ ranks. AreRanks (texts_of column.now.values) ranks.items) }
{
    let codes = codes_in_order(alloc, column)?;
    places(alloc, &codes, column.text_count())
}

// Those of a column, where it is one of texts that are few beside the rows of the fact table.
fn column_ranks(
    alloc: Global,
    tables: &[Table],
    column: ColumnRef,
    fact_rows: u32,
) -> Result<Option<Vec<u32>>, AllocError>
    ensures { IfOk result (HasRanks tables.now (inputs.Column column)) }
{
    let Some(table) = tables.get(column.table) else {
        return Ok(None);
    };
    if column.column >= table.column_count() {
        return Ok(None);
    }
    let column = table.column(column.column);
    match column.kind() {
        ColType::Text if column.text_count() <= fact_rows / ROWS_PER_TEXT => {
            Ok(Some(ranks(alloc, column)?))
        }
        _ => Ok(None),
    }
}

// The ranks of what an aggregate takes. Only MIN and MAX compare.
fn aggregate_ranks(
    alloc: Global,
    tables: &[Table],
    aggregate: &Aggregate<BoundColumn>,
    input: &Input,
    fact_rows: u32,
) -> Result<Option<Vec<u32>>, AllocError>
    ensures { IfOk result (HasRanks tables.now input.now) }
{
    match (aggregate, input) {
        (Aggregate::Of(SetFunction::Min | SetFunction::Max, _), Input::Column(column)) => {
            column_ranks(alloc, tables, *column, fact_rows)
        }
        _ => Ok(None),
    }
}

// Those of what each aggregate takes.
fn all_ranks(
    alloc: Global,
    tables: &[Table],
    aggregates: &[Aggregate<BoundColumn>],
    inputs: &[Input],
    fact_rows: u32,
) -> Result<Vec<Option<Vec<u32>>>, AllocError>
    ensures { IfOk result (λ all. AreAllRanks tables.now inputs.now all.items) }
{
    let mut all = Vec::with_capacity(alloc, inputs.len())?;
    for (at, input) in inputs.iter().enumerate() {
        let ranks = match aggregates.get(at) {
            Some(aggregate) => aggregate_ranks(alloc, tables, aggregate, input, fact_rows)?,
            None => None,
        };
        all.push(ranks)?;
    }
    Ok(all)
}

// The ranks of what each aggregate takes, to be shared.
pub(crate) fn ranks_of(
    alloc: Global,
    tables: &[Table],
    aggregates: &[Aggregate<BoundColumn>],
    inputs: &[Input],
    fact_rows: u32,
) -> Result<Arc<Vec<Option<Vec<u32>>>, Global>, AllocError>
    ensures { IfOk result (λ all. AreAllRanks tables.now inputs.now (arc_value all).items) }
{
    let all = all_ranks(alloc, tables, aggregates, inputs, fact_rows)?;
    match Arc::new(alloc, all) {
        Ok(all) => Ok(all),
        Err(refused) => {
            drop(refused);
            Err(AllocError)
        }
    }
}
