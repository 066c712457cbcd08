// What the aggregates take of a row.

ghost use Rattle.std.specs.Prelude.{◌≡◌, ◌<◌, ℕ, pos, true, cond, get_or, length, map, slice_get, None, Some, IfOk, IfSome, OnOk};
ghost use Rattle.std.specs.List.{All, list_all};
ghost use Rattle.ssb_query.specs.declared.column.BoundColumn.{BoundColumn as AnyColumn};
ghost use Rattle.ssb_trees.specs.declared.aggregate.Aggregate.{Aggregate as AnyAggregate};
ghost use Rattle.ssb_trees.specs.declared.aggregate.Aggregate.TheVariants as aggregates;
ghost use Rattle.ssb_trees.specs.declared.aggregate.SetFunction.{SetFunction as AnyFunction};
ghost use Rattle.ssb_trees.specs.declared.expr.Expr.{Expr as AnyExpr};
ghost use Rattle.ssb_conditions.specs.Rows.{IsCombination};
ghost use Rattle.ssb_plan.specs.Inputs.{has_column, input_columns, input_of};
ghost use Rattle.ssb_plan.specs.JobShape.{from_tables};
ghost use Rattle.ssb_groups.specs.Gathering.{AllTaken, AreTaken, AreTakenPlain, IsTaken, facts_where, over_at};
ghost use Rattle.ssb_groups.specs.Keys.{IsKept};
ghost use Rattle.ssb_groups.specs.Outcomes.{kept_outcome};
ghost use Rattle.ssb_groups.specs.Pairs.{IsPairOf};
ghost use Rattle.ssb_groups.specs.Refs.{input_texts, input_value};
ghost use Rattle.ssb_groups.specs.Seen.{fact_of, seen};
ghost use Rattle.ssb_groups.specs.Stands.{IsRanged, least, least_of, overflows};
ghost use Rattle.ssb_groups.specs.Alone.{IsItself};
ghost use Rattle.ssb_groups.specs.Tallies.{block_cells, kept_codes, kept_numbers};
ghost use Rattle.ssb_plan.specs.declared.input.Input.TheVariants as inputs;
ghost use Rattle.ssb_terms.specs.declared.rule.ColType.TheVariants as kinds;

use crate::alone::{alone, alone_all, apply_all, apply_numbers, is_itself};
use crate::block_totals::{BlockTotals, Listing};
use crate::column::{cell, fill_cells, kind_at};
use crate::evaluate::number;
use crate::numbers::{list_codes, list_numbers};
use crate::pair::{Pair, pair_of};
use crate::room::Room;
use ssb_job::{Block, Job, JoinedRow};
use ssb_keys::Kept;
use ssb_plan::{ColumnRef, Input};
use ssb_query::BoundColumn;
use ssb_terms::ColType;
use ssb_trees::{Aggregate, SetFunction};
use std::alloc::AllocError;

// The row of the fact table, from 1.
fn fact_of(job: &Job, row: &JoinedRow) -> u32
    requires { IsCombination (from_tables job.now) row.now }
    ensures { result ≡ fact_of job.now row.now }
{
    let parts = job.query().parts();
    // A reminder to the prover that the table has fewer than 2^32 rows.
    let _rows = job.fact_rows();
    row.row(parts.fact) + 1
}

// The value of an input, a text by its code; None where it is Over.
fn value(job: &Job, row: &JoinedRow, input: &Input) -> Option<Kept>
    requires row { IsCombination (from_tables job.now) row.now }
    requires there { list_all (has_column job.now.query job.now.tables) (input_columns input.now) ≡ true }
    ensures value { kept_outcome (input_texts job.now.tables input.now) result ≡ input_value job.now row.now input.now }
    ensures kept { IfSome result (IsKept (input_texts job.now.tables input.now)) }
    ensures ranged { IsRanged (input_value job.now row.now input.now) }
{
    match input {
        Input::Rows => Some(Kept::Number(1)),
        Input::Column(column) => Some(cell(job, row, *column)),
        Input::Number(expr) => number(job, row, expr).kept(),
    }
}

/// What an aggregate takes of a combination.
#[derive(Clone, Copy)]
struct Taken {
    /// Whether its argument is Over.
    over: bool,
    /// The aggregate over the combination alone.
    total: Kept,
}

fn take(job: &Job, row: &JoinedRow, aggregate: &Aggregate<BoundColumn>, input: &Input) -> Taken
    requires row { IsCombination (from_tables job.now) row.now }
    requires input { input.now ≡ input_of job.now.query aggregate.now }
    requires there { list_all (has_column job.now.query job.now.tables) (input_columns input.now) ≡ true }
    ensures { IsTaken job.now row.now aggregate.now result }
{
    match aggregate {
        Aggregate::Rows => Taken {
            over: false,
            total: Kept::Number(1),
        },
        Aggregate::Of(function, _) => {
            let value = value(job, row, input);
            Taken {
                over: value.is_none(),
                total: alone(*function, value.unwrap_or(Kept::Null)),
            }
        }
    }
}

// The lesser of two numbers, either of which may be missing.
pub(crate) fn lesser(a: Option<u32>, b: Option<u32>) -> Option<u32>
    ensures { result ≡ least_of a b }
{
    match (a, b) {
        (None, b) => b,
        (Some(a), None) => Some(a),
        (Some(a), Some(b)) => Some(a.min(b)),
    }
}

// The lesser of a row of the fact table and that of a combination at which an argument is Over.
fn least_with(job: &Job, row: &JoinedRow, taken: Taken, so_far: Option<u32>) -> Option<u32>
    requires { IsCombination (from_tables job.now) row.now }
    ensures { result ≡ least_of so_far (cond taken.over (Some (fact_of job.now row.now)) None) }
{
    if taken.over {
        lesser(so_far, Some(fact_of(job, row)))
    } else {
        so_far
    }
}

// Fills a list with a set function over a column's value in each combination of a block alone.
fn gather_values(
    job: &Job,
    block: &Block,
    function: SetFunction,
    column: ColumnRef,
    totals: &mut Vec<Kept>,
) -> Result<(), AllocError>
    requires rows { All (IsCombination (from_tables job.now)) block.now }
    requires there { has_column job.now.query job.now.tables column ≡ true }
    ensures { OnOk result ((e : AnyExpr AnyColumn) → input_of job.now.query (aggregates.Of function e) ≡ inputs.Column column → AreTakenPlain job.now (aggregates.Of function e) block.now totals.new.items) }
{
    let tables = job.tables();
    fill_cells(tables, block, column, totals)?;
    alone_all(function, kind_at(tables, column), totals.as_mut_slice());
    Ok(())
}

// Fills a list with a set function over an expression of two columns in each combination of a block alone. Whether
// it is nowhere Over: if it is, the list is of no matter.
fn gather_pairs(
    job: &Job,
    block: &Block,
    function: SetFunction,
    pair: Pair,
    room: &mut Room,
    totals: &mut Vec<Kept>,
) -> Result<bool, AllocError>
    requires rows { All (IsCombination (from_tables job.now)) block.now }
    requires left { has_column job.now.query job.now.tables pair.left ≡ true }
    requires right { has_column job.now.query job.now.tables pair.right ≡ true }
    ensures { IfOk result (λ plain. (e : AnyExpr AnyColumn) (x : AnyExpr ColumnRef) → plain ≡ true → input_of job.now.query (aggregates.Of function e) ≡ inputs.Number x → IsPairOf x pair → AreTakenPlain job.now (aggregates.Of function e) block.now totals.new.items) }
{
    fill_cells(job.tables(), block, pair.left, &mut room.cells)?;
    fill_cells(job.tables(), block, pair.right, &mut room.right_cells)?;
    totals.resize(room.cells.len(), Kept::Null)?;
    Ok(apply_all(
        pair.operation,
        function,
        room.cells.as_slice(),
        room.right_cells.as_slice(),
        totals.as_mut_slice(),
    ))
}

// Fills a list with an aggregate over each combination of a block alone, by loops over columns. Whether there are such
// loops for what it takes, and it is nowhere Over: if not, the list is of no matter.
fn gather_cells(
    job: &Job,
    block: &Block,
    aggregate: &Aggregate<BoundColumn>,
    input: &Input,
    room: &mut Room,
    totals: &mut Vec<Kept>,
) -> Result<bool, AllocError>
    requires rows { All (IsCombination (from_tables job.now)) block.now }
    requires input { input.now ≡ input_of job.now.query aggregate.now }
    requires there { list_all (has_column job.now.query job.now.tables) (input_columns input.now) ≡ true }
    ensures { IfOk result (λ plain. plain ≡ true → AreTakenPlain job.now aggregate.now block.now totals.new.items) }
{
    match (aggregate, input) {
        (Aggregate::Of(function, _), Input::Column(column)) => {
            gather_values(job, block, *function, *column, totals)?;
            Ok(true)
        }
        (Aggregate::Of(function, _), Input::Number(expr)) => match pair_of(expr) {
            Some(pair) => gather_pairs(job, block, *function, pair, room, totals),
            None => Ok(false),
        },
        (Aggregate::Rows, _) | (Aggregate::Of(_, _), Input::Rows) => Ok(false),
    }
}

// Fills a list with COUNT(*) over each of so many combinations alone.
fn gather_count(count: usize, numbers: &mut Vec<i64>) -> Result<(), AllocError>
    ensures many { OnOk result (length numbers.new.items ≡ count) }
    ensures each { OnOk result ((n : ℕ) → n < count → get_or numbers.new.items n (pos 0) ≡ pos 1) }
{
    numbers.clear();
    numbers.resize(count, 1)
}

// Fills a list with a column's values in the combinations of a block, if all are numbers, where a set function over one
// alone is that one. Whether they are: if not, the list is of no matter.
fn gather_value_numbers(
    job: &Job,
    block: &Block,
    column: ColumnRef,
    numbers: &mut Vec<i64>,
) -> Result<bool, AllocError>
    requires rows { All (IsCombination (from_tables job.now)) block.now }
    requires there { has_column job.now.query job.now.tables column ≡ true }
    ensures { IfOk result (λ plain. (f : AnyFunction) (e : AnyExpr AnyColumn) → plain ≡ true → IsItself f kinds.Int → input_of job.now.query (aggregates.Of f e) ≡ inputs.Column column → AreTakenPlain job.now (aggregates.Of f e) block.now (kept_numbers numbers.new.items)) }
{
    list_numbers(job.tables(), block, column, numbers)
}

// The same of codes, if all values are texts.
fn gather_value_codes(
    job: &Job,
    block: &Block,
    column: ColumnRef,
    codes: &mut Vec<u32>,
) -> Result<bool, AllocError>
    requires rows { All (IsCombination (from_tables job.now)) block.now }
    requires there { has_column job.now.query job.now.tables column ≡ true }
    ensures { IfOk result (λ plain. (f : AnyFunction) (e : AnyExpr AnyColumn) → plain ≡ true → IsItself f kinds.Text → input_of job.now.query (aggregates.Of f e) ≡ inputs.Column column → AreTakenPlain job.now (aggregates.Of f e) block.now (kept_codes codes.new.items)) }
{
    list_codes(job.tables(), block, column, codes)
}

// As `gather_value_numbers`, of an expression of two columns.
fn gather_pair_numbers(
    job: &Job,
    block: &Block,
    pair: Pair,
    right: &mut Vec<i64>,
    numbers: &mut Vec<i64>,
) -> Result<bool, AllocError>
    requires rows { All (IsCombination (from_tables job.now)) block.now }
    requires left { has_column job.now.query job.now.tables pair.left ≡ true }
    requires right { has_column job.now.query job.now.tables pair.right ≡ true }
    ensures { IfOk result (λ plain. (f : AnyFunction) (e : AnyExpr AnyColumn) (x : AnyExpr ColumnRef) → plain ≡ true → IsItself f kinds.Int → input_of job.now.query (aggregates.Of f e) ≡ inputs.Number x → IsPairOf x pair → AreTakenPlain job.now (aggregates.Of f e) block.now (kept_numbers numbers.new.items)) }
{
    if !list_numbers(job.tables(), block, pair.left, numbers)? {
        return Ok(false);
    }
    if !list_numbers(job.tables(), block, pair.right, right)? {
        return Ok(false);
    }
    Ok(apply_numbers(pair.operation, numbers.as_mut_slice(), right.as_slice()))
}

// The same of an input.
fn gather_input_numbers(
    job: &Job,
    block: &Block,
    input: &Input,
    right: &mut Vec<i64>,
    numbers: &mut Vec<i64>,
) -> Result<bool, AllocError>
    requires rows { All (IsCombination (from_tables job.now)) block.now }
    requires there { list_all (has_column job.now.query job.now.tables) (input_columns input.now) ≡ true }
    ensures { IfOk result (λ plain. (f : AnyFunction) (e : AnyExpr AnyColumn) → plain ≡ true → IsItself f kinds.Int → input_of job.now.query (aggregates.Of f e) ≡ input.now → AreTakenPlain job.now (aggregates.Of f e) block.now (kept_numbers numbers.new.items)) }
{
    match input {
        Input::Column(column) => gather_value_numbers(job, block, *column, numbers),
        Input::Number(expr) => match pair_of(expr) {
            Some(pair) => gather_pair_numbers(job, block, pair, right, numbers),
            None => Ok(false),
        },
        Input::Rows => Ok(false),
    }
}

// Fills a list with an aggregate over each combination of a block alone, if it is COUNT(*), or SUM, MIN or MAX over
// numbers of columns without nulls that are nowhere Over. Whether it is: if not, the list is of no matter.
fn gather_numbers(
    job: &Job,
    block: &Block,
    aggregate: &Aggregate<BoundColumn>,
    input: &Input,
    room: &mut Room,
    numbers: &mut Vec<i64>,
) -> Result<bool, AllocError>
    requires rows { All (IsCombination (from_tables job.now)) block.now }
    requires input { input.now ≡ input_of job.now.query aggregate.now }
    requires there { list_all (has_column job.now.query job.now.tables) (input_columns input.now) ≡ true }
    ensures { IfOk result (λ plain. plain ≡ true → AreTakenPlain job.now aggregate.now block.now (kept_numbers numbers.new.items)) }
{
    match aggregate {
        Aggregate::Rows => {
            gather_count(block.len(), numbers)?;
            Ok(true)
        }
        Aggregate::Of(function, _) => {
            if !is_itself(*function, ColType::Int) {
                return Ok(false);
            }
            gather_input_numbers(job, block, input, &mut room.right_numbers, numbers)
        }
    }
}

// Fills a list with the codes of an aggregate over each combination of a block alone, if it is MIN or MAX of a column
// of texts without nulls. Whether it is: if not, the list is of no matter.
fn gather_codes(
    job: &Job,
    block: &Block,
    aggregate: &Aggregate<BoundColumn>,
    input: &Input,
    codes: &mut Vec<u32>,
) -> Result<bool, AllocError>
    requires rows { All (IsCombination (from_tables job.now)) block.now }
    requires input { input.now ≡ input_of job.now.query aggregate.now }
    requires there { list_all (has_column job.now.query job.now.tables) (input_columns input.now) ≡ true }
    ensures { IfOk result (λ plain. plain ≡ true → AreTakenPlain job.now aggregate.now block.now (kept_codes codes.new.items)) }
{
    match (aggregate, input) {
        (Aggregate::Of(function, _), Input::Column(column)) => {
            if !is_itself(*function, ColType::Text) {
                return Ok(false);
            }
            gather_value_codes(job, block, *column, codes)
        }
        (Aggregate::Of(_, _), Input::Number(_) | Input::Rows) | (Aggregate::Rows, _) => Ok(false),
    }
}

// Fills a list with an aggregate over each combination of a block alone, one after the other. The least row of the fact
// table at which its argument is Over, or the one that is given where that is less.
fn gather_rows(
    job: &Job,
    block: &Block,
    aggregate: &Aggregate<BoundColumn>,
    input: &Input,
    so_far: Option<u32>,
    totals: &mut Vec<Kept>,
) -> Result<Option<u32>, AllocError>
    requires rows { All (IsCombination (from_tables job.now)) block.now }
    requires input { input.now ≡ input_of job.now.query aggregate.now }
    requires there { list_all (has_column job.now.query job.now.tables) (input_columns input.now) ≡ true }
    ensures least { IfOk result (λ n. n ≡ least_of so_far (least (facts_where job.now (over_at job.now aggregate.now) block.now))) }
    ensures taken { OnOk result (AreTaken job.now aggregate.now block.now totals.new.items) }
{
    totals.clear();
    let mut found = so_far;
    for at in 0..block.len() {
        let row = block.row(at);
        let taken = take(job, &row, aggregate, input);
        found = least_with(job, &row, taken, found);
        totals.push(taken.total)?;
    }
    Ok(found)
}

// An aggregate of a job, and what it takes.
fn aggregate_at(job: &Job, place: usize) -> (&Aggregate<BoundColumn>, &Input)
    requires { place < length job.now.query.aggregates }
    ensures own { slice_get job.now.query.aggregates place ≡ Some result.0.now }
    ensures input { result.1.now ≡ input_of job.now.query result.0.now }
    ensures there { list_all (has_column job.now.query job.now.tables) (input_columns result.1.now) ≡ true }
{
    let aggregates = job.query().parts().aggregates.as_slice();
    let inputs = job.plan().inputs.as_slice();
    (&aggregates[place], &inputs[place])
}

// Fills a list with an aggregate over each combination of a block alone, by loops over columns where it takes one, or
// two that are nowhere Over together. The least row of the fact table at which its argument is Over, or the one that is
// given where that is less.
fn gather_column(
    job: &Job,
    block: &Block,
    place: usize,
    so_far: Option<u32>,
    room: &mut Room,
    totals: &mut BlockTotals,
) -> Result<Option<u32>, AllocError>
    requires rows { All (IsCombination (from_tables job.now)) block.now }
    requires place { place < length job.now.query.aggregates }
    ensures least { IfOk result (λ n. (a : AnyAggregate AnyColumn) → slice_get job.now.query.aggregates place ≡ Some a → n ≡ least_of so_far (least (facts_where job.now (over_at job.now a) block.now))) }
    ensures taken { OnOk result ((a : AnyAggregate AnyColumn) → slice_get job.now.query.aggregates place ≡ Some a → AreTaken job.now a block.now (block_cells totals.new)) }
{
    let (aggregate, input) = aggregate_at(job, place);
    if gather_numbers(job, block, aggregate, input, room, &mut totals.numbers)? {
        totals.listing = Listing::Numbers;
        return Ok(so_far);
    }
    if gather_codes(job, block, aggregate, input, &mut totals.codes)? {
        totals.listing = Listing::Codes;
        return Ok(so_far);
    }
    totals.listing = Listing::Cells;
    if gather_cells(job, block, aggregate, input, room, &mut totals.cells)? {
        return Ok(so_far);
    }
    gather_rows(job, block, aggregate, input, so_far, &mut totals.cells)
}

// Fills lists with the aggregates over each combination of a block alone. The least row of the fact table at which
// an argument is Over.
pub(crate) fn gather(
    job: &Job,
    block: &Block,
    room: &mut Room,
    totals: &mut [BlockTotals],
) -> Result<Option<u32>, AllocError>
    requires rows { All (IsCombination (from_tables job.now)) block.now }
    requires many { length totals.old ≡ length job.now.query.aggregates }
    ensures least { IfOk result (λ n. n ≡ least (overflows (map (seen job.now) block.now))) }
    ensures taken { OnOk result (AllTaken job.now block.now (map block_cells totals.new)) }
    ensures many { length totals.new ≡ length totals.old }
{
    let mut found = None;
    for at in 0..totals.len() {
        found = gather_column(job, block, at, found, room, &mut totals[at])?;
    }
    Ok(found)
}
