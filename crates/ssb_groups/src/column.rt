// What is read at a column of a job.

ghost use Rattle.std.specs.Prelude.{◌≡◌, ◌<◌, ℕ, List, OnOk, Some, true, get_or, length, map, option_map, slice_get};
ghost use Rattle.std.specs.List.{All};
ghost use Rattle.ssb_cells.specs.Cell.{Cell};
ghost use Rattle.ssb_cells.specs.Codes.{texts_of};
ghost use Rattle.ssb_cells.specs.Lent.{AreCodes, AreNulls, AreNumbers};
ghost use Rattle.ssb_cells.specs.PackedLent.{codes_in, kept_code, numbers_in};
ghost use Rattle.ssb_terms.specs.declared.rule.ColType.TheVariants as kinds;
ghost use Rattle.ssb_conditions.specs.Rows.{IsCombination};
ghost use Rattle.ssb_plan.specs.Inputs.{has_column, values_of};
ghost use Rattle.ssb_plan.specs.JobShape.{from_tables};
ghost use Rattle.ssb_groups.specs.Keys.{AreOfKind, IsKept, IsOfKind, kept_cell, kind_of, spelt_cell};
ghost use Rattle.ssb_groups.specs.Refs.{AreCellsOf, HasRow, IsColumn, IsSomeColumn, cell_in, ref_value, values_at};

use ssb_cells::{CodeSlice, Column, NumberSlice, Table, Value, flag_at, numbers_have_no_text};
use ssb_job::{Block, Job, JoinedRow};
use ssb_keys::{Domain, Kept, add_digit};
use ssb_plan::ColumnRef;
use ssb_terms::ColType;
use std::alloc::AllocError;

// What stands for the value of a row: no text is read for it.
fn column_cell(column: &Column, row: u32) -> Kept
    requires { row < length column.now.values }
    ensures value { option_map (kept_cell column.now.values) (slice_get column.now.values row) ≡ Some result }
    ensures kind { IsOfKind column.now.kind result }
{
    match column.kind() {
        ColType::Text => text_cell(column, row),
        ColType::Int => number_cell(column, row),
    }
}

fn text_cell(column: &Column, row: u32) -> Kept
    requires kind { column.now.kind ≡ kinds.Text }
    requires row { row < length column.now.values }
    ensures value { option_map (kept_cell column.now.values) (slice_get column.now.values row) ≡ Some result }
    ensures kind { IsOfKind column.now.kind result }
{
    match column.code(row) {
        Some(code) => Kept::Code(code),
        None => Kept::Null,
    }
}

fn number_cell(column: &Column, row: u32) -> Kept
    requires kind { column.now.kind ≡ kinds.Int }
    requires row { row < length column.now.values }
    ensures value { option_map (kept_cell column.now.values) (slice_get column.now.values row) ≡ Some result }
    ensures kind { IsOfKind column.now.kind result }
{
    numbers_have_no_text(column);
    match column.get(row) {
        Value::Null => Kept::Null,
        Value::Int(number) => Kept::Number(number),
        Value::Text(_) => unreachable!(),
    }
}

// The row that stands at a place.
#[inline(always)]
pub(crate) fn row_at(rows: &[u32], at: usize) -> u32
    ensures { result ≡ get_or rows.now at 0 }
{
    rows.get(at).copied().unwrap_or(0)
}

// What stands for a number or null.
#[inline(always)]
pub(crate) fn number_at(numbers: NumberSlice<'_>, nulls: &[u64], row: u32) -> Kept
    requires { row < length (numbers_in numbers) }
    ensures value { (values : List Cell) → AreNumbers values (numbers_in numbers.entry) → AreNulls values nulls.now → option_map (kept_cell values) (slice_get values row) ≡ Some result }
    ensures kind { IsOfKind kinds.Int result }
{
    if flag_at(nulls, row) {
        return Kept::Null;
    }
    Kept::Number(numbers.get(row as usize))
}

// What stands for a text or null.
#[inline(always)]
pub(crate) fn code_at(codes: CodeSlice<'_>, nulls: &[u64], row: u32) -> Kept
    requires { row < length (codes_in codes) }
    ensures value { (values : List Cell) → AreCodes values (codes_in codes.entry) → AreNulls values nulls.now → option_map (kept_cell values) (slice_get values row) ≡ Some result }
    ensures kind { IsOfKind kinds.Text result }
{
    if flag_at(nulls, row) {
        return Kept::Null;
    }
    Kept::Code(codes.get(row as usize))
}

// What stands for the values of some rows, of numbers that are kept in one width.
#[inline(always)]
fn take_numbers(numbers: NumberSlice<'_>, nulls: &[u64], rows: &[u32], cells: &mut [Kept])
    requires { (at : ℕ) → at < length cells.old → get_or rows.now at 0 < length (numbers_in numbers) }
    ensures values { (values : List Cell) → AreNumbers values (numbers_in numbers.entry) → AreNulls values nulls.now → AreCellsOf values rows.now (length cells.old) cells.new }
    ensures kinds { AreOfKind kinds.Int cells.new }
{
    for at in 0..cells.len() {
        cells[at] = number_at(numbers, nulls, row_at(rows, at));
    }
}

// The same of codes.
#[inline(always)]
fn take_codes(codes: CodeSlice<'_>, nulls: &[u64], rows: &[u32], cells: &mut [Kept])
    requires { (at : ℕ) → at < length cells.old → get_or rows.now at 0 < length (codes_in codes) }
    ensures values { (values : List Cell) → AreCodes values (codes_in codes.entry) → AreNulls values nulls.now → AreCellsOf values rows.now (length cells.old) cells.new }
    ensures kinds { AreOfKind kinds.Text cells.new }
{
    for at in 0..cells.len() {
        cells[at] = code_at(codes, nulls, row_at(rows, at));
    }
}

// The match on the width, once for all rows: each width has a loop of its own.
fn fill_numbers(column: &Column, rows: &[u32], cells: &mut [Kept])
    requires kind { column.now.kind ≡ kinds.Int }
    requires rows { (at : ℕ) → at < length cells.old → get_or rows.now at 0 < length column.now.values }
    ensures values { AreCellsOf column.now.values rows.now (length cells.old) cells.new }
    ensures kinds { AreOfKind column.now.kind cells.new }
{
    let nulls = column.null_words();
    match column.numbers() {
        NumberSlice::One(kept) => take_numbers(NumberSlice::One(kept), nulls, rows, cells),
        NumberSlice::Two(kept) => take_numbers(NumberSlice::Two(kept), nulls, rows, cells),
        NumberSlice::Four(kept) => take_numbers(NumberSlice::Four(kept), nulls, rows, cells),
        NumberSlice::Eight(kept) => take_numbers(NumberSlice::Eight(kept), nulls, rows, cells),
    }
}

// The codes whose numbers these are.
#[inline(always)]
pub(crate) fn codes_of(numbers: NumberSlice<'_>) -> CodeSlice<'_>
    ensures { codes_in result ≡ map kept_code (numbers_in numbers.entry) }
{
    CodeSlice { numbers }
}

fn fill_codes(column: &Column, rows: &[u32], cells: &mut [Kept])
    requires kind { column.now.kind ≡ kinds.Text }
    requires rows { (at : ℕ) → at < length cells.old → get_or rows.now at 0 < length column.now.values }
    ensures values { AreCellsOf column.now.values rows.now (length cells.old) cells.new }
    ensures kinds { AreOfKind column.now.kind cells.new }
{
    let nulls = column.null_words();
    match column.codes().numbers {
        NumberSlice::One(kept) => take_codes(codes_of(NumberSlice::One(kept)), nulls, rows, cells),
        NumberSlice::Two(kept) => take_codes(codes_of(NumberSlice::Two(kept)), nulls, rows, cells),
        NumberSlice::Four(kept) => take_codes(
            codes_of(NumberSlice::Four(kept)),
            nulls,
            rows,
            cells,
        ),
        NumberSlice::Eight(kept) => take_codes(
            codes_of(NumberSlice::Eight(kept)),
            nulls,
            rows,
            cells,
        ),
    }
}

// Fills a list with what stands for the values of some rows.
fn fill(
    column: &Column,
    rows: &[u32],
    count: usize,
    cells: &mut Vec<Kept>,
) -> Result<(), AllocError>
    requires rows { (at : ℕ) → at < count → get_or rows.now at 0 < length column.now.values }
    ensures values { OnOk result (AreCellsOf column.now.values rows.now count cells.new.items) }
    ensures kinds { OnOk result (AreOfKind column.now.kind cells.new.items) }
{
    cells.resize(count, Kept::Null)?;
    match column.kind() {
        ColType::Text => fill_codes(column, rows, cells.as_mut_slice()),
        ColType::Int => fill_numbers(column, rows, cells.as_mut_slice()),
    }
    Ok(())
}

// The type of a column.
pub(crate) fn kind_at(tables: &[Table], column: ColumnRef) -> ColType
    requires { IsColumn tables.now column }
    ensures { result ≡ kind_of tables.now column }
{
    let table = &tables[column.table];
    table.column(column.column).kind()
}

// Fills a list with what stands for the values of a column in the combinations of a block.
pub(crate) fn fill_cells(
    tables: &[Table],
    block: &Block,
    column: ColumnRef,
    cells: &mut Vec<Kept>,
) -> Result<(), AllocError>
    requires column { IsColumn tables.now column }
    requires rows { All (λ rows. HasRow tables.now rows column) block.now }
    ensures cells { OnOk result (cells.new.items ≡ map (λ rows. cell_in tables.now rows column) block.now) }
    ensures kinds { OnOk result (AreOfKind (kind_of tables.now column) cells.new.items) }
{
    let table = &tables[column.table];
    let rows = block.rows(column.place);
    fill(table.column(column.column), rows, block.len(), cells)
}

// What stands for the value of a column in a combination.
pub(crate) fn cell_in(tables: &[Table], rows: &[u32], column: ColumnRef) -> Kept
    requires column { IsColumn tables.now column }
    requires row { HasRow tables.now rows.now column }
    ensures value { result ≡ cell_in tables.now rows.now column }
    ensures kind { IsOfKind (kind_of tables.now column) result }
{
    let table = &tables[column.table];
    column_cell(table.column(column.column), rows[column.place])
}

// What stands for the value of a column in a combination of a job's rows.
pub(crate) fn cell(job: &Job, row: &JoinedRow, column: ColumnRef) -> Kept
    requires there { has_column job.now.query job.now.tables column ≡ true }
    requires row { IsCombination (from_tables job.now) row.now }
    ensures value { spelt_cell (values_of job.now.tables column) result ≡ ref_value job.now row.now column }
    ensures kept { IsKept (values_of job.now.tables column) result }
{
    cell_in(job.tables(), row.as_slice(), column)
}

// The text of a code of a column.
fn spelt_text(column: &Column, code: u32) -> &str
    requires { code < length (texts_of column.now.values) }
    ensures { slice_get (texts_of column.now.values) code ≡ Some result.now }
{
    match column.kind() {
        ColType::Text => column.spelt(code),
        ColType::Int => {
            numbers_have_no_text(column);
            unreachable!()
        }
    }
}

// The text of a code of a column.
pub(crate) fn text_in<'a>(tables: &'a [Table], column: Option<ColumnRef>, code: u32) -> &'a str
    requires column { IsSomeColumn tables.now column }
    requires code { code < length (texts_of (values_at tables.now column)) }
    ensures { slice_get (texts_of (values_at tables.now column)) code ≡ Some result.now }
{
    let Some(column) = column else { unreachable!() };
    let table = &tables[column.table];
    spelt_text(table.column(column.column), code)
}
