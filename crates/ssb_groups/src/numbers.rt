// The numbers, or the codes of the texts, of a column that has no null.

ghost use Rattle.std.specs.Prelude.{◌≡◌, ◌<◌, ℕ, List, [], IfOk, true, get_or, length, map};
ghost use Rattle.std.specs.List.{All};
ghost use Rattle.ssb_cells.specs.Cell.{Cell};
ghost use Rattle.ssb_cells.specs.Lent.{AreCodes, AreNulls, AreNumbers};
ghost use Rattle.ssb_cells.specs.PackedLent.{codes_in, numbers_in};
ghost use Rattle.ssb_terms.specs.declared.rule.ColType.TheVariants as kinds;
ghost use Rattle.ssb_groups.specs.Keys.{AreOfKind};
ghost use Rattle.ssb_groups.specs.Tallies.{kept_codes, kept_numbers};
ghost use Rattle.ssb_groups.specs.Refs.{AreCellsOf, HasRow, IsColumn, cell_in};

use crate::column::{codes_of, row_at};
use ssb_cells::{CodeSlice, Column, NumberSlice, Table};
use ssb_job::Block;
use ssb_plan::ColumnRef;
use ssb_terms::ColType;
use std::alloc::AllocError;

// Fills a list with the numbers of some rows, kept in one width. Where a row is null, the number is of no matter.
#[inline(always)]
fn copy_numbers(kept: NumberSlice<'_>, rows: &[u32], numbers: &mut [i64])
    requires { (at : ℕ) → at < length numbers.old → get_or rows.now at 0 < length (numbers_in kept) }
    ensures values { (values : List Cell) → AreNumbers values (numbers_in kept.entry) → AreNulls values [] → AreCellsOf values rows.now (length numbers.old) (kept_numbers numbers.new) }
    ensures kinds { AreOfKind kinds.Int (kept_numbers numbers.new) }
{
    for at in 0..numbers.len() {
        numbers[at] = kept.get(row_at(rows, at) as usize);
    }
}

// The same of codes.
#[inline(always)]
fn copy_codes(kept: CodeSlice<'_>, rows: &[u32], codes: &mut [u32])
    requires { (at : ℕ) → at < length codes.old → get_or rows.now at 0 < length (codes_in kept) }
    ensures { (values : List Cell) → AreCodes values (codes_in kept.entry) → AreNulls values [] → AreCellsOf values rows.now (length codes.old) (kept_codes codes.new) }
{
    for at in 0..codes.len() {
        codes[at] = kept.get(row_at(rows, at) as usize);
    }
}

// The numbers of some rows of a column of numbers that has no null.
fn copy_column_numbers(column: &Column, rows: &[u32], numbers: &mut [i64])
    requires kind { column.now.kind ≡ kinds.Int }
    requires no_null { AreNulls column.now.values [] }
    requires rows { (at : ℕ) → at < length numbers.old → get_or rows.now at 0 < length column.now.values }
    ensures values { AreCellsOf column.now.values rows.now (length numbers.old) (kept_numbers numbers.new) }
    ensures kinds { AreOfKind kinds.Int (kept_numbers numbers.new) }
{
    match column.numbers() {
        NumberSlice::One(kept) => copy_numbers(NumberSlice::One(kept), rows, numbers),
        NumberSlice::Two(kept) => copy_numbers(NumberSlice::Two(kept), rows, numbers),
        NumberSlice::Four(kept) => copy_numbers(NumberSlice::Four(kept), rows, numbers),
        NumberSlice::Eight(kept) => copy_numbers(NumberSlice::Eight(kept), rows, numbers),
    }
}

// The codes of some rows of a column of texts that has no null.
fn copy_column_codes(column: &Column, rows: &[u32], codes: &mut [u32])
    requires kind { column.now.kind ≡ kinds.Text }
    requires no_null { AreNulls column.now.values [] }
    requires rows { (at : ℕ) → at < length codes.old → get_or rows.now at 0 < length column.now.values }
    ensures { AreCellsOf column.now.values rows.now (length codes.old) (kept_codes codes.new) }
{
    match column.codes().numbers {
        NumberSlice::One(kept) => copy_codes(codes_of(NumberSlice::One(kept)), rows, codes),
        NumberSlice::Two(kept) => copy_codes(codes_of(NumberSlice::Two(kept)), rows, codes),
        NumberSlice::Four(kept) => copy_codes(codes_of(NumberSlice::Four(kept)), rows, codes),
        NumberSlice::Eight(kept) => copy_codes(codes_of(NumberSlice::Eight(kept)), rows, codes),
    }
}

// Whether a column is one of numbers and has no null.
fn is_int_without_null(column: &Column) -> bool
    ensures kind { result ≡ true → column.now.kind ≡ kinds.Int }
    ensures no_null { result ≡ true → AreNulls column.now.values [] }
{
    match column.kind() {
        ColType::Text => false,
        ColType::Int => column.null_words().is_empty(),
    }
}

// Whether a column is one of texts and has no null.
fn is_text_without_null(column: &Column) -> bool
    ensures kind { result ≡ true → column.now.kind ≡ kinds.Text }
    ensures no_null { result ≡ true → AreNulls column.now.values [] }
{
    match column.kind() {
        ColType::Text => column.null_words().is_empty(),
        ColType::Int => false,
    }
}

// Fills a list with the numbers of a column in the combinations of a block, if it is one of numbers and has no null.
// Whether it is: if not, the list is of no matter.
pub(crate) fn list_numbers(
    tables: &[Table],
    block: &Block,
    column: ColumnRef,
    numbers: &mut Vec<i64>,
) -> Result<bool, AllocError>
    requires column { IsColumn tables.now column }
    requires rows { All (λ rows. HasRow tables.now rows column) block.now }
    ensures cells { IfOk result (λ listed. listed ≡ true → kept_numbers numbers.new.items ≡ map (λ rows. cell_in tables.now rows column) block.now) }
    ensures kinds { IfOk result (λ listed. listed ≡ true → AreOfKind kinds.Int (kept_numbers numbers.new.items)) }
{
    let table = &tables[column.table];
    let rows = block.rows(column.place);
    let column = table.column(column.column);
    if !is_int_without_null(column) {
        return Ok(false);
    }
    numbers.resize(block.len(), 0)?;
    copy_column_numbers(column, rows, numbers.as_mut_slice());
    Ok(true)
}

// The same of codes, if the column is one of texts and has no null.
pub(crate) fn list_codes(
    tables: &[Table],
    block: &Block,
    column: ColumnRef,
    codes: &mut Vec<u32>,
) -> Result<bool, AllocError>
    requires column { IsColumn tables.now column }
    requires rows { All (λ rows. HasRow tables.now rows column) block.now }
    ensures { IfOk result (λ listed. listed ≡ true → kept_codes codes.new.items ≡ map (λ rows. cell_in tables.now rows column) block.now) }
{
    let table = &tables[column.table];
    let rows = block.rows(column.place);
    let column = table.column(column.column);
    if !is_text_without_null(column) {
        return Ok(false);
    }
    codes.resize(block.len(), 0)?;
    copy_column_codes(column, rows, codes.as_mut_slice());
    Ok(true)
}
