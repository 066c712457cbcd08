// The values of a column as digits of keys.

ghost use Rattle.std.specs.Prelude.{◌≡◌, ◌<◌, ℕ, List, Some, get_or, length, slice_get};
ghost use Rattle.std.specs.List.{All};
ghost use Rattle.ssb_cells.specs.Cell.{Cell};
ghost use Rattle.ssb_cells.specs.Lent.{AreCodes, AreNulls, AreNumbers};
ghost use Rattle.ssb_cells.specs.PackedLent.{codes_in, numbers_in};
ghost use Rattle.ssb_terms.specs.declared.rule.ColType.TheVariants as kinds;
ghost use Rattle.ssb_groups.specs.Digits.{AddsCell, AddsDigits};
ghost use Rattle.ssb_groups.specs.Refs.{HasRow, IsColumn};

use crate::column::{code_at, codes_of, number_at, row_at};
use ssb_cells::{CodeSlice, Column, NumberSlice, Table};
use ssb_job::Block;
use ssb_keys::{Domain, add_digit};
use ssb_plan::ColumnRef;
use ssb_terms::ColType;

// Puts the digits of the values of some rows below the digits of keys, of numbers that are kept in one width.
#[inline(always)]
fn add_number_digits(
    numbers: NumberSlice<'_>,
    nulls: &[u64],
    rows: &[u32],
    domain: Domain,
    keys: &mut [u64],
)
    requires { (at : ℕ) → at < length keys.old → get_or rows.now at 0 < length (numbers_in numbers) }
    ensures { (values : List Cell) → AreNumbers values (numbers_in numbers.entry) → AreNulls values nulls.now → AddsDigits values kinds.Int domain rows.now keys.old keys.new }
{
    for at in 0..keys.len() {
        let cell = number_at(numbers, nulls, row_at(rows, at));
        keys[at] = add_digit(domain, keys[at], cell);
    }
}

// The same of codes.
#[inline(always)]
fn add_code_digits(
    codes: CodeSlice<'_>,
    nulls: &[u64],
    rows: &[u32],
    domain: Domain,
    keys: &mut [u64],
)
    requires { (at : ℕ) → at < length keys.old → get_or rows.now at 0 < length (codes_in codes) }
    ensures { (values : List Cell) → AreCodes values (codes_in codes.entry) → AreNulls values nulls.now → AddsDigits values kinds.Text domain rows.now keys.old keys.new }
{
    for at in 0..keys.len() {
        let cell = code_at(codes, nulls, row_at(rows, at));
        keys[at] = add_digit(domain, keys[at], cell);
    }
}

fn add_numbers_of(column: &Column, rows: &[u32], domain: Domain, keys: &mut [u64])
    requires kind { column.now.kind ≡ kinds.Int }
    requires rows { (at : ℕ) → at < length keys.old → get_or rows.now at 0 < length column.now.values }
    ensures { AddsDigits column.now.values column.now.kind domain rows.now keys.old keys.new }
{
    let nulls = column.null_words();
    match column.numbers() {
        NumberSlice::One(kept) => {
            add_number_digits(NumberSlice::One(kept), nulls, rows, domain, keys)
        }
        NumberSlice::Two(kept) => {
            add_number_digits(NumberSlice::Two(kept), nulls, rows, domain, keys)
        }
        NumberSlice::Four(kept) => {
            add_number_digits(NumberSlice::Four(kept), nulls, rows, domain, keys)
        }
        NumberSlice::Eight(kept) => {
            add_number_digits(NumberSlice::Eight(kept), nulls, rows, domain, keys)
        }
    }
}

fn add_codes_of(column: &Column, rows: &[u32], domain: Domain, keys: &mut [u64])
    requires kind { column.now.kind ≡ kinds.Text }
    requires rows { (at : ℕ) → at < length keys.old → get_or rows.now at 0 < length column.now.values }
    ensures { AddsDigits column.now.values column.now.kind domain rows.now keys.old keys.new }
{
    let nulls = column.null_words();
    match column.codes().numbers {
        NumberSlice::One(kept) => {
            add_code_digits(codes_of(NumberSlice::One(kept)), nulls, rows, domain, keys)
        }
        NumberSlice::Two(kept) => {
            add_code_digits(codes_of(NumberSlice::Two(kept)), nulls, rows, domain, keys)
        }
        NumberSlice::Four(kept) => {
            add_code_digits(codes_of(NumberSlice::Four(kept)), nulls, rows, domain, keys)
        }
        NumberSlice::Eight(kept) => {
            add_code_digits(
                codes_of(NumberSlice::Eight(kept)),
                nulls,
                rows,
                domain,
                keys,
            )
        }
    }
}

// Puts the digits of a column's values in the combinations of a block below the digits of keys.
pub(crate) fn add_column(
    tables: &[Table],
    block: &Block,
    column: ColumnRef,
    domain: Domain,
    keys: &mut [u64],
)
    requires column { IsColumn tables.now column }
    requires rows { All (λ rows. HasRow tables.now rows column) block.now }
    requires many { length keys.old ≡ length block.now }
    ensures many { length keys.new ≡ length keys.old }
    ensures digits { (n : ℕ) (rows : List ℕ) → slice_get block.now n ≡ Some rows → AddsCell tables.now column domain rows (get_or keys.old n 0) (get_or keys.new n 0) }
{
    let table = &tables[column.table];
    let rows = block.rows(column.place);
    let column = table.column(column.column);
    match column.kind() {
        ColType::Text => add_codes_of(column, rows, domain, keys),
        ColType::Int => add_numbers_of(column, rows, domain, keys),
    }
}
