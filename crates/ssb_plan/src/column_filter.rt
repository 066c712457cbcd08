// What WHERE asks of one column of a table.

ghost use Rattle.std.specs.Prelude.{◌≡◌, ◌≤◌, ◌<◌, ◌-◌, ◌&&◌, ℕ, ℤ, Bool, length, true, false, IfOk};
ghost use Rattle.std.specs.List.{All, filter, range_with_len};
ghost use Rattle.ssb_cells.specs.Tables.{rows_in};
ghost use Rattle.ssb_cells.specs.Truth.{is_true};
ghost use Rattle.ssb_plan.specs.Filters.{AreEncoded, StandsAt, IsThere, passes_column};
ghost use Rattle.ssb_packed.specs.Lent.{flag_at};
ghost use Rattle.ssb_sets.specs.Checks.{passes};
ghost use Rattle.ssb_sets.specs.Marks.{AreMarked};
ghost use Rattle.ssb_sets.specs.Values.{IsWithin, bounds_of, eight_byte_bounds, values_in};

use crate::sets::ValueSet;
use ssb_cells::{Column, Table};
use ssb_sets::{Bounds, Check, Marks, ValueSlice, keep_values};
use ssb_terms::ColType;
use std::alloc::{AllocError, Global};

/// What WHERE asks of one column of a table: its conjuncts over that column alone, as one set.
#[derive(Drop)]
pub struct ColumnFilter {
    /// The column's place in its table.
    pub column: usize,
    /// Of which values, and whether of a null, all of them are True.
    pub set: ValueSet,
    /// What stands for the set where many rows are tested.
    pub check: Check,
}

/// The values of a column as numbers: those that it has, or the codes of its texts.
pub fn values_of(column: &Column) -> ValueSlice<'_>
    ensures values { AreEncoded column.now (values_in result) }
    ensures within { (n : ℤ) → IsWithin (bounds_of result) n → IsWithin eight_byte_bounds n }
{
    match column.kind() {
        ColType::Int => ValueSlice::Numbers(column.numbers()),
        ColType::Text => ValueSlice::Codes(column.codes()),
    }
}

// All numbers of 64 bits.
const ALL: Bounds = Bounds {
    least: i64::MIN,
    greatest: i64::MAX,
};

impl ColumnFilter {
    /// The filter of a column by a set.
    ///
    /// # Errors
    ///
    /// Only where a growth was refused.
    pub(crate) fn of(
        alloc: Global,
        table: &Table,
        column: usize,
        set: ValueSet,
    ) -> Result<ColumnFilter, AllocError>
        requires { column < length table.now }
        ensures there { IfOk result (IsThere table.now) }
        ensures column { IfOk result (λ f. f.column ≡ column) }
        ensures set { IfOk result (λ f. f.set ≡ set) }
    {
        let check = Check::of(alloc, &set.numbers, ALL, table.row_count())?;
        Ok(ColumnFilter { column, set, check })
    }

    // Whether some row passes for being null.
    fn takes_nulls(&self, nulls: &[u64]) -> bool
        ensures yes { result ≡ true → is_true self.now.set.null ≡ true }
        ensures no { result ≡ false → (r : ℕ) → flag_at nulls.now r ≡ true → is_true self.now.set.null ≡ false }
    {
        self.set.null.is_true() && !nulls.is_empty()
    }

    // Leaves the rows of a list that pass, in their order.
    pub(crate) fn keep(&self, table: &Table, rows: &mut Vec<u32>)
        requires there { IsThere table.now self.now }
        requires rows { All (λ r. r < rows_in table.now) rows.old.items }
        ensures rows { rows.new.items ≡ filter (passes_column table.now self.now) rows.old.items }
        ensures stand { All (StandsAt table.now self.now.column) rows.old.items }
    {
        let column = table.column(self.column);
        let values = values_of(column);
        let nulls = column.null_words();
        if self.takes_nulls(nulls) {
            self.check.keep_with_nulls(values, nulls, rows);
        } else {
            self.check.keep(values, rows);
            keep_values(nulls, rows);
        }
    }

    /// Clears the marks of the rows in `from..end` that do not pass, and says so, where a range of a column's numbers
    /// is asked and no null passes; else the marks stay as they were.
    pub(crate) fn mark(&self, table: &Table, from: u32, end: u32, marks: &mut Marks) -> bool
        requires there { IsThere table.now self.now }
        requires order { from ≤ end }
        requires rows { end ≤ rows_in table.now }
        requires few { end - from ≤ 4096 }
        ensures same { result ≡ false → marks.new ≡ marks.old }
        ensures marked { result ≡ true → (p : ℕ → Bool) → AreMarked p from (end - from) marks.old.words → AreMarked (λ r. p r && passes_column table.now self.now r) from (end - from) marks.new.words }
        ensures stand { result ≡ true → All (StandsAt table.now self.now.column) (range_with_len from (end - from)) }
    {
        let Check::Within(low, high) = &self.check else {
            return false;
        };
        let column = table.column(self.column);
        let ValueSlice::Numbers(numbers) = values_of(column) else {
            return false;
        };
        let nulls = column.null_words();
        if self.takes_nulls(nulls) {
            return false;
        }
        marks.clear_outside(numbers, from, end, *low, *high);
        marks.clear_nulls(nulls, from, end);
        true
    }
}
