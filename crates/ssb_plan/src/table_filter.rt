// What WHERE asks of the rows of one table alone.

ghost use Rattle.std.specs.Prelude.{◌≡◌, ◌<◌, ◌≤◌, ◌-◌, List, [], Some, is_some, length, slice_get, take, true, ℕ, Bool, IfOk, IfSome, MatchOption, OnOk};
ghost use Rattle.std.specs.List.{All, filter, list_all, range_with_len};
ghost use Rattle.ssb_cells.specs.Tables.{rows_in};
ghost use Rattle.ssb_plan.specs.Filters.{IsColumnFilter, IsTableFilter, IsThere, SaysSame, asked_column, asked_of, is_evaluated, passes, tests_rows};
ghost use Rattle.ssb_conditions.specs.Met.{all_true};
ghost use Rattle.ssb_plan.specs.Only.{alone_at};
ghost use Rattle.ssb_conditions.specs.Rows.{RowValuation, tables_at, value};
ghost use Rattle.ssb_plan.specs.declared.column_filter.ColumnFilter.{ColumnFilter};
ghost use Rattle.ssb_query.specs.declared.column.BoundColumn.{BoundColumn};
ghost use Rattle.ssb_sets.specs.Marks.{AreMarked};
ghost use Rattle.ssb_trees.specs.Conditions.{Filter};

use crate::column_filter::ColumnFilter;
use crate::only::only_at;
use crate::sets::{Subject, ValueSet, set_of};
use crate::sole::sole_column;
use ssb_cells::Table;
use ssb_conditions::{all_true, either, settling};
use ssb_query::{BoundColumn, copy_condition};
use ssb_sets::{Join, MARKED_ROWS, Marks, NumberSet, fill};
use ssb_trees::Filter;
use std::alloc::{AllocError, Global};

/// A table of FROM, as conditions over it alone are tested on its rows.
#[derive(Clone, Copy)]
pub struct Local<'a> {
    /// The tables of the whole catalog.
    pub tables: &'a [Table],
    /// The numbers of FROM's tables among them.
    pub from: &'a [usize],
    /// The table's place in FROM, from 0.
    pub place: usize,
    /// The table.
    pub table: &'a Table,
}

/// What WHERE asks of the rows of one table alone: a filter for each column that some conjunct speaks of
/// alone, and the other conjuncts over this table, which are evaluated.
#[derive(Drop)]
pub struct TableFilter {
    /// The filters of columns.
    pub columns: Vec<ColumnFilter>,
    /// The conjuncts that are evaluated.
    pub others: Vec<Filter<BoundColumn>>,
}

/// A combination that has this row at this place of FROM, for conditions that read no other.
pub fn alone(place: usize, row: u32) -> [u32; 8]
    requires { place < 8 }
    ensures { result ≡ alone_at place row }
{
    let mut rows = [0; 8];
    rows[place] = row;
    rows
}

// The column of the table at this place, with so many, that a conjunct is tested by: the one that it speaks
// of alone.
fn asked_column(place: usize, count: usize, conjunct: &Filter<BoundColumn>) -> Option<usize>
    ensures { result ≡ asked_column place count conjunct.now }
{
    if !only_at(place, conjunct) {
        return None;
    }
    match sole_column(conjunct) {
        Some(x) if x.table == place && x.column < count => Some(x.column),
        _ => None,
    }
}

// The filter of a column by the conjuncts that speak of it alone, where there is one.
fn column_filter(
    alloc: Global,
    table: &Table,
    place: usize,
    column: usize,
    conjuncts: &[Filter<BoundColumn>],
) -> Result<Option<ColumnFilter>, AllocError>
    requires { column < length table.now }
    ensures filter { IfOk result (λ o. MatchOption o (asked_of place (length table.now) column conjuncts.now ≡ []) (IsColumnFilter table.now place conjuncts.now)) }
    ensures column { IfOk result (λ o. IfSome o (λ f. f.column ≡ column)) }
{
    let x = Subject {
        name: BoundColumn {
            table: place,
            column,
        },
        values: table.column(column),
    };
    let count = table.column_count();
    let mut null = settling(Join::And).not();
    let mut sets = Vec::new(alloc);
    for conjunct in conjuncts {
        if asked_column(place, count, conjunct) == Some(column) {
            let set = set_of(alloc, x, conjunct)?;
            null = either(Join::And, null, set.null);
            sets.push(set.numbers)?;
        }
    }
    if sets.is_empty() {
        return Ok(None);
    }
    let numbers = NumberSet::join_all(alloc, Join::And, &sets)?;
    let set = ValueSet { null, numbers };
    Ok(Some(ColumnFilter::of(alloc, table, column, set)?))
}

// The filters of a table's columns.
fn column_filters(
    alloc: Global,
    table: &Table,
    place: usize,
    conjuncts: &[Filter<BoundColumn>],
) -> Result<Vec<ColumnFilter>, AllocError>
    ensures filters { IfOk result (λ fs. All (IsColumnFilter table.now place conjuncts.now) fs.items) }
    ensures each { IfOk result (λ fs. (v : RowValuation) → list_all (λ (g : ColumnFilter). all_true v (asked_of place (length table.now) g.column conjuncts.now)) fs.items ≡ all_true v (filter (λ c. is_some (asked_column place (length table.now) c)) conjuncts.now)) }
{
    let mut columns = Vec::new(alloc);
    for column in 0..table.column_count() {
        if let Some(filter) = column_filter(alloc, table, place, column, conjuncts)? {
            columns.push(filter)?;
        }
    }
    Ok(columns)
}

// The conjuncts over this table that no column's filter tests.
fn evaluated(
    alloc: Global,
    table: &Table,
    place: usize,
    conjuncts: &[Filter<BoundColumn>],
) -> Result<Vec<Filter<BoundColumn>>, AllocError>
    ensures { IfOk result (λ cs. cs.items ≡ filter (is_evaluated place (length table.now)) conjuncts.now) }
{
    let count = table.column_count();
    let mut others = Vec::new(alloc);
    for conjunct in conjuncts {
        if only_at(place, conjunct) && asked_column(place, count, conjunct).is_none() {
            others.push(copy_condition(alloc, conjunct)?)?;
        }
    }
    Ok(others)
}

// Leaves the rows that pass all these filters of columns.
fn keep_all(columns: &[ColumnFilter], table: &Table, rows: &mut Vec<u32>)
    requires there { All (IsThere table.now) columns.now }
    requires rows { All (λ r. r < rows_in table.now) rows.old.items }
    ensures { (p : ColumnFilter → ℕ → Bool) → All (SaysSame table.now p) columns.now → rows.new.items ≡ filter (λ r. list_all (λ f. p f r) columns.now) rows.old.items }
{
    for filter in columns {
        filter.keep(table, rows);
    }
}

// Clears the marks of the rows in `from..end` that do not pass the leading filters that ask ranges, and says how many
// these filters are.
fn mark_leading(
    columns: &[ColumnFilter],
    table: &Table,
    from: u32,
    end: u32,
    marks: &mut Marks,
) -> usize
    requires there { All (IsThere table.now) columns.now }
    requires order { from ≤ end }
    requires rows { end ≤ rows_in table.now }
    requires few { end - from ≤ 4096 }
    ensures count { result ≤ length columns.now }
    ensures marks { (p : ColumnFilter → ℕ → Bool) → All (SaysSame table.now p) columns.now → AreMarked (λ r. true) from (end - from) marks.old.words → AreMarked (λ r. list_all (λ f. p f r) (take result columns.now)) from (end - from) marks.new.words }
{
    for i in 0..columns.len() {
        if !columns[i].mark(table, from, end, marks) {
            return i;
        }
    }
    columns.len()
}

// Fills a list with the rows in `from..end` that pass the leading filters that ask ranges, as many as go by marks, and
// says how many these filters are.
fn first_marked(
    columns: &[ColumnFilter],
    table: &Table,
    from: u32,
    end: u32,
    rows: &mut Vec<u32>,
) -> Result<usize, AllocError>
    requires there { All (IsThere table.now) columns.now }
    requires order { from ≤ end }
    requires rows { end ≤ rows_in table.now }
    ensures count { IfOk result (λ marked. marked ≤ length columns.now) }
    ensures rows { IfOk result (λ marked. (p : ColumnFilter → ℕ → Bool) → All (SaysSame table.now p) columns.now → rows.new.items ≡ filter (λ r. list_all (λ f. p f r) (take marked columns.now)) (range_with_len from (end - from))) }
{
    if end - from <= MARKED_ROWS {
        let mut marks = Marks::all(end - from);
        let marked = mark_leading(columns, table, from, end, &mut marks);
        if marked > 0 {
            marks.list_rows(from, end, rows)?;
            return Ok(marked);
        }
    }
    fill(rows, from, end)?;
    Ok(0)
}

// Fills a list with the rows in `from..end` that pass all these filters of columns.
fn first_of(
    columns: &[ColumnFilter],
    table: &Table,
    from: u32,
    end: u32,
    rows: &mut Vec<u32>,
) -> Result<(), AllocError>
    requires there { All (IsThere table.now) columns.now }
    requires order { from ≤ end }
    requires rows { end ≤ rows_in table.now }
    ensures { OnOk result ((p : ColumnFilter → ℕ → Bool) → All (SaysSame table.now p) columns.now → rows.new.items ≡ filter (λ r. list_all (λ f. p f r) columns.now) (range_with_len from (end - from))) }
{
    let marked = first_marked(columns, table, from, end, rows)?;
    keep_all(&columns[marked..], table, rows);
    Ok(())
}

impl TableFilter {
    /// What the conjuncts of WHERE over the table at this place of FROM ask of its rows.
    ///
    /// # Errors
    ///
    /// Only where a growth was refused.
    pub fn of(
        alloc: Global,
        table: &Table,
        place: usize,
        conjuncts: &[Filter<BoundColumn>],
    ) -> Result<TableFilter, AllocError>
        ensures { IfOk result (IsTableFilter table.now place conjuncts.now) }
    {
        Ok(TableFilter {
            columns: column_filters(alloc, table, place, conjuncts)?,
            others: evaluated(alloc, table, place, conjuncts)?,
        })
    }

    /// Whether it asks anything of a row.
    pub fn tests_rows(&self) -> bool
        ensures { result ≡ tests_rows self.now }
    {
        !self.columns.is_empty() || !self.others.is_empty()
    }

    // Whether a row meets the conjuncts that are evaluated.
    fn meets_others(&self, local: Local<'_>, row: u32) -> bool
        requires { local.place < 8 }
        ensures { result ≡ all_true (value (tables_at local.entry.tables.now local.entry.from.now) (alone_at local.entry.place row)) self.now.others.items }
    {
        let combination = alone(local.place, row);
        all_true(local.tables, local.from, &combination, &self.others)
    }

    // Leaves the rows that meet the conjuncts that are evaluated, in their order.
    fn keep_others(&self, local: Local<'_>, rows: &mut Vec<u32>)
        requires { local.place < 8 }
        ensures { rows.new.items ≡ filter (λ r. all_true (value (tables_at local.entry.tables.now local.entry.from.now) (alone_at local.entry.place r)) self.now.others.items) rows.old.items }
    {
        if self.others.is_empty() {
            return;
        }
        rows.retain(|row| self.meets_others(local, *row));
    }

    /// Fills a list with the rows in `from..end` that meet the conjuncts over this table alone.
    ///
    /// # Errors
    ///
    /// Only where a growth was refused.
    pub fn first(
        &self,
        local: Local<'_>,
        from: u32,
        end: u32,
        rows: &mut Vec<u32>,
    ) -> Result<(), AllocError>
        requires few { local.place < 8 }
        requires table { slice_get (tables_at local.tables.now local.from.now) local.place ≡ Some local.table.now }
        requires there { All (IsThere local.table.now) self.now.columns.items }
        requires order { from ≤ end }
        requires rows { end ≤ rows_in local.table.now }
        ensures { OnOk result ((cs : List (Filter BoundColumn)) → IsTableFilter local.entry.table.now local.entry.place cs self.now → rows.new.items ≡ filter (passes (tables_at local.entry.tables.now local.entry.from.now) local.entry.place cs) (range_with_len from (end - from))) }
    {
        first_of(&self.columns, local.table, from, end, rows)?;
        self.keep_others(local, rows);
        Ok(())
    }

    /// Leaves the rows that meet the conjuncts over this table alone, in their order.
    pub fn keep(&self, local: Local<'_>, rows: &mut Vec<u32>)
        requires few { local.place < 8 }
        requires table { slice_get (tables_at local.tables.now local.from.now) local.place ≡ Some local.table.now }
        requires there { All (IsThere local.table.now) self.now.columns.items }
        requires rows { All (λ r. r < rows_in local.table.now) rows.old.items }
        ensures { (cs : List (Filter BoundColumn)) → IsTableFilter local.entry.table.now local.entry.place cs self.now → rows.new.items ≡ filter (passes (tables_at local.entry.tables.now local.entry.from.now) local.entry.place cs) rows.old.items }
    {
        keep_all(&self.columns, local.table, rows);
        self.keep_others(local, rows);
    }
}
