// A table: columns of one length.

ghost use Rattle.std.specs.Prelude.{◌≡◌, ◌<◌, length, slice_get, vec_len, Some};
ghost use Rattle.ssb_cells.specs.Tables.{rows_in, AreLong, cell_at};
ghost use Rattle.ssb_cells.specs.Values.{cell_of};

use crate::column::Column;
use crate::value::Value;
use std::marker::Model;

/// Columns of one length, at least one of them, seen as their list. Rows are numbered from 0 here,
/// and from 1 where a fault names one.
pub struct Table {
    columns: Vec<Column>,
}

// Written out, so that the crates above need no proof of how its parts are let go.
impl Drop for Table {
    fn drop(self) {
        let Table { columns } = self;
        drop(columns);
    }
}

impl Model for Table {
    ghost use Rattle.std.specs.Prelude.{List, length, ◌<◌};
    ghost use Rattle.ssb_cells.specs.Tables.{Filled};

    ghost Value = { List Filled };

    ghost use Rattle.ssb_cells.specs.Tables.{rows_in, AreLong};

    ghost view = { λ t. t.columns.items };

    ghost invariant = { λ t. (0 < length t.columns.items) × AreLong (rows_in t.columns.items) t.columns.items };
}

impl Table {
    /// The table of these columns.
    pub fn new(columns: Vec<Column>) -> Table
        requires some { 0 < vec_len columns }
        requires long { AreLong (rows_in columns.items) columns.items }
        ensures { result ≡ columns.items }
    {
        Table { columns }
    }

    /// How many columns there are.
    pub fn column_count(&self) -> usize
        ensures { result ≡ length self.now }
    {
        self.columns.len()
    }

    /// How many rows there are: as many as each column has values.
    pub fn row_count(&self) -> u32
        ensures rows { result ≡ rows_in self.now }
        ensures long { AreLong result self.now }
    {
        let first = &self.columns[0];
        first.len()
    }

    /// A column, by its place from 0.
    pub fn column(&self, at: usize) -> &Column
        requires { at < length self.now }
        ensures column { slice_get self.now at ≡ Some result.now }
        ensures long { length result.now.values ≡ rows_in self.now }
    {
        &self.columns[at]
    }

    /// The value of a column in a row.
    pub fn cell(&self, column: usize, row: u32) -> Value<'_>
        requires column { column < length self.now }
        requires row { row < rows_in self.now }
        ensures { cell_at self.now column row ≡ Some (cell_of result) }
    {
        self.column(column).get(row)
    }
}
