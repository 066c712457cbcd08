// An answer: rows of values.

ghost use Rattle.std.specs.Prelude.{◌≡◌, ◌==◌, ◌∷◌, [], IfNone, IfSome, length};
ghost use Rattle.ssb_rows.specs.Kept.{keyed_rows};

use crate::cells::Cells;
use crate::keyed::KeyedRows;
use crate::order::SortKey;
use crate::row::AnswerRow;
use std::marker::Model;

/// The rows of an answer in order, seen as their list.
pub struct Answer {
    rows: KeyedRows,
    // How many values each has.
    width: usize,
}

impl Model for Answer {
    ghost use Rattle.std.specs.Prelude.{List};
    ghost use Rattle.ssb_cells.specs.Cell.{Cell};
    ghost use Rattle.ssb_rows.specs.Kept.{keyed_rows};

    ghost Value = { List (List Cell) };

    ghost view = { λ a. keyed_rows a.rows.cells a.width a.rows.keys.items };
}

// Written out, so that the crates above need no proof of how its parts are let go.
impl Drop for Answer {
    fn drop(self) {
        let Answer { rows, width: _ } = self;
        drop(rows);
    }
}

impl Answer {
    // The answer of these rows, of so many values each.
    pub(crate) fn new(rows: KeyedRows, width: usize) -> Answer
        ensures { result ≡ keyed_rows rows.cells width rows.keys.items }
    {
        Answer { rows, width }
    }

    /// The rows.
    pub fn rows(&self) -> AnswerRows<'_>
        ensures { result ≡ self.now }
    {
        AnswerRows {
            cells: &self.rows.cells,
            width: self.width,
            keys: self.rows.keys.as_slice(),
        }
    }
}

/// Rows of an answer in order, lent, seen as their list.
#[derive(Drop)]
pub struct AnswerRows<'a> {
    cells: &'a Cells,
    width: usize,
    keys: &'a [SortKey],
}

impl<'a> Model for AnswerRows<'a> {
    ghost use Rattle.std.specs.Prelude.{List};
    ghost use Rattle.ssb_cells.specs.Cell.{Cell};
    ghost use Rattle.ssb_rows.specs.Kept.{keyed_rows};

    ghost Value = { List (List Cell) };

    ghost view = { λ r. keyed_rows r.cells.now r.width r.keys.now };
}

impl<'a> AnswerRows<'a> {
    /// How many there are.
    pub fn len(&self) -> usize
        ensures { result ≡ length self.now }
    {
        self.keys.len()
    }

    /// Whether there is none.
    pub fn is_empty(&self) -> bool
        ensures { result ≡ (length self.now == 0) }
    {
        self.keys.is_empty()
    }

    /// The first row, and the others.
    pub fn split_first(&self) -> Option<(AnswerRow<'a>, AnswerRows<'a>)>
        ensures some { IfSome result (λ split. self.now ≡ split.0 ∷ split.1) }
        ensures none { IfNone result (self.now ≡ []) }
    {
        let (first, others) = self.keys.split_first()?;
        let rest = AnswerRows {
            cells: self.cells,
            width: self.width,
            keys: others,
        };
        let row = AnswerRow::new(self.cells, first.from, self.width);
        Some((row, rest))
    }
}
