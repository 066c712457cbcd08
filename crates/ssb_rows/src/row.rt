// A row of an answer.

ghost use Rattle.std.specs.Prelude.{◌≡◌, ◌==◌, ◌∷◌, [], IfNone, IfSome, drop, length, slice_get, take};
ghost use Rattle.std.specs.Option.{option_map};
ghost use Rattle.ssb_cells.specs.Values.{cell_of};

use crate::cells::Cells;
use ssb_cells::Value;
use std::marker::Model;

/// A row of an answer, lent: its values from left to right, seen as their list.
#[derive(Drop)]
pub struct AnswerRow<'a> {
    cells: &'a Cells,
    // Where its values begin among the cells, and the place behind the last.
    from: usize,
    end: usize,
}

impl<'a> Model for AnswerRow<'a> {
    ghost use Rattle.std.specs.Prelude.{◌≤◌, List, length, slice_range};
    ghost use Rattle.ssb_cells.specs.Cell.{Cell};

    ghost Value = { List Cell };

    ghost view = { λ r. slice_range r.cells.now r.from r.end };

    ghost invariant = { λ r. (r.from ≤ r.end) × (r.end ≤ length r.cells.now) };
}

impl<'a> AnswerRow<'a> {
    // So many values from a place on, or as many as there are.
    pub(crate) fn new(cells: &'a Cells, from: usize, len: usize) -> AnswerRow<'a>
        ensures { result ≡ take len (drop from cells.now) }
    {
        let count = cells.len();
        let from = from.min(count);
        let end = from + len.min(count - from);
        AnswerRow { cells, from, end }
    }

    /// How many values there are: one for each select column.
    pub fn len(&self) -> usize
        ensures { result ≡ length self.now }
    {
        self.end - self.from
    }

    /// Whether there is no value.
    pub fn is_empty(&self) -> bool
        ensures { result ≡ (length self.now == 0) }
    {
        self.from == self.end
    }

    /// The value at a place, from 0, if there is one.
    pub fn value(&self, place: usize) -> Option<Value<'a>>
        ensures { option_map cell_of result ≡ slice_get self.now place }
    {
        if place >= self.end - self.from {
            return None;
        }
        self.cells.value(self.from + place)
    }

    // The first value, and the others.
    pub(crate) fn split_first(&self) -> Option<(Value<'a>, AnswerRow<'a>)>
        ensures some { IfSome result (λ split. self.now ≡ cell_of split.0 ∷ split.1) }
        ensures none { IfNone result (self.now ≡ []) }
    {
        match self.value(0) {
            Some(first) => {
                let rest = AnswerRow {
                    cells: self.cells,
                    from: self.from + 1,
                    end: self.end,
                };
                Some((first, rest))
            }
            None => None,
        }
    }
}
