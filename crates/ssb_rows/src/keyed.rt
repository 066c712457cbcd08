// Rows as they are found, and as they are ordered.

ghost use Rattle.std.specs.Prelude.{◌≡◌, [], IfOk};
ghost use Rattle.ssb_rows.specs.Kept.{AreWithin, keyed_rows};

use crate::cells::Cells;
use crate::order::SortKey;
use std::alloc::{AllocError, Global};

/// Rows, each of as many values.
#[derive(Drop)]
pub(crate) struct KeyedRows {
    /// The values of all.
    pub(crate) cells: Cells,
    /// Where those of each row begin.
    pub(crate) keys: Vec<SortKey>,
}

// None yet.
pub(crate) fn no_rows(alloc: Global) -> KeyedRows
    ensures cells { result.cells ≡ [] }
    ensures keys { result.keys.items ≡ [] }
{
    KeyedRows {
        cells: Cells::new(alloc),
        keys: Vec::new(alloc),
    }
}

// Rows are copied only where more than one in so many stands before the row that it follows in order: else copying
// costs more than it spares.
const ROWS_PER_STEP_BACK: usize = 16;

// Whether nearly all rows stand in the order of their keys.
fn are_nearly_in_order(keys: &[SortKey]) -> bool {
    let mut before = 0;
    let mut steps_back: usize = 0;
    for key in keys {
        if key.from < before {
            steps_back = steps_back.saturating_add(1);
        }
        before = key.from;
    }
    steps_back <= keys.len() / ROWS_PER_STEP_BACK
}

// The same rows, whose values stand in the order of their keys, or nearly so.
pub(crate) fn in_order(
    alloc: Global,
    found: KeyedRows,
    width: usize,
) -> Result<KeyedRows, AllocError>
    requires { AreWithin found.cells width found.keys.items }
    ensures { IfOk result (λ ordered. keyed_rows ordered.cells width ordered.keys.items ≡ keyed_rows found.cells width found.keys.items) }
{
    if are_nearly_in_order(&found.keys) {
        return Ok(found);
    }
    let KeyedRows { cells, keys } = found;
    let (cells, keys) = cells.in_order(alloc, &keys, width)?;
    Ok(KeyedRows { cells, keys })
}
