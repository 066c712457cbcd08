// A column that comes in parts, such as those that several threads make.

ghost use Rattle.std.specs.Prelude.{◌≡◌, ◌<◌, ◌+◌, [], ◌++◌, length, ◌==◌, OnOk, OnErr, IfOk};

use crate::column::Column;
use ssb_packed::Width;
use ssb_terms::ColType;
use std::alloc::{AllocError, Global};
use std::marker::Model;

/// Columns of one type, seen as the column that they make in their order: its type and the list of all
/// values. There may be 4,294,967,295 of these.
pub struct ColumnParts {
    alloc: Global,
    kind: ColType,
    len: u32,
    parts: Vec<Column>,
}

// Written out, so that the crates above need no proof of how it is let go.
impl Drop for ColumnParts {
    fn drop(self) {
        let ColumnParts {
            alloc: _,
            kind: _,
            len: _,
            parts,
        } = self;
        drop(parts);
    }
}

impl Model for ColumnParts {
    ghost use Rattle.ssb_cells.specs.Tables.{Filled};

    ghost Value = { Filled };

    ghost use Rattle.ssb_cells.specs.Parts.{put_together, AreParts};

    ghost view = { put_together };

    ghost invariant = { AreParts };
}

// In how many bytes the widest of these columns keeps a number or a code.
fn widest(parts: &[Column]) -> Width {
    let mut widest = Width::One;
    for part in parts {
        widest = widest.max(part.width());
    }
    widest
}

impl ColumnParts {
    /// No part of a column of this type.
    pub fn new(alloc: Global, kind: ColType) -> ColumnParts
        ensures { result ≡ record { kind = kind; values = [] } }
    {
        ColumnParts {
            alloc,
            kind,
            len: 0,
            parts: Vec::new(alloc),
        }
    }

    /// Adds a part behind the others. An `Err` changes nothing, and the part is gone.
    pub fn push(&mut self, part: Column) -> Result<(), AllocError>
        requires of_type { part.kind ≡ self.old.kind }
        requires room { length self.old.values + length part.values < 4294967296 }
        ensures ok { OnOk result (self.new ≡ record self.old { values = self.old.values ++ part.values }) }
        ensures err { OnErr result (self.new ≡ self.old) }
    {
        let rows = part.len();
        self.parts.push(part)?;
        self.len += rows;
        Ok(())
    }

    /// The column of all parts. The first part with a value grows to hold all, and each other is copied
    /// behind it and then freed; a part alone is the column. Codes are widened on the way where the parts
    /// have more texts together than codes of their width can tell. On an `Err` all parts are gone.
    pub fn join(self) -> Result<Column, AllocError>
        ensures { IfOk result (λ c. c ≡ self) }
    {
        let width = widest(self.parts.as_slice());
        let ColumnParts {
            alloc,
            kind,
            len,
            parts,
        } = self;
        let mut column = Column::new(alloc, kind)?;
        for part in parts {
            let rows = len - column.len();
            column = column.append(part, width, rows as usize)?;
        }
        Ok(column)
    }

    /// The type of its values.
    pub fn kind(&self) -> ColType
        ensures { result ≡ self.now.kind }
    {
        self.kind
    }

    /// How many values the parts have together.
    pub fn len(&self) -> u32
        ensures { result ≡ length self.now.values }
    {
        self.len
    }

    /// Whether no part has a value.
    pub fn is_empty(&self) -> bool
        ensures { result ≡ (length self.now.values == 0) }
    {
        self.len() == 0
    }
}
