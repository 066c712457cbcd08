// Why a file is no table, or no catalog.

ghost use Rattle.std.specs.Prelude.{◌≡◌};
ghost use Rattle.ssb_records.specs.Titles.{reason_number, record_title};

use std::fmt;
use thiserror::Error;

/// What is wrong with a record of a table, least number first.
#[derive(Clone, Copy, PartialEq, Eq, Debug, Error)]
pub enum RecordFault {
    /// Not as many fields as the table has columns, and not one more that is empty.
    FieldCount,
    /// A field that is not UTF-8.
    BadUtf8,
    /// A field of an `int` column that is not empty and spells no number of 64 bits.
    BadNumber,
    /// An empty field in a `key` or `need` column.
    NullNotAllowed,
    /// A key that stands in an earlier record.
    DuplicateKey,
    /// A record past the most that a table may have.
    TooManyRows,
    /// A text of more than 4,096 bytes.
    TextTooLong,
}

impl RecordFault {
    /// Its number and its name, as `docs/FAULTS.md` lists them.
    pub fn title(&self) -> &str
        ensures { result.now ≡ record_title self.now }
    {
        match self {
            RecordFault::FieldCount => "L1 FieldCount",
            RecordFault::BadUtf8 => "L2 BadUtf8",
            RecordFault::BadNumber => "L3 BadNumber",
            RecordFault::NullNotAllowed => "L4 NullNotAllowed",
            RecordFault::DuplicateKey => "L5 DuplicateKey",
            RecordFault::TooManyRows => "L6 TooManyRows",
            RecordFault::TextTooLong => "L7 TextTooLong",
        }
    }
}

impl fmt::Display for RecordFault {
    fn fmt<W: fmt::Write>(&self, f: &mut fmt::Formatter<W>) -> fmt::Result {
        f.write_str(self.title())
    }
}

/// What is wrong with a catalog, least number first.
#[derive(Clone, Copy, PartialEq, Eq, Debug, Error)]
pub enum CatalogFault {
    /// Not four fields, and not five of which the last is empty.
    FieldCount,
    /// A table or column name that is no name, is a reserved word, or has more than 128 bytes.
    BadName,
    /// A type other than `int` and `text`.
    BadType,
    /// A role other than `key`, `need` and `null`.
    BadRole,
    /// A column that the table has already.
    ColumnTwice,
    /// A second key of a table.
    KeyTwice,
    /// A key that is a text.
    KeyNotInt,
    /// A seventeenth table, or a table's sixty-fifth column.
    TooMany,
    /// No table without a key; the record is 0.
    NoFact,
    /// Two or more tables without a key; the record is 0.
    TwoFacts,
}

impl CatalogFault {
    /// Its number among the reasons why a file is no catalog, as `docs/FAULTS.md` lists them.
    pub fn number(&self) -> &str
        ensures { result.now ≡ reason_number self.now }
    {
        match self {
            CatalogFault::FieldCount => "C1",
            CatalogFault::BadName => "C2",
            CatalogFault::BadType => "C3",
            CatalogFault::BadRole => "C4",
            CatalogFault::ColumnTwice => "C5",
            CatalogFault::KeyTwice => "C6",
            CatalogFault::KeyNotInt => "C7",
            CatalogFault::TooMany => "C8",
            CatalogFault::NoFact => "C9",
            CatalogFault::TwoFacts => "C10",
        }
    }
}

impl fmt::Display for CatalogFault {
    fn fmt<W: fmt::Write>(&self, f: &mut fmt::Formatter<W>) -> fmt::Result {
        f.write_str(self.number())
    }
}

/// Why a table or a catalog could not be loaded. Records are numbered from 1.
#[derive(Clone, Copy, PartialEq, Eq, Debug, Error)]
pub enum LoadFault {
    /// The first faulty record of a table: the least fault that applies to it, and its number.
    #[error("{0} {1}")]
    Record(RecordFault, u64),
    /// The first faulty record of a catalog: the least reason that applies to it, and its number, or
    /// 0 where each record is good and the whole is not.
    #[error("L8 BadCatalog {0} {1}")]
    BadCatalog(CatalogFault, u64),
    /// The reader failed. The number is that of the record on its way, one more than those accepted.
    #[error("L9 Read {0}")]
    Read(u64),
    /// A growth was refused.
    #[error("Memory")]
    Memory,
}
