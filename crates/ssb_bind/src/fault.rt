// Why a query means nothing over a catalog.

ghost use Rattle.std.specs.Prelude.{◌≡◌};
ghost use Rattle.std.specs.Option.{option_copied};
ghost use Rattle.ssb_bind.specs.Titles.{bind_title, subject_of, many_word};

use ssb_terms::Name;
use std::alloc::AllocError;
use std::fmt;
use thiserror::Error;

/// Of what a query has too many.
#[derive(Clone, Copy, PartialEq, Eq, Debug, Error)]
pub enum TooMany {
    /// More than 8 tables.
    Tables,
    /// More than 32 select columns.
    Items,
    /// More than 16 group columns.
    Groups,
    /// More than 32 order keys.
    Orders,
    /// More than 32 aggregates in HAVING.
    Having,
}

impl TooMany {
    /// The word for it in the line of the fault, as `docs/FAULTS.md` lists them.
    pub fn word(&self) -> &str
        ensures { result.now ≡ many_word self.now }
    {
        match self {
            TooMany::Tables => "tables",
            TooMany::Items => "items",
            TooMany::Groups => "groups",
            TooMany::Orders => "orders",
            TooMany::Having => "having",
        }
    }
}

impl fmt::Display for TooMany {
    fn fmt<W: fmt::Write>(&self, f: &mut fmt::Formatter<W>) -> fmt::Result {
        f.write_str(self.word())
    }
}

/// Why a query could not be bound to a catalog, least number first.
#[derive(Debug, Drop, Error)]
pub enum BindFault {
    /// A FROM name that is no table.
    UnknownTable(Name),
    /// A FROM name that stood in FROM before.
    TableTwice(Name),
    /// A column that no table of FROM has, or not the one that is named.
    UnknownColumn(Name),
    /// A column, named without its table, that two tables of FROM have.
    AmbiguousColumn(Name),
    /// A number beside a text, or arithmetic or a sum of texts.
    TypeMismatch,
    /// A column of the select list or of HAVING, in no aggregate, that is no group column.
    NotGrouped(Name),
    /// An order key, by its number from 1, that is not exactly one select column.
    BadOrderItem(u64),
    /// FROM lacks the fact table.
    NoFactTable,
    /// A dimension of FROM that no condition ties to the fact table by its key.
    NotStar(Name),
    /// More of something than a query may have.
    TooMany(TooMany),
    /// A growth was refused.
    Memory,
}

impl BindFault {
    /// Its number and its name, as `docs/FAULTS.md` lists them. Of `Memory` they are never printed: its line
    /// is `ssb: Memory`.
    pub fn title(&self) -> &str
        ensures { result.now ≡ bind_title self.now }
    {
        match self {
            BindFault::UnknownTable(_) => "B1 UnknownTable",
            BindFault::TableTwice(_) => "B2 TableTwice",
            BindFault::UnknownColumn(_) => "B3 UnknownColumn",
            BindFault::AmbiguousColumn(_) => "B4 AmbiguousColumn",
            BindFault::TypeMismatch => "B5 TypeMismatch",
            BindFault::NotGrouped(_) => "B6 NotGrouped",
            BindFault::BadOrderItem(_) => "B7 BadOrderItem",
            BindFault::NoFactTable => "B8 NoFactTable",
            BindFault::NotStar(_) => "B9 NotStar",
            BindFault::TooMany(_) => "B10 TooMany",
            BindFault::Memory => "B11 Memory",
        }
    }

    /// The name that it tells of, or the word for what is too many: what `docs/FAULTS.md` has behind its
    /// name. A bad order key has a number there, and so none here.
    pub fn subject(&self) -> Option<&str>
        ensures { option_copied result ≡ subject_of self.now }
    {
        // Each name in an arm of its own: the prover sees none that several patterns bind.
        match self {
            BindFault::UnknownTable(name) => Some(name.as_str()),
            BindFault::TableTwice(name) => Some(name.as_str()),
            BindFault::UnknownColumn(name) => Some(name.as_str()),
            BindFault::AmbiguousColumn(name) => Some(name.as_str()),
            BindFault::NotGrouped(name) => Some(name.as_str()),
            BindFault::NotStar(name) => Some(name.as_str()),
            BindFault::TooMany(what) => Some(what.word()),
            _ => None,
        }
    }
}

impl fmt::Display for BindFault {
    fn fmt<W: fmt::Write>(&self, f: &mut fmt::Formatter<W>) -> fmt::Result {
        f.write_str(self.title())?;
        match (self, self.subject()) {
            (BindFault::BadOrderItem(key), _) => write!(f, " {key}"),
            (_, Some(subject)) => write!(f, " {subject}"),
            (_, None) => Ok(()),
        }
    }
}

impl From<AllocError> for BindFault {
    ghost use Rattle.std.specs.Prelude.{◌≡◌};
    ghost use Rattle.ssb_bind.specs.declared.fault.BindFault.TheVariants.{Memory};

    ghost from_gives = { λ _ e. e ≡ Memory };

    fn from(_error: AllocError) -> BindFault {
        BindFault::Memory
    }
}
