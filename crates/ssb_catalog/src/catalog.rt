// The catalog: tables, their columns, and what each column takes.

ghost use Rattle.std.specs.Prelude.{◌≡◌, ◌++◌, ◌∷◌, IfOk, OnOk, length, List};
ghost use Rattle.ssb_catalog.specs.Catalog.{is_column_named, is_fact, is_table_named};

use crate::draft::has_key;
use ssb_terms::{Name, Rule};
use std::alloc::AllocError;
use std::marker::Model;

/// A column of a table: its name, its type and its role.
pub struct ColumnDef {
    /// The name, in lower case.
    pub name: Name,
    /// The type and the role.
    pub rule: Rule,
}

// Written out, as each below: letting go of a value is then one call wherever one is in hand.
impl Drop for ColumnDef {
    fn drop(self) {
        let ColumnDef { name, rule: _ } = self;
        drop(name);
    }
}

/// A table of a catalog, seen as its name and the list of its columns.
pub struct TableDef {
    name: Name,
    columns: Vec<ColumnDef>,
}

impl Drop for TableDef {
    fn drop(self) {
        let TableDef { name, columns } = self;
        drop(name);
        drop(columns);
    }
}

impl Model for TableDef {
    ghost use Rattle.ssb_catalog.specs.Shapes.{TableShape};

    ghost Value = { TableShape };

    ghost view = { λ t. record { name = t.name; columns = t.columns.items } };
}

/// Tables in the order of the catalog's records, seen as their list.
///
/// There are 1 to 16 of them, with different names, and 1 to 64 columns in each, with different
/// names, each of at most 128 bytes. A table has at most one key, and it is `int`. One table has none:
/// the fact table.
pub struct Catalog {
    tables: Vec<TableDef>,
}

// Written out, so that the crates above need no proof of how its parts are let go.
impl Drop for Catalog {
    fn drop(self) {
        let Catalog { tables } = self;
        drop(tables);
    }
}

impl Model for Catalog {
    ghost use Rattle.std.specs.Prelude.{List};
    ghost use Rattle.ssb_catalog.specs.Shapes.{TableShape};
    ghost use Rattle.ssb_catalog.specs.Catalog.{IsCatalog};

    ghost Value = { List TableShape };

    ghost view = { λ c. c.tables.items };

    ghost invariant = { λ c. IsCatalog c.tables.items };
}

impl ColumnDef {
    /// Whether this is the column's name.
    pub fn is_named(&self, name: &Name) -> bool
        ensures { result ≡ is_column_named name.now self.now }
    {
        name.as_str() == self.name.as_str()
    }
}

impl TableDef {
    ghost use Rattle.ssb_catalog.specs.Drafting.{put_column};

    // A table with these columns.
    pub(crate) fn new(name: Name, columns: Vec<ColumnDef>) -> TableDef
        ensures name { result.name ≡ name }
        ensures columns { result.columns ≡ columns.items }
    {
        TableDef { name, columns }
    }

    // Puts a column behind the others.
    pub(crate) fn push(&mut self, column: ColumnDef) -> Result<(), AllocError>
        ensures { OnOk result (self.new ≡ put_column self.old column) }
    {
        self.columns.push(column)?;
        Ok(())
    }

    /// The name, in lower case.
    pub fn name(&self) -> &str
        ensures { result.now ≡ self.now.name }
    {
        self.name.as_str()
    }

    /// Whether this is the table's name.
    pub fn is_named(&self, name: &Name) -> bool
        ensures { result ≡ is_table_named name.now self.now }
    {
        name.as_str() == self.name()
    }

    /// The columns, in order.
    pub fn columns(&self) -> &[ColumnDef]
        ensures { result.now ≡ self.now.columns }
    {
        self.columns.as_slice()
    }

    /// Whether it is the fact table, the one that has no key.
    pub fn is_fact(&self) -> bool
        ensures { result ≡ is_fact self.now }
    {
        !has_key(self.columns())
    }
}

impl Catalog {
    ghost use Rattle.ssb_catalog.specs.Catalog.{IsCatalog};

    // The catalog of these tables.
    pub(crate) fn new(tables: Vec<TableDef>) -> Catalog
        requires { IsCatalog tables.items }
        ensures { result ≡ tables.items }
    {
        Catalog { tables }
    }

    /// The tables, in order.
    pub fn tables(&self) -> &[TableDef]
        ensures tables { result.now ≡ self.now }
        ensures lawful { IsCatalog self.now }
    {
        self.tables.as_slice()
    }
}
