// The built-in catalog.

ghost use Rattle.std.specs.Prelude.{◌≡◌, IfOk, map, true};
ghost use Rattle.std.specs.List.{list_all};
ghost use Rattle.ssb_terms.specs.Names.{is_name};
ghost use Rattle.ssb_catalog.specs.BuiltIn.{ssb_tables};
ghost use Rattle.ssb_catalog.specs.Listing.{column_of, is_named, table_named};

use crate::benchmark::{CUSTOMER, DATE, LINEORDER, Line, PART, SUPPLIER};
use crate::catalog::{Catalog, ColumnDef, TableDef};
use ssb_terms::Name;
use std::alloc::{AllocError, Global};

// The column that a line says.
#[tactic(auto, unfolding(crate::specs::Listing::column_of))]
fn column(alloc: Global, line: &Line) -> Result<ColumnDef, AllocError>
    requires { is_named line.now ≡ true }
    ensures { IfOk result (λ c. c ≡ column_of line.now) }
{
    let Line(name, rule) = *line;
    let name = Name::new(alloc, name.as_bytes())?;
    Ok(ColumnDef { name, rule })
}

// The columns of these lines, in their order.
fn columns(alloc: Global, lines: &[Line]) -> Result<Vec<ColumnDef>, AllocError>
    requires { list_all is_named lines.now ≡ true }
    ensures { IfOk result (λ cs. cs.items ≡ map column_of lines.now) }
{
    let mut columns = Vec::with_capacity(alloc, lines.len())?;
    for line in lines {
        columns.push(column(alloc, line)?)?;
    }
    Ok(columns)
}

// The table of this name with the columns of these lines.
fn table(alloc: Global, name: &str, lines: &[Line]) -> Result<TableDef, AllocError>
    requires name { is_name name.now ≡ true }
    requires lines { list_all is_named lines.now ≡ true }
    ensures { IfOk result (λ t. t ≡ table_named name.now (map column_of lines.now)) }
{
    let name = Name::new(alloc, name.as_bytes())?;
    Ok(TableDef::new(name, columns(alloc, lines)?))
}

#[tactic(auto, unfolding(ssb_terms::specs::Keywords::keyword_of))]
fn tables(alloc: Global) -> Result<Vec<TableDef>, AllocError>
    ensures { IfOk result (λ ts. ts.items ≡ ssb_tables) }
{
    let mut tables = Vec::new(alloc);
    tables.push(table(alloc, "lineorder", &LINEORDER)?)?;
    tables.push(table(alloc, "customer", &CUSTOMER)?)?;
    tables.push(table(alloc, "supplier", &SUPPLIER)?)?;
    tables.push(table(alloc, "part", &PART)?)?;
    tables.push(table(alloc, "date", &DATE)?)?;
    Ok(tables)
}

impl Catalog {
    /// The built-in catalog, that of the Star Schema Benchmark: `lineorder`, `customer`, `supplier`,
    /// `part` and `date`, in this order, with 17, 8, 7, 9 and 17 columns. `lineorder` is the fact
    /// table; no column but the keys needs a value.
    ///
    /// # Errors
    ///
    /// `AllocError` where a growth was refused.
    pub fn ssb(alloc: Global) -> Result<Catalog, AllocError>
        ensures { IfOk result (λ c. c ≡ ssb_tables) }
    {
        Ok(Catalog::new(tables(alloc)?))
    }
}
