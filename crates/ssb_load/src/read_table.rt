// Reading a table, from what a source gives or from a reader.

ghost use Rattle.std.specs.Prelude.{◌≡◌, ◌<◌, ℕ, IfSome, IfOk, IfErr, List, length, map};
ghost use Rattle.ssb_cells.specs.Lawful.{HasOneKey, IsLawful};
ghost use Rattle.ssb_load.specs.Loading.{IsTableFault, Loads, LoadsFrom, rules_at};
ghost use Rattle.ssb_records.specs.Records.{records_of};

use crate::table_intake::TableIntake;
use ssb_catalog::{Catalog, ColumnDef};
use ssb_cells::{Memory, Table};
use ssb_records::{In, LoadFault, PIECE_SIZE, Source, take_all};
use ssb_terms::Rule;
use std::alloc::Global;
use std::io::Read;

// What these columns take.
fn rules_of(alloc: Global, columns: &[ColumnDef]) -> Result<Vec<Rule>, Memory>
    ensures { IfOk result (λ rules. rules.items ≡ map (λ c. c.rule) columns.now) }
{
    columns.iter().map(|column| column.rule).collect(alloc)
}

/// What the columns of a table take: some column there is, and one key at most. `table` is the number,
/// from 0, of a table of the catalog.
///
/// # Errors
///
/// [`Memory`] where a growth was refused.
pub fn rules_at(alloc: Global, catalog: &Catalog, table: usize) -> Result<Vec<Rule>, Memory>
    requires { table < length catalog.now }
    ensures rules { IfOk result (λ rules. rules.items ≡ rules_at catalog.now table) }
    ensures some { IfOk result (λ rules. 0 < length rules.items) }
    ensures key { IfOk result (λ rules. HasOneKey rules.items) }
{
    let tables = catalog.tables();
    let def = &tables[table];
    rules_of(alloc, def.columns())
}

/// The table that a file gives, read to its end, or the first faulty record with the least fault
/// that applies to it. `table` is the number, from 0, of a table of the catalog; `max_rows` is how
/// many records it may have at most. It is [`load_from`] over the reader.
///
/// # Errors
///
/// As of [`load_from`]; but a reader of std counts no failed read, so no clause keeps `Read` to those.
pub fn load<R: Read + Drop>(
    alloc: Global,
    catalog: &Catalog,
    table: usize,
    max_rows: u32,
    source: R,
) -> Result<Table, LoadFault>
    requires { table < length catalog.now }
    ensures known { IfSome (R.remaining source) (λ bytes. Loads (rules_at catalog.now table) max_rows (records_of bytes) result) }
    ensures some { (bytes : List ℕ) × Loads (rules_at catalog.now table) max_rows (records_of bytes) result }
    ensures lawful { IfOk result (λ t. IsLawful (rules_at catalog.now table) max_rows t) }
    ensures faults { IfErr result IsTableFault }
{
    let mut source = In::new(source);
    load_from(alloc, catalog, table, max_rows, &mut source)
}

/// The table of the bytes that a source gives from now on, to its end, or the first faulty record with
/// the least fault that applies to it. `table` is the number, from 0, of a table of the catalog;
/// `max_rows` is how many records it may have at most.
///
/// # Errors
///
/// `Record` with a fault and the record's number, from 1; `Read` only where a read of the source
/// failed, with a number one above that of the whole lines' records, which are all good; `Memory` where
/// a growth was refused. Nothing is left of a table that was not loaded whole.
pub fn load_from<S: Source>(
    alloc: Global,
    catalog: &Catalog,
    table: usize,
    max_rows: u32,
    source: &mut S,
) -> Result<Table, LoadFault>
    requires { table < length catalog.now }
    ensures { LoadsFrom S.given S.failures S.ends S.whole (rules_at catalog.now table) max_rows source.old source.new result }
{
    load_in_pieces(alloc, catalog, table, max_rows, source, PIECE_SIZE)
}

/// [`load_from`] in pieces of this many bytes, where no line is longer. The size changes no answer.
///
/// # Errors
///
/// As of [`load_from`].
pub fn load_in_pieces<S: Source>(
    alloc: Global,
    catalog: &Catalog,
    table: usize,
    max_rows: u32,
    source: &mut S,
    size: usize,
) -> Result<Table, LoadFault>
    requires { table < length catalog.now }
    ensures { LoadsFrom S.given S.failures S.ends S.whole (rules_at catalog.now table) max_rows source.old source.new result }
{
    let Ok(rules) = rules_at(alloc, catalog, table) else {
        return Err(LoadFault::Memory);
    };
    let Ok(mut intake) = TableIntake::new(alloc, rules, max_rows) else {
        return Err(LoadFault::Memory);
    };
    take_all(alloc, source, size, &mut intake)?;
    match intake.into_table() {
        Ok(table) => Ok(table),
        Err(_) => Err(LoadFault::Memory),
    }
}
