// The names of columns.

ghost use Rattle.std.specs.Prelude.{◌≡◌, ◌++◌, OnOk, string_bytes};
ghost use Rattle.std.specs.Option.{option_copied};
ghost use Rattle.ssb_spelling.specs.Titles as spec;

use ssb_catalog::{Catalog, ColumnDef, TableDef};
use ssb_query::{BoundColumn, QueryParts};
use std::alloc::AllocError;

fn name_or_none(column: Option<&ColumnDef>) -> &str
    ensures { result.now ≡ spec.name_or_none (option_copied column.entry) }
{
    match column {
        Some(column) => column.name.as_str(),
        None => "",
    }
}

fn name_in_table(table: Option<&TableDef>, place: usize) -> &str
    ensures { result.now ≡ spec.name_in_table (option_copied table.entry) place }
{
    match table {
        Some(table) => name_or_none(table.columns().get(place)),
        None => "",
    }
}

// The name of a column of a table of FROM, without its table.
fn column_name<'a>(catalog: &'a [TableDef], from: &[usize], column: BoundColumn) -> &'a str
    ensures { result.now ≡ spec.column_name catalog.now from.now column }
{
    match from.get(column.table) {
        Some(number) => name_in_table(catalog.get(*number), column.column),
        None => "",
    }
}

/// Puts the name of a column behind a text.
///
/// # Errors
///
/// Only where a growth was refused.
pub fn put_name(
    title: &mut String,
    catalog: &Catalog,
    query: &QueryParts,
    column: BoundColumn,
) -> Result<(), AllocError>
    ensures { OnOk result (string_bytes title.new ≡ string_bytes title.old ++ spec.column_name catalog.now query.now.from column) }
{
    title.push_str(column_name(catalog.tables(), query.from.as_slice(), column))
}
