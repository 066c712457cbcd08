// A catalog on its way: its tables so far, and one more column.

ghost use Rattle.std.specs.Prelude.{◌≡◌, ◌<◌, ◌+◌, ◌^◌, true, None, Some, IfOk, IfErr, OnOk, vec_len};
ghost use Rattle.std.specs.List.{list_any, position};
ghost use Rattle.csv.specs.Records.{fields_of};
ghost use Rattle.ssb_catalog.specs.Catalog.{fault_behind, column_fault, columns_named, column_in, is_column_named, is_full_for, is_key_column, is_table_named, table_in};
ghost use Rattle.ssb_catalog.specs.Drafting.{IsDraft, Refuses, with_column};

use crate::catalog::{ColumnDef, TableDef};
use crate::entry::{Entry, read_entry};
use csv::ByteRecord;
use ssb_records::{CatalogFault, LoadFault};
use ssb_terms::{ColType, Name};
use std::alloc::{AllocError, Global};

const MAX_TABLES: usize = 16;

const MAX_COLUMNS: usize = 64;

// The place of the table of this name.
fn place_of(tables: &[TableDef], name: &Name) -> Option<usize>
    ensures { result ≡ position (is_table_named name.now) tables.now }
{
    tables.iter().position(|table| table.is_named(name))
}

fn has_column(columns: &[ColumnDef], name: &Name) -> bool
    ensures { result ≡ list_any (is_column_named name.now) columns.now }
{
    columns.iter().any(|column| column.is_named(name))
}

pub(crate) fn has_key(columns: &[ColumnDef]) -> bool
    ensures { result ≡ list_any is_key_column columns.now }
{
    columns.iter().any(|column| column.rule.role.is_key())
}

// The columns of the table of this name, none where there is no such table.
fn columns_at<'a>(tables: &'a [TableDef], place: Option<usize>, name: &Name) -> &'a [ColumnDef]
    requires { place ≡ position (is_table_named name.now) tables.now }
    ensures { result.now ≡ columns_named tables.now name.now }
{
    match place {
        Some(k) => tables[k].columns(),
        None => &[],
    }
}

fn is_full_for(tables: &[TableDef], place: Option<usize>, name: &Name) -> bool
    requires { place ≡ position (is_table_named name.now) tables.now }
    ensures { result ≡ is_full_for tables.now name.now }
{
    match place {
        Some(_) => columns_at(tables, place, name).len() >= MAX_COLUMNS,
        None => tables.len() >= MAX_TABLES,
    }
}

// What is wrong with one more column, behind these tables.
fn column_fault(tables: &[TableDef], place: Option<usize>, entry: &Entry) -> Option<CatalogFault>
    requires { place ≡ position (is_table_named entry.now.table) tables.now }
    ensures { result ≡ column_fault tables.now entry.now.table entry.now.column }
{
    let columns = columns_at(tables, place, &entry.table);
    if has_column(columns, &entry.column.name) {
        return Some(CatalogFault::ColumnTwice);
    }
    let is_key = entry.column.rule.role.is_key();
    if is_key && has_key(columns) {
        return Some(CatalogFault::KeyTwice);
    }
    if is_key && entry.column.rule.kind == ColType::Text {
        return Some(CatalogFault::KeyNotInt);
    }
    if is_full_for(tables, place, &entry.table) {
        return Some(CatalogFault::TooMany);
    }
    None
}

// Puts a column into its table, at this place or a new one.
fn put_entry(
    alloc: Global,
    tables: &mut Vec<TableDef>,
    place: Option<usize>,
    entry: Entry,
) -> Result<(), AllocError>
    requires { place ≡ position (is_table_named entry.table) tables.old.items }
    ensures { OnOk result (tables.new.items ≡ with_column tables.old.items entry.table entry.column) }
{
    match place {
        Some(k) => {
            let table = &mut tables[k];
            table.push(entry.column)?;
        }
        None => {
            let mut columns = Vec::new(alloc);
            columns.push(entry.column)?;
            tables.push(TableDef::new(entry.table, columns))?;
        }
    }
    Ok(())
}

// Takes the record of this number, or says why not.
pub(crate) fn accept(
    alloc: Global,
    tables: &mut Vec<TableDef>,
    number: u64,
    row: &ByteRecord,
) -> Result<(), LoadFault>
    ensures good { OnOk result (fault_behind tables.old.items (fields_of row.now) ≡ None) }
    ensures put { OnOk result (tables.new.items ≡ with_column tables.old.items (table_in (fields_of row.now)) (column_in (fields_of row.now))) }
    ensures refused { IfErr result (Refuses (fault_behind tables.old.items (fields_of row.now)) number) }
{
    let entry = read_entry(alloc, row, number)?;
    let place = place_of(tables.as_slice(), &entry.table);
    if let Some(fault) = column_fault(tables.as_slice(), place, &entry) {
        return Err(LoadFault::BadCatalog(fault, number));
    }
    match put_entry(alloc, tables, place, entry) {
        Ok(()) => Ok(()),
        Err(_) => Err(LoadFault::Memory),
    }
}
