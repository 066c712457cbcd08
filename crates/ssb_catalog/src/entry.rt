// One record of a catalog: `table|column|type|role`.

ghost use Rattle.std.specs.Prelude.{◌≡◌, None, IfOk, IfErr, OnOk};
ghost use Rattle.csv.specs.Records.{fields_of};
ghost use Rattle.ssb_catalog.specs.Catalog.{is_short_name, kind_named, role_named, table_in, column_in, spelling_fault};
ghost use Rattle.ssb_catalog.specs.Drafting.{Refuses};

use crate::catalog::ColumnDef;
use csv::ByteRecord;
use ssb_records::{CatalogFault, LoadFault, field_bytes, is_wide};
use ssb_terms::{ColType, Name, Role, Rule, is_name};
use std::alloc::Global;

const MAX_NAME: usize = 128;

// A column, and the name of its table.
#[derive(Drop)]
pub(crate) struct Entry {
    pub(crate) table: Name,
    pub(crate) column: ColumnDef,
}

fn is_short_name(word: &[u8]) -> bool
    ensures { result ≡ is_short_name word.now }
{
    is_name(word) && word.len() <= MAX_NAME
}

fn kind_named(word: &[u8]) -> Option<ColType>
    ensures { result ≡ kind_named word.now }
{
    match word {
        b"int" => Some(ColType::Int),
        b"text" => Some(ColType::Text),
        _ => None,
    }
}

fn role_named(word: &[u8]) -> Option<Role>
    ensures { result ≡ role_named word.now }
{
    match word {
        b"key" => Some(Role::Key),
        b"need" => Some(Role::Need),
        b"null" => Some(Role::Nullable),
        _ => None,
    }
}

// The column that the record of this number spells.
#[tactic(auto, using(crate::proofs::EntryFacts::short_is_name))]
pub(crate) fn read_entry(alloc: Global, row: &ByteRecord, number: u64) -> Result<Entry, LoadFault>
    ensures good { OnOk result (spelling_fault (fields_of row.now) ≡ None) }
    ensures table { IfOk result (λ e. e.table ≡ table_in (fields_of row.now)) }
    ensures column { IfOk result (λ e. e.column ≡ column_in (fields_of row.now)) }
    ensures refused { IfErr result (Refuses (spelling_fault (fields_of row.now)) number) }
{
    if !is_wide(row, 4) {
        return Err(LoadFault::BadCatalog(CatalogFault::FieldCount, number));
    }
    let table_word = field_bytes(row, 0);
    let column_word = field_bytes(row, 1);
    if !(is_short_name(table_word) && is_short_name(column_word)) {
        return Err(LoadFault::BadCatalog(CatalogFault::BadName, number));
    }
    let Some(kind) = kind_named(field_bytes(row, 2)) else {
        return Err(LoadFault::BadCatalog(CatalogFault::BadType, number));
    };
    let Some(role) = role_named(field_bytes(row, 3)) else {
        return Err(LoadFault::BadCatalog(CatalogFault::BadRole, number));
    };
    let Ok(table) = Name::new(alloc, table_word) else {
        return Err(LoadFault::Memory);
    };
    let Ok(name) = Name::new(alloc, column_word) else {
        return Err(LoadFault::Memory);
    };
    Ok(Entry {
        table,
        column: ColumnDef {
            name,
            rule: Rule { kind, role },
        },
    })
}
