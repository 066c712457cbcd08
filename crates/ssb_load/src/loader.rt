// A table on its way, record by record.

ghost use Rattle.std.specs.Prelude.{◌≡◌, ◌+◌, ◌<◌, ◌^◌, [], true, false, not, IfOk, IfErr, OnOk, None, vec_len};
ghost use Rattle.std.specs.List.{list_all};
ghost use Rattle.std.specs.Str.{is_utf8};
ghost use Rattle.csv.specs.Records.{fields_of};
ghost use Rattle.ssb_cells.specs.Tables.{AreLong, rows_in};
ghost use Rattle.ssb_terms.specs.Roles.{key_place};
ghost use Rattle.ssb_load.specs.Rules.{any_from, key_of, columns_of};
ghost use Rattle.ssb_load.specs.Tables.{repeats};
ghost use Rattle.ssb_load.specs.Loader.{seen_in, AddsKey, AreSized, IsFaultBy, fails_some, fault_by, with_record};

use crate::judge::{number_in_field, refuse};
use crate::value::push_field;
use csv::ByteRecord;
use ssb_cells::{Column, ColumnBuilder, Table};
use ssb_records::{LoadFault, field_text, is_all_text, is_wide};
use ssb_terms::Rule;
use std::alloc::{AllocError, Global};
use std::collections::HashSet;

pub(crate) struct Loader {
    seen: HashSet<i64>,
    columns: Vec<ColumnBuilder>,
}

// Written out, so that what lets go of one need not say how its parts are let go.
impl Drop for Loader {
    fn drop(self) {
        let Loader { seen, columns } = self;
        drop(seen);
        drop(columns);
    }
}

// Puts each field of a record into its column, or stops at one that fails a test.
#[inline(never)]
fn push_fields(
    columns: &mut Vec<ColumnBuilder>,
    rules: &[Rule],
    count: u64,
    row: &ByteRecord,
) -> Result<bool, AllocError>
    requires text { list_all is_utf8 (fields_of row.now) ≡ true }
    requires sized { AreSized count rules.now columns.old.items }
    requires room { count < 4294967295 }
    ensures fails { IfOk result (λ passed. any_from fails_some 0 rules.now (fields_of row.now) ≡ not passed) }
    ensures pushed { IfOk result (λ passed. passed ≡ true → columns.new.items ≡ with_record rules.now columns.old.items (fields_of row.now)) }
{
    for k in 0..rules.len() {
        let column = &mut columns[k];
        if !push_field(column, rules[k], field_text(row, k))? {
            return Ok(false);
        }
    }
    Ok(true)
}

// Puts a key among those that were seen, if there is one and it is new.
fn add_key(seen: &mut HashSet<i64>, key: Option<i64>) -> Result<bool, AllocError>
    ensures fresh { IfOk result (λ fresh. repeats key (seen_in seen.old.keys) ≡ not fresh) }
    ensures added { IfOk result (λ fresh. fresh ≡ true → AddsKey key seen.old.keys seen.new.keys) }
    ensures kept { IfOk result (λ fresh. fresh ≡ false → seen.new ≡ seen.old) }
{
    let Some(key) = key else {
        return Ok(true);
    };
    if seen.contains(&key) {
        return Ok(false);
    }
    seen.insert(key)?;
    Ok(true)
}

// The columns that were under construction.
fn built(builders: Vec<ColumnBuilder>) -> Result<Vec<Column>, AllocError>
    ensures { IfOk result (λ columns. columns.items ≡ builders.items) }
{
    let mut columns = Vec::new(*builders.allocator());
    for builder in builders {
        columns.push(builder.into_column()?)?;
    }
    Ok(columns)
}

impl Loader {
    pub(crate) fn new(alloc: Global, rules: &[Rule]) -> Result<Loader, AllocError>
        ensures seen { IfOk result (λ l. l.seen.keys ≡ []) }
        ensures columns { IfOk result (λ l. l.columns.items ≡ columns_of rules.now []) }
    {
        let mut columns: Vec<ColumnBuilder> = Vec::new(alloc);
        for k in 0..rules.len() {
            let rule = rules[k];
            columns.push(ColumnBuilder::new(alloc, rule.kind))?;
        }
        Ok(Loader {
            seen: HashSet::new(alloc),
            columns,
        })
    }

    pub(crate) fn into_table(self) -> Result<Table, AllocError>
        requires some { 0 < vec_len self.columns }
        requires long { AreLong (rows_in self.columns.items) self.columns.items }
        ensures { IfOk result (λ table. table ≡ self.columns.items) }
    {
        Ok(Table::new(self.into_columns()?))
    }

    pub(crate) fn into_columns(self) -> Result<Vec<Column>, AllocError>
        ensures { IfOk result (λ columns. columns.items ≡ self.columns.items) }
    {
        let Loader { seen, columns } = self;
        drop(seen);
        built(columns)
    }

    // Takes one more record after so many good ones, or says why not.
    pub(crate) fn accept(
        &mut self,
        rules: &[Rule],
        key: Option<usize>,
        accepted: u64,
        max_rows: u32,
        row: &ByteRecord,
    ) -> Result<(), LoadFault>
        requires sized { AreSized accepted rules.now self.old.columns.items }
        requires key { key ≡ key_place rules.now }
        requires room { accepted + 1 < 2 ^ 64 }
        ensures room { OnOk result (accepted < max_rows) }
        ensures taken { OnOk result (fault_by rules.now max_rows accepted (seen_in self.old.seen.keys) (fields_of row.now) ≡ None) }
        ensures columns { OnOk result (self.new.columns.items ≡ with_record rules.now self.old.columns.items (fields_of row.now)) }
        ensures seen { OnOk result (AddsKey (key_of rules.now (fields_of row.now)) self.old.seen.keys self.new.seen.keys) }
        ensures refused { IfErr result (λ e. IsFaultBy rules.now max_rows accepted self.old.seen.keys (fields_of row.now) e) }
    {
        if accepted >= u64::from(max_rows) || !is_wide(row, rules.len()) || !is_all_text(row) {
            return Err(refuse(rules, &self.seen, accepted, max_rows, row));
        }
        match push_fields(&mut self.columns, rules, accepted, row) {
            Ok(true) => {}
            Ok(false) => return Err(refuse(rules, &self.seen, accepted, max_rows, row)),
            Err(_) => return Err(LoadFault::Memory),
        }
        match add_key(&mut self.seen, number_in_field(key, row)) {
            Ok(true) => Ok(()),
            Ok(false) => Err(refuse(rules, &self.seen, accepted, max_rows, row)),
            Err(_) => Err(LoadFault::Memory),
        }
    }
}
