// What is wrong with a record.

ghost use Rattle.std.specs.Prelude.{◌≡◌, ◌≢◌, ◌+◌, ◌^◌, true, None, Some, ◌<◌};
ghost use Rattle.std.specs.List.{list_all};
ghost use Rattle.std.specs.Str.{is_utf8};
ghost use Rattle.csv.specs.Records.{fields_of};
ghost use Rattle.ssb_load.specs.Loader.{IsFaultBy, fails, fault_by, seen_in};
ghost use Rattle.ssb_load.specs.Rules.{any_field, number_at};
ghost use Rattle.ssb_load.specs.Tables.{repeats};
ghost use Rattle.ssb_terms.specs.Roles.{key_place};

use crate::number::number;
use crate::value::{Test, fails_test};
use csv::ByteRecord;
use ssb_records::{LoadFault, RecordFault, field_text, is_all_text, is_wide};
use ssb_terms::Rule;
use std::collections::HashSet;

// Whether some field fails a test of its rule.
fn any_field_fails(test: Test, rules: &[Rule], row: &ByteRecord) -> bool
    requires { list_all is_utf8 (fields_of row.now) ≡ true }
    ensures { result ≡ any_field (fails test) rules.now (fields_of row.now) }
{
    for k in 0..rules.len() {
        let rule = rules[k];
        if fails_test(test, rule, field_text(row, k)) {
            return true;
        }
    }
    false
}

/// The place of the key under these rules, from 0, if one is a key's.
pub fn key_place(rules: &[Rule]) -> Option<usize>
    ensures { result ≡ key_place rules.now }
{
    for k in 0..rules.len() {
        let rule = rules[k];
        if rule.role.is_key() {
            return Some(k);
        }
    }
    None
}

// The number in a record's field.
pub(crate) fn number_in_field(place: Option<usize>, row: &ByteRecord) -> Option<i64>
    requires { list_all is_utf8 (fields_of row.now) ≡ true }
    ensures { result ≡ number_at place (fields_of row.now) }
{
    match place {
        Some(k) => number(field_text(row, k)),
        None => None,
    }
}

fn is_repeat(seen: &HashSet<i64>, key: Option<i64>) -> bool
    ensures { result ≡ repeats key (seen_in seen.now.keys) }
{
    match key {
        Some(key) => seen.contains(&key),
        None => false,
    }
}

// The fault of a record that comes after so many others, with these keys.
fn judge(
    rules: &[Rule],
    seen: &HashSet<i64>,
    accepted: u64,
    max_rows: u32,
    row: &ByteRecord,
) -> Option<RecordFault>
    ensures { result ≡ fault_by rules.now max_rows accepted (seen_in seen.now.keys) (fields_of row.now) }
{
    if !is_wide(row, rules.len()) {
        return Some(RecordFault::FieldCount);
    }
    if !is_all_text(row) {
        return Some(RecordFault::BadUtf8);
    }
    if any_field_fails(Test::Number, rules, row) {
        return Some(RecordFault::BadNumber);
    }
    if any_field_fails(Test::Value, rules, row) {
        return Some(RecordFault::NullNotAllowed);
    }
    let key = number_in_field(key_place(rules), row);
    if is_repeat(seen, key) {
        return Some(RecordFault::DuplicateKey);
    }
    if accepted >= u64::from(max_rows) {
        return Some(RecordFault::TooManyRows);
    }
    if any_field_fails(Test::Length, rules, row) {
        return Some(RecordFault::TextTooLong);
    }
    None
}

// The fault of a faulty record, with its number.
#[cold]
#[inline(never)]
pub(crate) fn refuse(
    rules: &[Rule],
    seen: &HashSet<i64>,
    accepted: u64,
    max_rows: u32,
    row: &ByteRecord,
) -> LoadFault
    requires faulty { fault_by rules.now max_rows accepted (seen_in seen.now.keys) (fields_of row.now) ≢ None }
    requires room { accepted + 1 < 2 ^ 64 }
    ensures { IsFaultBy rules.now max_rows accepted seen.now.keys (fields_of row.now) result }
{
    match judge(rules, seen, accepted, max_rows, row) {
        Some(fault) => LoadFault::Record(fault, accepted + 1),
        None => unreachable!(),
    }
}
