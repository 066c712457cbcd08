// The order of rows.

ghost use Rattle.std.specs.Prelude.{◌≡◌, List, map};
ghost use Rattle.std.specs.Cmp.Lexicographic.{slice_cmp};
ghost use Rattle.ssb_cells.specs.Order.{cell_cmp};
ghost use Rattle.ssb_cells.specs.Values.{cell_of};
ghost use Rattle.ssb_rows.specs.Kept.{AreWithin, keyed_rows};
ghost use Rattle.ssb_rows.specs.Leads.{key_cmp, lead, lead_by, lead_of, with_lead};
ghost use Rattle.ssb_rows.specs.Order.{Row, IsOrdered, at, by_key, row_cmp};
ghost use Rattle.ssb_query.specs.declared.query.BoundOrder.{BoundOrder as AnyOrder};

use crate::cells::Cells;
use crate::row::AnswerRow;
use ssb_cells::{Value, sort_cmp};
use ssb_query::BoundOrder;
use std::cmp::Ordering;

/// A row, and a number that orders it where it differs from another's.
#[derive(Clone, Copy)]
pub(crate) struct SortKey {
    /// Where it is less than that of another row, this row comes first.
    pub(crate) lead: u64,
    /// Where the values of the row begin.
    pub(crate) from: usize,
}

// The value at a place, null where there is none.
fn value_at<'a>(row: &AnswerRow<'a>, place: usize) -> Value<'a>
    ensures { cell_of result ≡ at row.now place }
{
    match row.value(place) {
        Some(value) => value,
        None => Value::Null,
    }
}

// The order of two rows by all columns, from left to right.
fn compare_all(a: AnswerRow<'_>, b: AnswerRow<'_>) -> Ordering
    ensures { result ≡ slice_cmp cell_cmp a.entry b.entry }
{
    let mut left = a;
    let mut right = b;
    loop {
        let Some((first, lefts)) = left.split_first() else {
            return if right.is_empty() {
                Ordering::Equal
            } else {
                Ordering::Less
            };
        };
        let Some((second, rights)) = right.split_first() else {
            return Ordering::Greater;
        };
        match sort_cmp(&first, &second) {
            Ordering::Equal => {
                left = lefts;
                right = rights;
            }
            other => return other,
        }
    }
}

fn compare_by(key: BoundOrder, a: &AnswerRow<'_>, b: &AnswerRow<'_>) -> Ordering
    ensures { result ≡ by_key key a.now b.now }
{
    let left = value_at(a, key.item);
    let right = value_at(b, key.item);
    if key.descending {
        sort_cmp(&right, &left)
    } else {
        sort_cmp(&left, &right)
    }
}

// The order of two rows by the keys, and then by all columns.
fn compare_rows(by: &[BoundOrder], a: AnswerRow<'_>, b: AnswerRow<'_>) -> Ordering
    ensures { result ≡ row_cmp by.now a.entry b.entry }
{
    for key in by {
        match compare_by(*key, &a, &b) {
            Ordering::Equal => {}
            other => return other,
        }
    }
    compare_all(a, b)
}

// The number of a value.
fn lead_of(value: Value<'_>) -> u64
    ensures { result ≡ lead_of (cell_of value.entry) }
{
    match value {
        Value::Null => 0,
        Value::Int(number) => number.abs_diff(i64::MIN),
        Value::Text(_) => u64::MAX,
    }
}

// The same, the other way round where rows descend.
fn lead_by(descending: bool, value: Value<'_>) -> u64
    ensures { result ≡ lead_by descending (cell_of value.entry) }
{
    if descending {
        u64::MAX - lead_of(value)
    } else {
        lead_of(value)
    }
}

// The number of a row.
fn lead(by: &[BoundOrder], row: &AnswerRow<'_>) -> u64
    ensures { result ≡ lead by.now row.now }
{
    match by.first() {
        Some(key) => lead_by(key.descending, value_at(row, key.item)),
        None => lead_of(value_at(row, 0)),
    }
}

// Gives each row its number.
fn set_leads(by: &[BoundOrder], cells: &Cells, width: usize, keys: &mut [SortKey])
    ensures { keys.new ≡ map (with_lead by.now cells.now width) keys.old }
{
    for at in 0..keys.len() {
        let from = keys[at].from;
        keys[at].lead = lead(by, &AnswerRow::new(cells, from, width));
    }
}

// The order of two rows: by their numbers, and where these are equal by all that they have.
#[inline(always)]
fn compare_keys(by: &[BoundOrder], cells: &Cells, width: usize, a: SortKey, b: SortKey) -> Ordering
    ensures { result ≡ key_cmp by.now cells.now width a b }
{
    match a.lead.cmp(&b.lead) {
        Ordering::Equal => compare_rows(
            by,
            AnswerRow::new(cells, a.from, width),
            AnswerRow::new(cells, b.from, width),
        ),
        other => other,
    }
}

// Puts rows in order. It takes no memory.
pub(crate) fn sort_rows(by: &[BoundOrder], cells: &Cells, width: usize, keys: &mut Vec<SortKey>)
    ensures order { IsOrdered by.now (keyed_rows cells.now width keys.old.items) (keyed_rows cells.now width keys.new.items) }
    ensures within { AreWithin cells.now width keys.old.items → AreWithin cells.now width keys.new.items }
{
    set_leads(by, cells, width, keys.as_mut_slice());
    keys.sort_unstable_by(|a, b| compare_keys(by, cells, width, *a, *b));
}

/// A law: a bag of rows has one order.
pub fn one_order()
    ensures { (keys : List AnyOrder) (bag one other : List Row) → IsOrdered keys bag one → IsOrdered keys bag other → one ≡ other }
{}
