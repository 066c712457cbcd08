// From groups to the rows of an answer.

ghost use Rattle.std.specs.Prelude.{◌≡◌, ◌<◌, ◌++◌, ◌∷◌, [], IfOk, IfErr, OnOk, List, Some, false, length, map, slice_get};
ghost use Rattle.std.specs.List.{list_any};
ghost use Rattle.ssb_groups.specs.Rows.{SeenRow};
ghost use Rattle.ssb_groups.specs.Stands.{Stands};
ghost use Rattle.ssb_groups.specs.Totals.{total_cell};
ghost use Rattle.ssb_rows.specs.Entries as spec;
ghost use Rattle.ssb_rows.specs.Result.{Answers, AreKeyed, is_beyond};

use crate::answer::Answer;
use crate::cells::Cells;
use crate::fault::AnswerFault;
use crate::having::is_kept;
use crate::item::item_value;
use crate::keyed::{KeyedRows, in_order, no_rows};
use crate::order::{SortKey, sort_rows};
use ssb_groups::{Group, Groups, Total, over_no_row};
use ssb_query::{Query, QueryParts};
use std::alloc::{AllocError, Global};

// Whether the value of an aggregate leaves 64 bits.
fn is_beyond(total: &Total<'_>) -> bool
    ensures { result ≡ is_beyond (total_cell total.now) }
{
    match total {
        Total::Number(number) => i64::try_from(*number).is_err(),
        Total::Null | Total::Text(_) => false,
    }
}

// Whether some aggregate of a group leaves 64 bits.
fn has_beyond(totals: &[Total<'_>]) -> bool
    ensures { result ≡ list_any is_beyond (map total_cell totals.now) }
{
    for total in totals {
        if is_beyond(total) {
            return true;
        }
    }
    false
}

// Puts the values of the row of a group behind others.
fn push_values(parts: &QueryParts, group: &Group<'_>, cells: &mut Cells) -> Result<(), AllocError>
    requires { spec.entry_beyond (spec.seen group.now) ≡ false }
    ensures { OnOk result (cells.new ≡ cells.old ++ spec.entry_row parts.now (spec.seen group.now)) }
{
    for item in parts.items.as_slice() {
        cells.push(item_value(group, item.origin))?;
    }
    Ok(())
}

// Adds the row of a group.
fn push_row(parts: &QueryParts, group: &Group<'_>, found: &mut KeyedRows) -> Result<(), AllocError>
    requires beyond { spec.entry_beyond (spec.seen group.now) ≡ false }
    requires within { spec.AreFoundWithin parts.now found.old }
    ensures row { OnOk result (spec.found_rows parts.now found.new ≡ spec.found_rows parts.now found.old ++ spec.entry_row parts.now (spec.seen group.now) ∷ []) }
    ensures within { OnOk result (spec.AreFoundWithin parts.now found.new) }
{
    let from = found.cells.len();
    push_values(parts, group, &mut found.cells)?;
    found.keys.push(SortKey { lead: 0, from })?;
    Ok(())
}

// Adds the row of a group, if HAVING keeps it. An aggregate that leaves 64 bits is told before HAVING is
// asked, and so also of a group that it would drop.
fn add_row(parts: &QueryParts, group: &Group<'_>, found: &mut KeyedRows) -> Result<(), AnswerFault>
    requires { spec.AreFoundWithin parts.now found.old }
    ensures ok { OnOk result (spec.AddsRow parts.now (Some (spec.seen group.now)) (spec.found_rows parts.now found.old) (spec.found_rows parts.now found.new)) }
    ensures within { OnOk result (spec.AreFoundWithin parts.now found.new) }
    ensures err { IfErr result (spec.IsFaultAt (Some (spec.seen group.now))) }
{
    if has_beyond(group.totals.as_slice()) {
        return Err(AnswerFault::SumOutOfRange);
    }
    if !is_kept(parts, group) {
        return Ok(());
    }
    match push_row(parts, group, found) {
        Ok(()) => Ok(()),
        Err(_) => Err(AnswerFault::Memory),
    }
}

// Adds the row of the group with this number.
fn add_row_at<'a>(
    parts: &QueryParts,
    groups: &'a Groups,
    at: usize,
    group: &mut Group<'a>,
    found: &mut KeyedRows,
) -> Result<(), AnswerFault>
    requires group { at < length groups.now.entries }
    requires within { spec.AreFoundWithin parts.now found.old }
    ensures ok { OnOk result (spec.AddsRow parts.now (slice_get groups.now.entries at) (spec.found_rows parts.now found.old) (spec.found_rows parts.now found.new)) }
    ensures within { OnOk result (spec.AreFoundWithin parts.now found.new) }
    ensures err { IfErr result (spec.IsFaultAt (slice_get groups.now.entries at)) }
{
    match groups.read_group(at, group) {
        Ok(()) => add_row(parts, group, found),
        Err(_) => Err(AnswerFault::Memory),
    }
}

// The rows of the groups that HAVING keeps, in no order.
fn group_rows(alloc: Global, parts: &QueryParts, groups: &Groups) -> Result<KeyedRows, AnswerFault>
    ensures ok { IfOk result (λ found. spec.AreRowsOf parts.now groups.now.entries (spec.found_rows parts.now found)) }
    ensures within { IfOk result (λ found. spec.AreFoundWithin parts.now found) }
    ensures err { IfErr result (spec.IsFaultOf groups.now.entries) }
{
    let mut found = no_rows(alloc);
    let mut group = Group::new(alloc);
    for at in 0..groups.group_count() {
        match add_row_at(parts, groups, at, &mut group, &mut found) {
            Ok(()) => {}
            Err(fault) => return Err(fault),
        }
    }
    Ok(found)
}

// The whole as one group over no row.
fn whole<'a>(alloc: Global, parts: &QueryParts) -> Result<Group<'a>, AllocError>
    ensures { IfOk result (λ g. spec.seen g ≡ spec.whole_entry parts.now) }
{
    Ok(Group {
        key: Vec::new(alloc),
        totals: over_no_row(alloc, parts.aggregates.as_slice())?,
    })
}

// The row of a query without GROUP BY over no row, if HAVING keeps it.
fn whole_row(alloc: Global, parts: &QueryParts) -> Result<KeyedRows, AnswerFault>
    ensures ok { IfOk result (λ found. spec.AreRowsOf parts.now (spec.whole_entry parts.now ∷ []) (spec.found_rows parts.now found)) }
    ensures within { IfOk result (λ found. spec.AreFoundWithin parts.now found) }
    ensures err { IfErr result (spec.IsFaultOf (spec.whole_entry parts.now ∷ [])) }
{
    let Ok(group) = whole(alloc, parts) else {
        return Err(AnswerFault::Memory);
    };
    let mut found = no_rows(alloc);
    match add_row(parts, &group, &mut found) {
        Ok(()) => Ok(found),
        Err(fault) => Err(fault),
    }
}

// The rows of the groups that HAVING keeps, in no order; without GROUP BY the whole is one group, also
// where it is empty.
fn all_rows(alloc: Global, parts: &QueryParts, groups: &Groups) -> Result<KeyedRows, AnswerFault>
    ensures ok { IfOk result (λ found. spec.AreRowsOf parts.now (spec.all_entries parts.now groups.now.entries) (spec.found_rows parts.now found)) }
    ensures within { IfOk result (λ found. spec.AreFoundWithin parts.now found) }
    ensures err { IfErr result (spec.IsFaultOf (spec.all_entries parts.now groups.now.entries)) }
{
    if parts.groups.is_empty() && groups.group_count() == 0 {
        return whole_row(alloc, parts);
    }
    group_rows(alloc, parts, groups)
}

// The groups go before rows are put in order, so that their memory can serve for that.
fn answer_of(alloc: Global, parts: &QueryParts, groups: Groups) -> Result<Answer, AnswerFault>
    requires { groups.job.query ≡ parts.now }
    ensures { (R : List SeenRow) → Stands groups R → AreKeyed parts.now R → Answers parts.now R result }
{
    if let Some(fact) = groups.overflow() {
        return Err(AnswerFault::RowOverflow(fact));
    }
    let mut found = match all_rows(alloc, parts, &groups) {
        Ok(found) => found,
        Err(fault) => return Err(fault),
    };
    drop(groups);
    let width = parts.items.len();
    sort_rows(
        parts.orders.as_slice(),
        &found.cells,
        width,
        &mut found.keys,
    );
    match in_order(alloc, found, width) {
        Ok(sorted) => Ok(Answer::new(sorted, width)),
        Err(_) => Err(AnswerFault::Memory),
    }
}

/// The rows of a query's answer in order, of the groups over the rows that it keeps. The query is that
/// of the groups' job. Only a group of which HAVING is True has a row.
///
/// # Errors
///
/// `RowOverflow` with the least fact row, from 1, at which an aggregate's argument leaves 64 bits;
/// else `SumOutOfRange` where the exact sum of a group leaves them, also of one without a row; `Memory`
/// where a growth was refused.
pub fn rows(alloc: Global, groups: Groups, query: &Query) -> Result<Answer, AnswerFault>
    requires { groups.job.query ≡ query.now }
    ensures { (R : List SeenRow) → Stands groups R → AreKeyed query.now R → Answers query.now R result }
{
    answer_of(alloc, query.parts(), groups)
}
