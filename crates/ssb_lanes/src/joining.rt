// The table of parts: their columns put together, side by side.

ghost use Rattle.std.specs.Prelude.{◌≡◌, ◌<◌, [], List, IfOk, OnOk, length, map};
ghost use Rattle.ssb_lanes.specs.Assembly.{all_in};
ghost use Rattle.ssb_lanes.specs.Joining.{AreColumnsOf, AreJoined, FitBehind, Joins, behind_each};
ghost use Rattle.ssb_cells.specs.Tables.{Filled};
ghost use Rattle.ssb_records.specs.Records.{Fields};
ghost use Rattle.ssb_lanes.specs.declared.joining.Joining.TheVariants as now;
ghost use Rattle.ssb_load.specs.Rules.{columns_of};

use ssb_cells::{Column, ColumnParts, Table};
use ssb_terms::Rule;
use std::alloc::{AllocError, Global};
use std::thread::Threads;
use std::{mem, thread};

// A column without a part for each rule.
fn stacks_of(alloc: Global, rules: &[Rule]) -> Result<Vec<ColumnParts>, AllocError>
    ensures { IfOk result (λ stacks. stacks.items ≡ columns_of rules.now []) }
{
    let mut stacks: Vec<ColumnParts> = Vec::new(alloc);
    for k in 0..rules.len() {
        let rule = rules[k];
        stacks.push(ColumnParts::new(alloc, rule.kind))?;
    }
    Ok(stacks)
}

// Puts each column of a part behind those before it.
fn stack(stacks: &mut Vec<ColumnParts>, columns: Vec<Column>) -> Result<(), AllocError>
    requires { FitBehind stacks.old.items columns.items }
    ensures { OnOk result (stacks.new.items ≡ behind_each stacks.old.items columns.items) }
{
    let mut k = 0;
    for column in columns {
        let behind = &mut stacks[k];
        behind.push(column)?;
        k += 1;
    }
    Ok(())
}

// The columns of the parts, those of a part behind those before it.
fn stack_all(
    alloc: Global,
    rules: &[Rule],
    parts: Vec<Vec<Column>>,
) -> Result<Vec<ColumnParts>, AllocError>
    requires { (lists : List (List Fields)) × AreColumnsOf rules.now (map (λ v. v.items) parts.items) lists }
    ensures { IfOk result (λ stacks. (lists : List (List Fields)) → AreColumnsOf rules.now (map (λ v. v.items) parts.items) lists → stacks.items ≡ columns_of rules.now (all_in lists)) }
{
    let mut stacks = stacks_of(alloc, rules)?;
    for columns in parts {
        stack(&mut stacks, columns)?;
    }
    Ok(stacks)
}

// The parts of a column, then the column of them.
#[derive(Drop)]
enum Joining {
    Parts(ColumnParts),
    Column(Column),
    Refused,
}

// The parts of each column, to be put together.
fn joinings_of(alloc: Global, stacks: Vec<ColumnParts>) -> Result<Vec<Joining>, AllocError>
    ensures { IfOk result (λ joinings. joinings.items ≡ map now.Parts stacks.items) }
{
    stacks.into_iter().map(Joining::Parts).collect(alloc)
}

// Puts the parts of a column together.
fn join_one(joining: &mut Joining)
    ensures { Joins joining.old joining.new }
{
    *joining = match mem::replace(joining, Joining::Refused) {
        Joining::Parts(parts) => match parts.join() {
            Ok(column) => Joining::Column(column),
            Err(_) => Joining::Refused,
        },
        other => other,
    };
}

// Puts the parts of each column together, in at most so many threads, the caller's among them.
fn join_all<R: Threads + Sync>(rt: &R, joinings: &mut [Joining], threads: u32)
    requires { 0 < threads }
    ensures { (stacks : List Filled) → joinings.old ≡ map now.Parts stacks → AreJoined stacks joinings.new }
{
    thread::for_each_mut(
        rt,
        joinings,
        threads as usize,
        &|_: usize, joining: &mut Joining|
            ensures { Joins joining.entry.now joining.exit.now }
        { join_one(joining) },
    );
}

// The columns that parts became.
fn joined_columns(alloc: Global, joinings: Vec<Joining>) -> Result<Vec<Column>, AllocError>
    ensures { IfOk result (λ columns. (stacks : List Filled) → AreJoined stacks joinings.items → columns.items ≡ stacks) }
{
    let mut columns = Vec::new(alloc);
    for joining in joinings {
        match joining {
            Joining::Column(column) => columns.push(column)?,
            Joining::Parts(_) | Joining::Refused => return Err(AllocError),
        }
    }
    Ok(columns)
}

// Each column of its parts.
fn join_each<R: Threads + Sync>(
    rt: &R,
    alloc: Global,
    stacks: Vec<ColumnParts>,
    threads: u32,
) -> Result<Vec<Column>, AllocError>
    requires { 0 < threads }
    ensures { IfOk result (λ columns. columns.items ≡ stacks.items) }
{
    let mut joinings = joinings_of(alloc, stacks)?;
    join_all(rt, &mut joinings, threads);
    joined_columns(alloc, joinings)
}

// The table of parts in their order.
pub(crate) fn join_parts<R: Threads + Sync>(
    rt: &R,
    alloc: Global,
    rules: &[Rule],
    parts: Vec<Vec<Column>>,
    threads: u32,
) -> Result<Table, AllocError>
    requires some { 0 < length rules.now }
    requires threads { 0 < threads }
    requires parts { (lists : List (List Fields)) × AreColumnsOf rules.now (map (λ v. v.items) parts.items) lists }
    ensures { IfOk result (λ table. (lists : List (List Fields)) → AreColumnsOf rules.now (map (λ v. v.items) parts.items) lists → table ≡ columns_of rules.now (all_in lists)) }
{
    let stacks = stack_all(alloc, rules, parts)?;
    let columns = join_each(rt, alloc, stacks, threads)?;
    Ok(Table::new(columns))
}
