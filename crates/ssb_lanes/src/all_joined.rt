// Loading the tables of a catalog, each of several sources, at the same time.
//
// `load_all_with` loads the fact table in several threads, and one of them loads the others, one after the
// other, once it finds no more of the fact table to read. A thread that can't be made is no fault: what it
// was to load is loaded by the thread that asked for it. In one thread all tables are loaded by `load_all`.

ghost use Rattle.std.specs.Prelude.{◌≡◌, ◌≤◌, ◌<◌, ◌+◌, ◌∷◌, [], IfErr, IfOk, IfSome, IsSome, List, OnOk, Some, length, map};
ghost use Rattle.std.specs.Thread.{IsSend, IsSync};
ghost use Rattle.ssb_catalog.specs.Catalog.{IsCatalog};
ghost use Rattle.ssb_load.specs.Files.{AreLawful, Bytes, GrewEach, LoadsAll, RoseEach, given_each};
ghost use Rattle.ssb_lanes.specs.JoinedSource.{LoadsJoined, joined_source};
ghost use Rattle.ssb_load.specs.Loading.{rules_at};
ghost use Rattle.ssb_load.specs.Runs.{ArePutTogether, FailedRead, RanFrom};

use crate::joined::Joined;
use crate::options::ReadOptions;
use crate::read_joined::{CatalogTable, load_beside, load_with};
use ssb_catalog::Catalog;
use ssb_cells::Table;
use ssb_load::{FileFault, load_all, load_tables};
use ssb_records::{LoadFault, Source};
use std::alloc::Global;
use std::sync::Wait;
use std::thread::{Threads, join_mut};

// Which catalog's tables are loaded, with which allocator, and how their sources are read. It stands behind
// one reference, since the borrow checker does not cover two closures that share a value.
#[derive(Clone, Copy)]
struct Loading<'a> {
    alloc: Global,
    catalog: &'a Catalog,
    options: ReadOptions,
    ghost some: { 0 < options.threads },
}

// The tables before the fact table and those behind it, each list with its own answer.
type Others = (Result<Vec<Table>, FileFault>, Result<Vec<Table>, FileFault>);

// The tables of one part of a catalog before those of the next, which begins with this number, or the
// first fault of both.
fn put_together(
    number: u32,
    front: Result<Vec<Table>, FileFault>,
    back: Result<Vec<Table>, FileFault>,
) -> Result<Vec<Table>, FileFault>
    ensures { ArePutTogether front back result }
{
    let mut tables = front?;
    let mut later = back?;
    match tables.append(&mut later) {
        Ok(()) => Ok(tables),
        Err(_) => Err(FileFault {
            table: number,
            fault: LoadFault::Memory,
        }),
    }
}

// The table of this number, with all its rows.
fn whole_table(catalog: &Catalog, number: u32) -> CatalogTable<'_>
    ensures catalog { result.catalog.now ≡ catalog.now }
    ensures number { result.number ≡ number }
    ensures rows { result.max_rows ≡ 4294967295 }
{
    CatalogTable {
        catalog,
        number: number as usize,
        max_rows: u32::MAX,
    }
}

// The table of this number, by the caller's thread and others, and in one thread more what is beside.
fn load_apart<S: Source + Send + Drop, R: Threads + Wait + Sync, F: FnMut() + Send>(
    rt: &R,
    loading: &Loading<'_>,
    number: u32,
    source: &mut Joined<S>,
    beside: &mut F,
) -> Result<Table, LoadFault>
    requires number { number < length loading.now.catalog.now }
    requires beside { F.pre beside.old }
    ensures loads { LoadsJoined (rules_at loading.now.catalog.now number) 4294967295 source.old source.new result }
    ensures beside { F.step beside.old tt beside.new }
{
    let Loading {
        alloc,
        catalog,
        options,
    } = *loading;
    let table = whole_table(catalog, number);
    let mut own = || -> Result<Table, LoadFault>
        requires { IsSync R.row × IsSend S.row × (table.number < length table.catalog.now) × (0 < options.threads) }
        ensures { LoadsJoined (rules_at table.entry.catalog.now table.entry.number) table.entry.max_rows source.entry.now source.exit.now result }
    { load_with(rt, alloc, table, source, options) };
    join_mut(rt, beside, &mut own).1
}

// The table of this number, and beside it what is beside: by a thread that reads some of the sources too,
// where there are several.
fn load_table<S: Source + Send + Drop, R: Threads + Wait + Sync, F: FnMut() + Send>(
    rt: &R,
    loading: &Loading<'_>,
    number: u32,
    source: &mut Joined<S>,
    beside: &mut F,
) -> Result<Table, LoadFault>
    requires number { number < length loading.now.catalog.now }
    requires beside { F.pre beside.old }
    ensures loads { LoadsJoined (rules_at loading.now.catalog.now number) 4294967295 source.old source.new result }
    ensures beside { F.step beside.old tt beside.new }
{
    if !source.is_divided() {
        return load_apart(rt, loading, number, source, beside);
    }
    let table = whole_table(loading.catalog, number);
    load_beside(rt, loading.alloc, table, source, loading.options, beside)
}

// The table of this number alone, and what is beside it.
fn load_one<S: Source + Send + Drop, R: Threads + Wait + Sync, F: FnMut() + Send>(
    rt: &R,
    loading: &Loading<'_>,
    number: u32,
    source: &mut Joined<S>,
    beside: &mut F,
) -> Result<Vec<Table>, FileFault>
    requires number { number < length loading.now.catalog.now }
    requires beside { F.pre beside.old }
    ensures ran { RanFrom joined_source loading.now.catalog.now number (source.old ∷ []) (source.new ∷ []) result }
    ensures beside { F.step beside.old tt beside.new }
{
    match load_table(rt, loading, number, source, beside) {
        Ok(table) => {
            let mut tables = Vec::new(loading.alloc);
            match tables.push(table) {
                Ok(()) => Ok(tables),
                Err(_) => Err(FileFault {
                    table: number,
                    fault: LoadFault::Memory,
                }),
            }
        }
        Err(fault) => Err(FileFault {
            table: number,
            fault,
        }),
    }
}

// The number of the fact table, or 0 where there is none.
fn fact_number(catalog: &Catalog) -> u32
    ensures inside { result < length catalog.now }
    ensures few { length catalog.now ≤ 16 }
    ensures catalog { IsCatalog catalog.now }
{
    let tables = catalog.tables();
    for number in 0..tables.len() {
        if tables[number].is_fact() {
            return number as u32;
        }
    }
    0
}

// The tables from this number on, one after the other.
fn load_in_turn<J: Source>(
    loading: &Loading<'_>,
    first: u32,
    sources: &mut [J],
) -> Result<Vec<Table>, FileFault>
    requires { first + length sources.old ≤ length loading.now.catalog.now }
    ensures { RanFrom J.Source loading.now.catalog.now first sources.old sources.new result }
{
    let Loading {
        alloc,
        catalog,
        options,
    } = *loading;
    load_tables(alloc, catalog, first as usize, sources, options.piece_size)
}

// The tables before the fact table and those behind it beside the fact table. Of any sources, so that it takes
// no proof here that joined ones may go to another thread.
fn load_others_beside<S: Source + Send + Drop, J: Source + Send, R: Threads + Wait + Sync>(
    rt: &R,
    loading: &Loading<'_>,
    fact: u32,
    front: &mut [J],
    source: &mut Joined<S>,
    back: &mut [J],
) -> (Others, Result<Vec<Table>, FileFault>)
    requires front { length front.old ≡ fact }
    requires back { fact + 1 + length back.old ≤ length loading.now.catalog.now }
    requires few { length loading.now.catalog.now ≤ 16 }
    ensures front { RanFrom J.Source loading.now.catalog.now 0 front.old front.new result.0.0 }
    ensures fact { RanFrom joined_source loading.now.catalog.now fact (source.old ∷ []) (source.new ∷ []) result.1 }
    ensures back { RanFrom J.Source loading.now.catalog.now (fact + 1) back.old back.new result.0.1 }
{
    let behind = fact + 1;
    let mut answer = None;
    let mut others = ||
        requires { (length front.now ≤ length loading.now.catalog.now) × (behind + length back.now ≤ length loading.now.catalog.now) }
        ensures some { IsSome answer.exit }
        ensures front { IfSome answer.exit (λ o. RanFrom J.Source loading.entry.now.catalog.now 0 front.entry.now front.exit.now o.0) }
        ensures back { IfSome answer.exit (λ o. RanFrom J.Source loading.entry.now.catalog.now behind back.entry.now back.exit.now o.1) }
    {
        answer = Some((
            load_in_turn(loading, 0, front),
            load_in_turn(loading, behind, back),
        ));
    };
    let own = load_one(rt, loading, fact, source, &mut others);
    match answer {
        Some(others) => (others, own),
        None => unreachable!(),
    }
}

/// [`load_all`](ssb_load::load_all) over at most so many threads, the caller's among them, which may wait for
/// each other: the fact table is loaded as [`load_with`](crate::load_with) does, and one of the threads loads
/// the other tables, after what it reads of the fact table; where that is not divided, a second thread does.
/// One thread is the caller's alone. Where threads meet a fault, the fact table's sources are still read to their
/// ends, or up to a read that fails.
///
/// # Errors
///
/// As of [`load_all`](ssb_load::load_all).
pub fn load_all_with<S: Source + Send + Drop, R: Threads + Wait + Sync>(
    rt: &R,
    alloc: Global,
    catalog: &Catalog,
    sources: &mut [Joined<S>],
    piece_size: usize,
    threads: u32,
) -> Result<Vec<Table>, FileFault>
    requires sources { length sources.old ≡ length catalog.now }
    requires threads { 0 < threads }
    ensures grows { GrewEach (map ⟦<Joined<S> as Source>⟧.given sources.old) (map ⟦<Joined<S> as Source>⟧.given sources.new) }
    ensures loads { LoadsAll catalog.now (given_each (map ⟦<Joined<S> as Source>⟧.given sources.old) (map ⟦<Joined<S> as Source>⟧.given sources.new)) result }
    ensures ended { OnOk result (RoseEach (map ⟦<Joined<S> as Source>⟧.ends sources.old) (map ⟦<Joined<S> as Source>⟧.ends sources.new)) }
    ensures failed { IfErr result (FailedRead joined_source catalog.now sources.old sources.new) }
    ensures told { (files : List Bytes) → map ⟦<Joined<S> as Source>⟧.whole sources.old ≡ map Some files → LoadsAll catalog.now (given_each (map ⟦<Joined<S> as Source>⟧.given sources.old) files) result }
    ensures lawful { IfOk result (λ tables. AreLawful catalog.now tables.items) }
    ensures catalog { OnOk result (IsCatalog catalog.now) }
{
    if threads == 1 {
        return load_all(alloc, catalog, sources, piece_size);
    }
    let loading = Loading {
        alloc,
        catalog,
        options: ReadOptions {
            piece_size,
            threads,
        },
    };
    let fact = fact_number(catalog);
    let (front, rest) = sources.split_at_mut(fact as usize);
    let (own, back) = rest.split_at_mut(1);
    let ((first, last), middle) = load_others_beside(rt, &loading, fact, front, &mut own[0], back);
    let rest = put_together(fact + 1, middle, last);
    put_together(fact, first, rest)
}
