// Reading a table of several sources side by side, in threads.
//
// `load_with` asks the `Joined` to read together what it joins. `read_each` lays each source into a queue of
// its own, from which threads take it and make a `Part` of it: the bytes up to the first line feed, the rows
// of the whole lines, and what is left. `add_all` puts the parts into an `Assembly`, in the order of the sources; there the
// line over a cut is read, faults get their number in the whole, and rows are counted against the limit.
// `join_parts` makes one column of each column's parts. Where the table has a key, there is one source
// alone, or the sources were read before, `load_with` is `load_from`.

ghost use Rattle.std.specs.Prelude.{◌<◌, length};
ghost use Rattle.ssb_load.specs.Loading.{LoadsFrom, rules_at};

use crate::assembly::Assembly;
use crate::joined::Joined;
use crate::joining::join_parts;
use crate::options::ReadOptions;
use ssb_catalog::Catalog;
use ssb_cells::Table;
use ssb_load::{key_place, load_in_pieces, rules_at};
use ssb_records::{LoadFault, Source};
use std::alloc::Global;
use std::sync::Wait;
use std::thread::Threads;

/// A table of a catalog, by its number from 0, that is to have at most so many rows.
#[derive(Clone, Copy)]
pub struct CatalogTable<'a> {
    pub catalog: &'a Catalog,
    pub number: usize,
    pub max_rows: u32,
}

// `load_with`, where one of the threads does what is beside as well.
pub(crate) fn load_beside<S: Source + Send + Drop, R: Threads + Wait + Sync, F: FnMut() + Send>(
    rt: &R,
    alloc: Global,
    table: CatalogTable<'_>,
    source: &mut Joined<S>,
    options: ReadOptions,
    beside: &mut F,
) -> Result<Table, LoadFault>
    requires table { table.number < length table.catalog.now }
    requires threads { 0 < options.threads }
    requires beside { F.pre beside.old }
    ensures loads { LoadsFrom ⟦<Joined<S> as Source>⟧.given ⟦<Joined<S> as Source>⟧.failures ⟦<Joined<S> as Source>⟧.ends ⟦<Joined<S> as Source>⟧.whole (rules_at table.entry.catalog.now table.entry.number) table.entry.max_rows source.old source.new result }
    ensures beside { F.step beside.old tt beside.new }
{
    let CatalogTable {
        catalog,
        number,
        max_rows,
    } = table;
    let Ok(rules) = rules_at(alloc, catalog, number) else {
        beside();
        return Err(LoadFault::Memory);
    };
    if !source.is_divided() || key_place(&rules).is_some() {
        beside();
        return load_in_pieces(alloc, catalog, number, max_rows, source, options.piece_size);
    }
    let Ok(mut assembly) = Assembly::new(alloc, &rules, max_rows) else {
        beside();
        return Err(LoadFault::Memory);
    };
    source.read_together(rt, alloc, options, &mut assembly, beside)?;
    let parts = assembly.finish(alloc)?;
    match join_parts(rt, alloc, &rules, parts, options.threads) {
        Ok(table) => Ok(table),
        Err(_) => Err(LoadFault::Memory),
    }
}

/// [`load_in_pieces`](ssb_load::load_in_pieces) over sources one after the other, where a table without a
/// key is read in at most as many threads as the options say, the caller's among them, which may wait for each
/// other: each takes the next source that no other has. The answer is the same. A table with a key is read by
/// the caller's thread, and so is any table of one source, or of sources that were read before. Where threads
/// meet a fault, the sources are still read to their ends, or up to a read that fails.
///
/// # Errors
///
/// As of [`load_from`](ssb_load::load_from).
pub fn load_with<S: Source + Send + Drop, R: Threads + Wait + Sync>(
    rt: &R,
    alloc: Global,
    table: CatalogTable<'_>,
    source: &mut Joined<S>,
    options: ReadOptions,
) -> Result<Table, LoadFault>
    requires table { table.number < length table.catalog.now }
    requires threads { 0 < options.threads }
    ensures { LoadsFrom ⟦<Joined<S> as Source>⟧.given ⟦<Joined<S> as Source>⟧.failures ⟦<Joined<S> as Source>⟧.ends ⟦<Joined<S> as Source>⟧.whole (rules_at table.entry.catalog.now table.entry.number) table.entry.max_rows source.old source.new result }
{
    load_beside(rt, alloc, table, source, options, &mut || {})
}
