// Loading the tables of a catalog, each of what its source gives.

ghost use Rattle.std.specs.Prelude.{◌≡◌, ◌+◌, ◌≤◌, IfErr, IfOk, List, OnOk, Some, length, map};
ghost use Rattle.ssb_catalog.specs.Catalog.{IsCatalog};
ghost use Rattle.ssb_records.specs.CutShort.{IfRead};
ghost use Rattle.ssb_load.specs.Files.{AreLawful, Bytes, FailedAt, GrewEach, LoadsAll, RoseEach, given_each};
ghost use Rattle.ssb_load.specs.Runs.{RanFrom};

use crate::fault::FileFault;
use crate::read_table::load_in_pieces;
use ssb_catalog::Catalog;
use ssb_cells::Table;
use ssb_records::{LoadFault, Source};
use std::alloc::Global;

/// The tables of a catalog from this number on, one for each source, each of what its source gives to the
/// end, or the first fault. Sources are read in pieces of this many bytes, where no line is longer; the
/// size changes no answer.
///
/// # Errors
///
/// As of [`load_all`].
pub fn load_tables<S: Source>(
    alloc: Global,
    catalog: &Catalog,
    first: usize,
    sources: &mut [S],
    piece_size: usize,
) -> Result<Vec<Table>, FileFault>
    requires { first + length sources.old ≤ length catalog.now }
    ensures { RanFrom S.Source catalog.now first sources.old sources.new result }
{
    // A catalog has at most 16 tables.
    let _lawful = catalog.tables();
    let mut tables = Vec::new(alloc);
    for place in 0..sources.len() {
        let number = first + place;
        let source = &mut sources[place];
        match load_in_pieces(alloc, catalog, number, u32::MAX, source, piece_size) {
            Ok(table) => {
                let Ok(()) = tables.push(table) else {
                    return Err(FileFault {
                        table: number as u32,
                        fault: LoadFault::Memory,
                    });
                };
            }
            Err(fault) => {
                return Err(FileFault {
                    table: number as u32,
                    fault,
                });
            }
        }
    }
    Ok(tables)
}

/// The tables of a catalog in its order, each of what its source gives to the end, or the first fault.
/// Sources are read in pieces of this many bytes, where no line is longer; the size changes no answer.
///
/// # Errors
///
/// The number of the first table whose file is none, from 0, with its fault as of
/// [`load_from`](crate::load_from). Nothing is left of the tables before it.
pub fn load_all<S: Source>(
    alloc: Global,
    catalog: &Catalog,
    sources: &mut [S],
    piece_size: usize,
) -> Result<Vec<Table>, FileFault>
    requires { length sources.old ≡ length catalog.now }
    ensures grows { GrewEach (map S.given sources.old) (map S.given sources.new) }
    ensures loads { LoadsAll catalog.now (given_each (map S.given sources.old) (map S.given sources.new)) result }
    ensures ended { OnOk result (RoseEach (map S.ends sources.old) (map S.ends sources.new)) }
    ensures failed { IfErr result (λ e. IfRead e.fault (FailedAt catalog.now (given_each (map S.given sources.old) (map S.given sources.new)) (map S.failures sources.old) (map S.failures sources.new) e.table)) }
    ensures told { (files : List Bytes) → map S.whole sources.old ≡ map Some files → LoadsAll catalog.now (given_each (map S.given sources.old) files) result }
    ensures lawful { IfOk result (λ tables. AreLawful catalog.now tables.items) }
    ensures catalog { OnOk result (IsCatalog catalog.now) }
{
    // A catalog is lawful.
    let _lawful = catalog.tables();
    load_tables(alloc, catalog, 0, sources, piece_size)
}
