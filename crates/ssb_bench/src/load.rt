// Loading alone: the tables of a folder, the fact table from several sections of its file.

ghost use Rattle.std.specs.Prelude.{◌≡◌, length};

use crate::folder::{catalog_in, sources_of};
use crate::tables::micros_since;
use ssb_answer::{Database, Joined, Settings};
use ssb_load::{Catalog, In};
use std::fs::File;
use std::io::Read;
use std::rt::{Clock, Files};
use std::sync::Wait;
use std::thread::Threads;
use std::time::Instant;

// How long it takes to load tables from sources that stand joined, in microseconds.
fn time_of<R: Clock + Threads + Wait + Sync + AllocGlobal, F: Read + Drop + Send>(
    rt: &R,
    catalog: &Catalog,
    sources: &mut [Joined<In<F>>],
    settings: Settings,
) -> Option<u128>
    requires sources { length sources.old ≡ length catalog.now }
{
    let start = Instant::now(rt).ok()?;
    let database = Database::load(rt, rt.alloc(), catalog, sources, settings).ok()?;
    let time = micros_since(rt, start);
    drop(database);
    time
}

/// How long it takes to load the tables of a folder, whose catalog lies in it as `catalog`, in
/// microseconds, in at most so many threads: the fact table from as many sections of its file, where that
/// has more than 16 MB, and the others by one of the threads; one thread alone loads all. None where the threads are not 1 to
/// 64, or a file is missing or not what it should be.
pub(crate) fn loading_time<R: Files<File = File> + Clock + Threads + Wait + Sync + AllocGlobal>(
    rt: &R,
    folder: &str,
    threads: u32,
) -> Option<u128> {
    let settings = Settings::with_defaults(Some(threads), None, None, None)?;
    let catalog = catalog_in(rt, folder)?;
    let mut sources = sources_of(rt, folder, &catalog, u64::from(threads))?;
    time_of(rt, &catalog, &mut sources, settings)
}
