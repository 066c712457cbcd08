// Loading the tables of a folder, with what people see of it on a terminal.

ghost use Rattle.std.specs.Prelude.{◌≡◌, length};
ghost use Rattle.std.specs.Thread.{IsSync};

use crate::folder::{Folder, fault_over, sources_of};
use crate::host::Host;
use ssb_answer::{Database, Joined, RunFault, Settings};
use ssb_files::{Counted, ProgramFault, Section, size_of_files};
use ssb_load::{Catalog, FileFault};
use std::fs::File;
use std::rt::Clock;
use std::sync::Wait;
use std::sync::atomic::{AtomicBool, AtomicU64, Ordering};
use std::thread;
use std::thread::{Threads, join_mut};
use std::time::Duration;

// How long a look at the count waits for the next one, in milliseconds.
const LOOK: u64 = 10;

// After how many looks a load is long: half a second.
const FIRST_LOOK: u64 = 50;

// After how many more the line is shown anew: a tenth of a second.
const LOOKS: u64 = 10;

// Moves to the beginning of the line, and clears it.
const CLEAR: &str = "\r\x1b[K";

// How far a load is, for the thread that shows it.
#[derive(Drop)]
struct Progress<'a> {
    // The bytes that were read so far, and those of all files.
    count: &'a AtomicU64,
    size: u64,
    is_over: &'a AtomicBool,
}

impl Progress<'_> {
    // The part of the bytes that was read, in percent.
    fn percent(&self) -> u64 {
        let count = self.count.load(Ordering::SeqCst).min(self.size);
        (u128::from(count) * 100 / u128::from(self.size.max(1))) as u64
    }

    fn show<R: Eprint + AllocGlobal>(&self, rt: &R) {
        if let Ok(line) = format!(in rt.alloc(); "{CLEAR}loading {} %", self.percent()) {
            let _ = rt.eprint(line.as_str());
        }
    }

    // Shows a line from half a second on until the load is over, and takes it away.
    fn watch<R: Eprint + AllocGlobal + Clock>(&self, rt: &R) {
        let mut is_shown = false;
        for look in 0..u64::MAX {
            if self.is_over.load(Ordering::SeqCst) {
                break;
            }
            if look >= FIRST_LOOK && look % LOOKS == 0 {
                self.show(rt);
                is_shown = true;
            }
            thread::sleep(rt, Duration::from_millis(LOOK));
        }
        if is_shown {
            let _ = rt.eprint(CLEAR);
        }
    }
}

// Which tables are loaded, and who watches it. It stands behind one reference, since the borrow checker does
// not cover two closures that share a value.
#[derive(Drop)]
struct Loading<'a, 'b> {
    catalog: &'a Catalog,
    settings: Settings,
    progress: &'b Progress<'b>,
}

// What tables are loaded of. A load beside its progress is written for any such sources: so the prover need not
// look through these to see that they may go to another thread.
trait Loads: Sized {
    // Loads tables, and says that this is over.
    fn load_and_end<'a, R: AllocGlobal + Threads + Wait + Sync>(
        rt: &R,
        loading: &Loading<'a, '_>,
        sources: &mut [Self],
    ) -> Result<Database<'a>, FileFault>
        requires { IsSync R.row × (length sources.old ≡ length loading.now.catalog.now) };
}

impl Loads for Joined<Counted<'_, Section<File>>> {
    fn load_and_end<'a, R: AllocGlobal + Threads + Wait + Sync>(
        rt: &R,
        loading: &Loading<'a, '_>,
        sources: &mut [Self],
    ) -> Result<Database<'a>, FileFault> {
        let loaded = Database::load(rt, rt.alloc(), loading.catalog, sources, loading.settings);
        loading.progress.is_over.store(true, Ordering::SeqCst);
        loaded
    }
}

// Loads tables in a thread beside this one, which shows how far it is. Where no thread can be made, the load
// comes first, and there is nothing to show.
fn load_shown<'a, J: Loads + Send, R: Host>(
    rt: &R,
    loading: &Loading<'a, '_>,
    sources: &mut [J],
) -> Result<Database<'a>, FileFault>
    requires { length sources.old ≡ length loading.now.catalog.now }
{
    let mut load = || -> Result<Database, FileFault>
        requires { IsSync R.row × (length sources.now ≡ length loading.now.catalog.now) }
    { J::load_and_end(rt, loading, sources) };
    let mut watch = || loading.progress.watch(rt);
    join_mut(rt, &mut load, &mut watch).0
}

// Loads tables, and shows how far it is where people watch.
fn load_counted<'a, R: Host>(
    rt: &R,
    folder: Folder<'_>,
    catalog: &'a Catalog,
    sources: &mut [Joined<Counted<'_, Section<File>>>],
    count: &AtomicU64,
    is_watched: bool,
) -> Result<Database<'a>, FileFault>
    requires { length sources.old ≡ length catalog.now }
{
    if !is_watched {
        return Database::load(rt, rt.alloc(), catalog, sources, folder.settings);
    }
    let is_over = AtomicBool::new(false);
    let progress = Progress {
        count,
        size: size_of_files(rt, folder.data, catalog),
        is_over: &is_over,
    };
    let loading = Loading {
        catalog,
        settings: folder.settings,
        progress: &progress,
    };
    load_shown(rt, &loading, sources)
}

/// The tables of a folder. Where people watch, a load of more than half a second shows how far it is.
pub(crate) fn load<'a, R: Host>(
    rt: &R,
    folder: Folder<'_>,
    catalog: &'a Catalog,
    is_watched: bool,
) -> Result<Database<'a>, ProgramFault> {
    let count = AtomicU64::new(0);
    let mut sources = sources_of(rt, folder, catalog, &count)?;
    let loaded = load_counted(rt, folder, catalog, &mut sources, &count, is_watched);
    drop(sources);
    match loaded {
        Ok(database) => Ok(database),
        Err(fault) => Err(fault_over(rt.alloc(), catalog, RunFault::from(fault))),
    }
}
