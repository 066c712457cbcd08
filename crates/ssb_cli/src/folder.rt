// The tables of a folder, as sources.

ghost use Rattle.std.specs.Prelude.{◌≡◌, IfOk, length, vec_len};

use ssb_answer::{Context, Joined, NoGate, RunFault, Settings};
use ssb_files::{Counted, ProgramFault, Section, counted_all, names_of, open_all};
use ssb_load::Catalog;
use std::alloc::Global;
use std::fs::File;
use std::rt::Files;
use std::sync::atomic::AtomicU64;

// Where the tables lie, and how the work over them is cut.
#[derive(Clone, Copy)]
pub(crate) struct Folder<'a> {
    // The folder of the tables' files.
    pub(crate) data: &'a str,
    // The catalog's file, none for the built-in catalog.
    pub(crate) catalog: Option<&'a str>,
    pub(crate) settings: Settings,
}

impl Folder<'_> {
    // What answers over its tables are worked out with.
    pub(crate) fn context<'r, R: AllocGlobal>(&self, rt: &'r R) -> Context<'r, R, NoGate> {
        Context {
            rt,
            alloc: rt.alloc(),
            settings: self.settings,
            gate: &NoGate,
        }
    }
}

// The files of a folder's tables as sources, in the catalog's order, with the count of the bytes that they
// give.
pub(crate) fn sources_of<'a, R: Files<File = File> + AllocGlobal>(
    rt: &R,
    folder: Folder<'_>,
    catalog: &Catalog,
    count: &'a AtomicU64,
) -> Result<Vec<Joined<Counted<'a, Section<File>>>>, ProgramFault>
    ensures { IfOk result (λ sources. vec_len sources ≡ length catalog.now) }
{
    let files = open_all(rt, folder.data, catalog, folder.settings.workers)?;
    let files = counted_all(rt.alloc(), files, count)?;
    Ok(Joined::of_each(rt.alloc(), files)?)
}

// A fault of a run over the tables of a catalog, whose names it may tell.
pub(crate) fn fault_over(alloc: Global, catalog: &Catalog, fault: RunFault) -> ProgramFault {
    match names_of(alloc, catalog) {
        Ok(names) => ProgramFault::Run { names, fault },
        Err(_) => {
            drop(fault);
            ProgramFault::Memory
        }
    }
}
