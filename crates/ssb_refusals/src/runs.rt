// The whole path, from the bytes of the small tables to the rows of the answer.

use crate::ends::{Done, Stop};
use crate::files::{CATALOG, DATES, FACTS, REVENUE, SUPPLIERS, readers, sources};
use ssb_answer::{
    Context, Database, Joined, Manner, NoLaps, Out, Session, SessionEnd, Settings, Shape, Sizes,
    Statements, run, run_alone, run_alone_from, run_from,
};
use ssb_load::{Catalog, In, PIECE_SIZE};
use ssb_pipeline::NoGate;
use std::alloc::{AllocError, Global};
use std::io;
use std::io::{Read, Write};
use std::sync::Wait;
use std::thread::Threads;

// How many rows a morsel has: the seven rows are four morsels.
const MORSEL_SIZE: u32 = 2;

// How many bytes are read at once where pieces are small: less than a line has.
const SMALL_PIECE: usize = 8;

// Where the fact table's bytes are cut in two, in the middle of a line.
const CUT: usize = 100;

/// A run in the caller's thread.
pub(crate) fn run_by_caller<W: Write + Drop>(alloc: Global, writer: W) -> Result<Done, Stop> {
    let catalog = Catalog::read(alloc, CATALOG)?;
    let readers = readers(alloc)?;
    if readers.len() != catalog.tables().len() {
        return Err(Stop::Wrong);
    }
    let mut out = Out::new(writer);
    run_alone(alloc, catalog, readers, REVENUE, MORSEL_SIZE, &mut out)?;
    Ok(Done::Written)
}

/// A run in the caller's thread, which reads the catalog and the tables in small pieces.
pub(crate) fn run_in_pieces<W: Write + Drop>(alloc: Global, writer: W) -> Result<Done, Stop> {
    let catalog = Catalog::read_in_pieces(alloc, &mut In::new(CATALOG), SMALL_PIECE)?;
    let mut sources = sources(alloc)?;
    if sources.len() != catalog.tables().len() {
        return Err(Stop::Wrong);
    }
    let mut out = Out::new(writer);
    let sizes = Sizes {
        morsel_size: MORSEL_SIZE,
        piece_size: SMALL_PIECE,
    };
    run_alone_from(alloc, &catalog, &mut sources, REVENUE, sizes, &mut out)?;
    Ok(Done::Written)
}

// Two workers, who take up to two morsels at a time from two parts.
fn settings() -> Result<Settings, Stop> {
    let settings = Settings::new(2, MORSEL_SIZE, 2).ok_or(Stop::Wrong)?;
    settings.with_batch(2).ok_or(Stop::Wrong)
}

// What they work with.
fn context<R>(rt: &R, alloc: Global) -> Result<Context<'_, R, NoGate>, Stop> {
    Ok(Context {
        rt,
        alloc,
        settings: settings()?,
        gate: &NoGate,
    })
}

/// A run by workers in threads.
pub(crate) fn run_by_workers<R: Threads + Wait + Sync, W: Write + Drop>(
    rt: &R,
    alloc: Global,
    writer: W,
) -> Result<Done, Stop> {
    let settings = settings()?;
    let catalog = Catalog::read(alloc, CATALOG)?;
    let readers = readers(alloc)?;
    if readers.len() != catalog.tables().len() {
        return Err(Stop::Wrong);
    }
    let mut out = Out::new(writer);
    run(
        rt, alloc, catalog, readers, REVENUE, settings, &NoGate, &mut out,
    )?;
    Ok(Done::Written)
}

// The tables as sources that are joined, the fact table's of its two sections.
fn joined(alloc: Global) -> Result<Vec<Joined<In<&'static [u8]>>>, AllocError> {
    let facts = vec![in alloc; In::new(&FACTS[..CUT]), In::new(&FACTS[CUT..])]?;
    let dates = vec![in alloc; In::new(DATES)]?;
    let suppliers = vec![in alloc; In::new(SUPPLIERS)]?;
    Joined::of_each(alloc, vec![in alloc; facts, dates, suppliers]?)
}

// A run by workers over such sources.
fn run_joined<R: Threads + Wait + Sync, F: Read + Drop + Send, W: Write + Drop>(
    rt: &R,
    alloc: Global,
    sources: Vec<Joined<In<F>>>,
    writer: W,
) -> Result<Done, Stop> {
    let mut sources = sources;
    let context = context(rt, alloc)?;
    let catalog = Catalog::read(alloc, CATALOG)?;
    if sources.len() != catalog.tables().len() {
        return Err(Stop::Wrong);
    }
    let mut out = Out::new(writer);
    run_from(&context, &catalog, &mut sources, REVENUE, &mut out)?;
    Ok(Done::Written)
}

/// The same, with the fact table's bytes in two sections, each of which a thread reads.
pub(crate) fn run_over_sections<R: Threads + Wait + Sync, W: Write + Drop>(
    rt: &R,
    alloc: Global,
    writer: W,
) -> Result<Done, Stop> {
    let sources = joined(alloc)?;
    run_joined(rt, alloc, sources, writer)
}

// Two statements over the small tables.
const SESSION: &[u8] = b"select count(*) from lineorder; select max(lo_revenue) from lineorder";

/// A session of two statements by two workers. The rows and the lines go to the standard output, one behind
/// the other.
pub(crate) fn run_session<R: Print + Threads + Wait + Sync>(
    rt: &R,
    alloc: Global,
) -> Result<Done, Stop> {
    let context = context(rt, alloc)?;
    let catalog = Catalog::read(alloc, CATALOG)?;
    let mut sources = sources(alloc)?;
    if sources.len() != catalog.tables().len() {
        return Err(Stop::Wrong);
    }
    let database = Database::load_alone(alloc, &catalog, &mut sources, PIECE_SIZE)?;
    let mut statements = Statements::new(alloc, In::new(SESSION))?;
    let mut rows = Out::new(io::writer(rt));
    let mut lines = Out::new(io::writer(rt));
    let manner = Manner {
        shape: Shape::plain(),
        stops: false,
    };
    let session = Session::new(context, &database, manner);
    let outcome = session.answer_each(&mut statements, &mut rows, &mut lines, &mut NoLaps);
    match outcome.end {
        SessionEnd::Input => Ok(Done::Written),
        _ => Err(Stop::Wrong),
    }
}
