// `ssb run`: one answer over the tables of a folder.

ghost use Rattle.std.specs.Prelude.{◌≡◌, [], IfOk, List, Ok, length, map, ℕ};
ghost use Rattle.std.specs.Io.Buffered.{writer_buffer, writer_contents, writer_inner};
ghost use Rattle.std.specs.Io.KnownBytes.{Appends, Keeps};
ghost use Rattle.ssb_answer.specs.Files.{given_each};
ghost use Rattle.ssb_answer.specs.Reply.{Replies};

use crate::folder::{Folder, fault_over, sources_of};
use crate::host::Host;
use crate::loading::load;
use crate::tell::tell_time;
use crate::timing::Stopwatch;
use ssb_answer::{
    AnswerFault, Context, Database, Joined, Lap, Laps, Mode, NoGate, Out, RunFault, Shape, run_from,
};
use ssb_files::{Counted, ProgramFault, Section, catalog_of, read_query};
use ssb_load::{Catalog, Source};
use ssb_words::QuerySource;
use std::fs::File;
use std::io;
use std::io::{BufWriter, Write};
use std::rt::Files;
use std::sync::Wait;
use std::sync::atomic::AtomicU64;
use std::thread::Threads;

// What people see of a run beside its rows.
#[derive(Clone, Copy)]
pub(crate) struct Showing {
    // The names of the select columns.
    pub(crate) headers: bool,
    // How long each step took.
    pub(crate) timing: bool,
    // How far a long load is.
    pub(crate) is_watched: bool,
}

impl Showing {
    // Whether it is the rows alone.
    fn is_plain(self) -> bool {
        !self.headers && !self.timing && !self.is_watched
    }
}

/// The text of a query.
pub(crate) fn text_of<R: Files + AllocGlobal>(
    rt: &R,
    query: QuerySource<'_>,
) -> Result<String, ProgramFault> {
    match query {
        QuerySource::File(path) => read_query(rt, path),
        QuerySource::Text(text) => Ok(String::from_str(rt.alloc(), text)?),
    }
}

// Flushes a buffer: the writer below then holds what both held.
fn flush<W: Write + Drop>(writer: BufWriter<W>) -> Result<BufWriter<W>, RunFault>
    ensures empty { IfOk result (λ w. writer_buffer w ≡ []) }
    ensures bytes { IfOk result (λ w. Keeps (writer_contents W.contents writer) (W.contents (writer_inner w))) }
{
    let mut writer = writer;
    match writer.flush() {
        Ok(()) => Ok(writer),
        Err(_) => {
            drop(writer);
            Err(RunFault::Answer(AnswerFault::Write))
        }
    }
}

// Writes the answer to a buffer, and flushes it after it is complete: then the writer below it has the rows that
// are the reply, behind what it and its buffer held, where it tells what it holds.
fn write_answer<R: AllocGlobal + Threads + Wait + Sync, S: Source + Send + Drop, W: Write + Drop>(
    context: &Context<'_, R, NoGate>,
    catalog: &Catalog,
    sources: &mut [Joined<S>],
    text: &str,
    writer: BufWriter<W>,
) -> Result<BufWriter<W>, RunFault>
    requires sources { length sources.old ≡ length catalog.now }
    ensures empty { IfOk result (λ w. writer_buffer w ≡ []) }
    ensures holds { IfOk result (λ w. let given = ⟦<Joined<S> as Source>⟧.given in (rows : List ℕ) × Replies catalog.now (given_each (map given sources.old) (map given sources.new)) text.now (Ok tt) [] rows × Appends (writer_contents W.contents writer) (W.contents (writer_inner w)) rows) }
{
    let mut out = Out::new(writer);
    let answered = run_from(context, catalog, sources, text, &mut out);
    let writer = out.into_writer();
    match answered {
        Ok(()) => flush(writer),
        Err(fault) => {
            drop(writer);
            Err(fault)
        }
    }
}

// Prints the answer through one buffer.
fn print_answer<R: Host>(
    rt: &R,
    folder: Folder<'_>,
    catalog: &Catalog,
    sources: &mut [Joined<Counted<'_, Section<File>>>],
    text: &str,
) -> Result<(), RunFault>
    requires { length sources.old ≡ length catalog.now }
{
    let Ok(writer) = BufWriter::new(rt.alloc(), io::writer(rt)) else {
        return Err(RunFault::Memory);
    };
    let writer = write_answer(&folder.context(rt), catalog, sources, text, writer)?;
    drop(writer);
    Ok(())
}

// Answers a text over the tables of a folder.
fn answer<R: Host>(
    rt: &R,
    folder: Folder<'_>,
    catalog: &Catalog,
    text: &str,
) -> Result<(), ProgramFault> {
    let count = AtomicU64::new(0);
    let mut sources = sources_of(rt, folder, catalog, &count)?;
    let printed = print_answer(rt, folder, catalog, &mut sources, text);
    drop(sources);
    match printed {
        Ok(()) => Ok(()),
        Err(fault) => Err(fault_over(rt.alloc(), catalog, fault)),
    }
}

// Writes the answer over loaded tables to a buffer in a shape, and flushes it after it is complete.
fn write_shown<R: Host, W: Write + Drop>(
    context: &Context<'_, R, NoGate>,
    database: &Database<'_>,
    text: &str,
    shape: Shape,
    watch: &mut Stopwatch<'_, R>,
    writer: BufWriter<W>,
) -> Result<(), RunFault> {
    let mut out = Out::new(writer);
    let shown = database.show(context, text, shape, watch, &mut out);
    let writer = out.into_writer();
    if let Err(fault) = shown {
        drop(writer);
        return Err(fault);
    }
    let writer = flush(writer)?;
    drop(writer);
    watch.reached(Lap::Written);
    Ok(())
}

// Prints the answer over loaded tables through one buffer, in a shape.
fn print_shown<R: Host>(
    context: &Context<'_, R, NoGate>,
    database: &Database<'_>,
    text: &str,
    shape: Shape,
    watch: &mut Stopwatch<'_, R>,
) -> Result<(), RunFault> {
    match BufWriter::new(context.alloc, io::writer(context.rt)) {
        Ok(writer) => write_shown(context, database, text, shape, watch, writer),
        Err(_) => Err(RunFault::Memory),
    }
}

// Answers a text over the tables of a folder, with what people see beside the rows.
fn answer_shown<R: Host>(
    rt: &R,
    folder: Folder<'_>,
    catalog: &Catalog,
    text: &str,
    showing: Showing,
) -> Result<(), ProgramFault> {
    let mut watch = Stopwatch::start(rt);
    let database = load(rt, folder, catalog, showing.is_watched)?;
    let shape = Shape {
        mode: Mode::Bars,
        headers: showing.headers,
    };
    let context = folder.context(rt);
    let printed = print_shown(&context, &database, text, shape, &mut watch);
    drop(database);
    match printed {
        Ok(()) => {
            if showing.timing {
                tell_time(rt, &watch);
            }
            Ok(())
        }
        Err(fault) => Err(fault_over(rt.alloc(), catalog, fault)),
    }
}

// Answers a query over the tables of a folder.
fn run_over<R: Host>(
    rt: &R,
    folder: Folder<'_>,
    catalog: &Catalog,
    query: QuerySource<'_>,
    showing: Showing,
) -> Result<(), ProgramFault> {
    let text = text_of(rt, query)?;
    let answered = if showing.is_plain() {
        answer(rt, folder, catalog, text.as_str())
    } else {
        answer_shown(rt, folder, catalog, text.as_str(), showing)
    };
    drop(text);
    answered
}

/// Answers a query over the tables of a folder, and prints its rows.
pub(crate) fn run<R: Host>(
    rt: &R,
    folder: Folder<'_>,
    query: QuerySource<'_>,
    showing: Showing,
) -> Result<(), ProgramFault> {
    let catalog = catalog_of(rt, folder.catalog)?;
    let answered = run_over(rt, folder, &catalog, query, showing);
    drop(catalog);
    answered
}
