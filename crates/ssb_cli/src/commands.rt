// The commands of a shell.

use crate::desk::Desk;
use crate::host::Host;
use crate::loading::load;
use crate::statements::{program_fault, show_text};
use crate::tell::write_fault;
use ssb_answer::{Database, Mode, Out};
use ssb_files::{ProgramFault, create, table_lines};
use ssb_load::Catalog;
use ssb_words::{Command, command_of, text_named};
use std::alloc::{AllocError, Global};
use std::fs::File;
use std::io;
use std::io::Write;
use std::rt::Files;

// What each command does.
const HELP: &str = "\
.tables             the tables, with how many rows and columns they have
.schema TABLE       the catalog's lines of a table
.run NAME           answers a query of the benchmark, Q1.1 to Q4.3
.explain QUERY      tells the plan of a query, which stands there as text or by its name
.read FILE          answers the statements of a file
.output FILE        writes rows to a file from now on; alone, to the standard output
.mode bars|columns  parts fields by bars, or aligns them in columns
.headers on|off     writes the names of the select columns before the rows
.timing on|off      tells how long each answer takes
.reload             loads the tables anew
.help               these lines
.quit               ends
";

// As many bytes of a line are told at most: what one of these or more asks is not known.
const LINE_SIZE: usize = 4096;

/// Why a script is left before its end, or that it has ended.
#[derive(Drop)]
pub(crate) enum Stop {
    // The script has ended.
    End,
    // The shell ends.
    Quit,
    // The statements of the file of this path come first.
    File(String),
}

// Writes a text to where rows go.
fn put_to<W: Write + Drop>(writer: &mut W, text: &str) -> Result<(), ()> {
    match writer.write_all(text.as_bytes()) {
        Ok(()) => Ok(()),
        Err(_) => Err(()),
    }
}

// Writes a text to where rows go, and says whether the shell goes on.
fn put<R: Print + Eprint + AllocGlobal>(rt: &R, desk: &mut Desk<'_>, text: &str) -> bool {
    let written = match &mut desk.output {
        Some(file) => put_to(file, text),
        None => match rt.print(text) {
            Ok(()) => Ok(()),
            Err(_) => Err(()),
        },
    };
    match written {
        Ok(()) => true,
        Err(()) => {
            let _ = desk.tell(rt, write_fault(rt.alloc()));
            false
        }
    }
}

// Writes a text that was made, or tells that memory for it was refused.
fn put_made<R: Print + Eprint + AllocGlobal>(
    rt: &R,
    desk: &mut Desk<'_>,
    made: Result<String, AllocError>,
) -> bool {
    match made {
        Ok(text) => {
            let goes_on = put(rt, desk, text.as_str());
            drop(text);
            goes_on
        }
        Err(_) => desk.tell(rt, ProgramFault::Memory),
    }
}

// The lines of the tables: name, rows and columns.
fn tables_text(
    alloc: Global,
    catalog: &Catalog,
    database: &Database<'_>,
) -> Result<String, AllocError> {
    let mut text = String::new(alloc);
    for (table, loaded) in catalog.tables().iter().zip(database.tables().iter()) {
        let line = format!(in alloc;
            "{}|{}|{}\n",
            table.name(),
            loaded.row_count(),
            table.columns().len()
        )?;
        text.push_str(line.as_str())?;
    }
    Ok(text)
}

// Shows the catalog's lines of a table.
fn show_schema<R: Print + Eprint + AllocGlobal>(rt: &R, desk: &mut Desk<'_>, name: &str) -> bool {
    for table in desk.catalog.tables() {
        if table.name().eq_ignore_ascii_case(name) {
            let lines = table_lines(rt.alloc(), table);
            return put_made(rt, desk, lines);
        }
    }
    desk.tell_bad(rt, name)
}

// Answers a query of the benchmark.
fn run_named<R: Host>(rt: &R, desk: &mut Desk<'_>, text: &str) -> bool {
    match desk.output.take() {
        Some(file) => {
            let mut rows: Out<File> = Out::new(file);
            let goes_on = show_text(rt, desk, text, &mut rows);
            desk.output = Some(rows.into_writer());
            goes_on
        }
        None => {
            let mut rows = Out::new(io::writer(rt));
            let goes_on = show_text(rt, desk, text, &mut rows);
            drop(rows);
            goes_on
        }
    }
}

// Writes the plan of a query of the benchmark, or of the query that this is.
fn explain<R: Print + Eprint + AllocGlobal>(rt: &R, desk: &mut Desk<'_>, query: &str) -> bool {
    let text = text_named(query).unwrap_or(query);
    match desk.database.explain(rt.alloc(), text) {
        Ok(plan) => {
            let goes_on = put(rt, desk, plan.as_str());
            drop(plan);
            goes_on
        }
        Err(fault) => desk.tell(rt, program_fault(rt.alloc(), fault)),
    }
}

// Writes rows to a file from now on, or to the standard output.
fn turn_output<R: Files<File = File> + Eprint + AllocGlobal>(
    rt: &R,
    desk: &mut Desk<'_>,
    path: Option<&str>,
) -> bool {
    let Some(path) = path else {
        desk.output = None;
        return true;
    };
    match create(rt, path) {
        Ok(file) => {
            desk.output = Some(file);
            true
        }
        Err(fault) => desk.tell(rt, fault),
    }
}

// Loads the tables anew; those at hand stay where that fails.
fn reload<R: Host>(rt: &R, desk: &mut Desk<'_>) -> bool {
    match load(rt, desk.folder, desk.catalog, desk.options.is_watched) {
        Ok(database) => {
            desk.database = database;
            true
        }
        Err(fault) => desk.tell(rt, fault),
    }
}

// That the shell ends, unless it goes on.
fn unless(goes_on: bool) -> Option<Stop> {
    if goes_on { None } else { Some(Stop::Quit) }
}

// Does what a command asks.
fn act<R: Host>(rt: &R, desk: &mut Desk<'_>, command: Command<'_>) -> Option<Stop> {
    match command {
        Command::Tables => {
            let text = tables_text(rt.alloc(), desk.catalog, &desk.database);
            unless(put_made(rt, desk, text))
        }
        Command::Schema(name) => unless(show_schema(rt, desk, name)),
        Command::Run(text) => unless(run_named(rt, desk, text)),
        Command::Explain(query) => unless(explain(rt, desk, query)),
        Command::Read(path) => match String::from_str(rt.alloc(), path) {
            Ok(path) => Some(Stop::File(path)),
            Err(_) => unless(desk.tell(rt, ProgramFault::Memory)),
        },
        Command::Output(path) => unless(turn_output(rt, desk, path)),
        Command::Columns(on) => {
            desk.shape.mode = if on { Mode::Columns } else { Mode::Bars };
            None
        }
        Command::Headers(on) => {
            desk.shape.headers = on;
            None
        }
        Command::Timing(on) => {
            desk.is_timed = on;
            None
        }
        Command::Reload => unless(reload(rt, desk)),
        Command::Help => unless(put(rt, desk, HELP)),
        Command::Quit => Some(Stop::Quit),
    }
}

// A line up to its first space.
fn first_word(line: &str) -> &str {
    match line.split_once(' ') {
        Some((word, _)) => word,
        None => line,
    }
}

/// Does what a line that is a command asks, or tells that it is none. It gives why the script is left, if it
/// is.
pub(crate) fn obey<R: Host>(rt: &R, desk: &mut Desk<'_>, line: &[u8]) -> Option<Stop> {
    let Ok(line) = str::from_utf8(line) else {
        return unless(desk.tell_bad(rt, ""));
    };
    match command_of(line) {
        Ok(_) if line.len() >= LINE_SIZE => unless(desk.tell_bad(rt, first_word(line.trim()))),
        Ok(command) => act(rt, desk, command),
        Err(word) => unless(desk.tell_bad(rt, word)),
    }
}
