// `ssb shell`: the statements of the standard input, answered over tables that are loaded once, and the
// commands between them.

ghost use Rattle.std.specs.Prelude.{IfOk};
ghost use Rattle.ssb_files.specs.Faults.{IsStatus};

use crate::commands::{Stop, obey};
use crate::desk::Desk;
use crate::folder::Folder;
use crate::host::Host;
use crate::loading::load;
use crate::statements::answer_stretch;
use crate::timing::micros_since;
use ssb_answer::{In, Next, NoPrompts, Out, Prompts, Script, Source};
use ssb_files::{ProgramFault, catalog_of, open};
use ssb_load::Catalog;
use std::fs::File;
use std::io::Write;
use std::rt::Clock;
use std::time::Instant;

// The name of the standard input where it can't be read.
const INPUT_NAME: &str = "-";

// How a shell is with its outputs.
#[derive(Clone, Copy)]
pub(crate) struct ShellOptions {
    // Whether the first fault ends it.
    pub(crate) stops: bool,
    // Whether people type its input and read its error output.
    pub(crate) is_typed: bool,
    // Whether people read its error output.
    pub(crate) is_watched: bool,
}

// Asks people for a line, where they type it.
#[derive(Drop)]
struct Asking<'a, R> {
    rt: &'a R,
    is_typed: bool,
}

impl<R: Eprint> Prompts for Asking<'_, R> {
    fn before_read(&mut self, has_begun: bool) {
        if self.is_typed {
            let _ = self.rt.eprint(if has_begun { "..> " } else { "ssb> " });
        }
    }
}

// Goes through a script up to its end, or up to a command that another part of the shell has to see to. It
// gives the script back.
fn go_on<R: Host, S: Source + Drop, P: Prompts + Drop, E: Write + Drop>(
    rt: &R,
    desk: &mut Desk<'_>,
    script: Script<S, P>,
    name: &str,
    lines: &mut Out<E>,
) -> Result<(Script<S, P>, Stop), ProgramFault> {
    let mut script = script;
    for _ in 0..u64::MAX {
        match script.next() {
            Ok(Next::End) => return Ok((script, Stop::End)),
            Ok(Next::Statements) => {
                let (back, goes_on) = answer_stretch(rt, desk, script, name, lines)?;
                script = back;
                if !goes_on {
                    return Ok((script, Stop::Quit));
                }
            }
            Ok(Next::Command) => {
                if let Some(stop) = obey(rt, desk, script.line()) {
                    return Ok((script, stop));
                }
            }
            Err(_) => {
                desk.tell_unread(rt, name);
                return Ok((script, Stop::Quit));
            }
        }
    }
    // No script has as many.
    Ok((script, Stop::End))
}

// Goes through the file of a path, and says whether the shell goes on.
fn read_file<R: Host, E: Write + Drop>(
    rt: &R,
    desk: &mut Desk<'_>,
    path: &str,
    lines: &mut Out<E>,
) -> Result<bool, ProgramFault> {
    let file = match open(rt, path) {
        Ok(file) => file,
        Err(fault) => return Ok(desk.tell(rt, fault)),
    };
    let mut script = Script::new(rt.alloc(), In::new(file), NoPrompts)?;
    for _ in 0..u64::MAX {
        let (back, stop) = go_on(rt, desk, script, path, lines)?;
        script = back;
        match stop {
            Stop::End => break,
            Stop::Quit => {
                drop(script);
                return Ok(false);
            }
            Stop::File(inner) => {
                drop(inner);
                if !desk.tell_bad(rt, ".read") {
                    drop(script);
                    return Ok(false);
                }
            }
        }
    }
    drop(script);
    Ok(true)
}

// Goes through the standard input.
fn converse<R: Host, E: Write + Drop>(
    rt: &R,
    errors: E,
    desk: &mut Desk<'_>,
    is_typed: bool,
) -> Result<(), ProgramFault> {
    let mut lines = Out::new(errors);
    let asking = Asking { rt, is_typed };
    let mut script = Script::new(rt.alloc(), In::new(rt.reader()), asking)?;
    for _ in 0..u64::MAX {
        let (back, stop) = go_on(rt, desk, script, INPUT_NAME, &mut lines)?;
        script = back;
        match stop {
            Stop::End => {
                if is_typed {
                    let _ = rt.eprint("\n");
                }
                break;
            }
            Stop::Quit => break,
            Stop::File(path) => {
                let goes_on = read_file(rt, desk, path.as_str(), &mut lines)?;
                drop(path);
                if !goes_on {
                    break;
                }
            }
        }
    }
    drop(script);
    drop(lines);
    Ok(())
}

// Tells what was loaded.
fn greet<R: Eprint + AllocGlobal + Clock>(rt: &R, desk: &Desk<'_>, begun: Option<Instant>) {
    let mut rows: u64 = 0;
    for table in desk.database.tables() {
        rows = rows.saturating_add(u64::from(table.row_count()));
    }
    let millis = micros_since(rt, begun) / 1000;
    let tables = desk.database.tables().len();
    let line = format!(in rt.alloc();
        "ssb: {tables} tables, {rows} rows, {}.{:03} s; .help lists the commands\n",
        millis / 1000,
        millis % 1000
    );
    if let Ok(line) = line {
        let _ = rt.eprint(line.as_str());
    }
}

// Loads the tables of a folder, and goes through the standard input over them.
fn shell_over<R: Host, E: Write + Drop>(
    rt: &R,
    errors: E,
    folder: Folder<'_>,
    catalog: &Catalog,
    options: ShellOptions,
) -> Result<u8, ProgramFault>
    ensures { IfOk result IsStatus }
{
    let begun = Instant::now(rt).ok();
    let database = load(rt, folder, catalog, options.is_watched)?;
    let mut desk = Desk::new(folder, catalog, database, options);
    if options.is_typed {
        greet(rt, &desk, begun);
    }
    let conversed = converse(rt, errors, &mut desk, options.is_typed);
    let status = desk.status();
    drop(desk);
    match conversed {
        Ok(()) => Ok(status),
        Err(fault) => Err(fault),
    }
}

/// Loads the tables of a folder once, answers each statement of the standard input over them, and obeys the
/// commands between these. The status is that of the first fault, 0 where there is none.
pub(crate) fn shell<R: Host, E: Write + Drop>(
    rt: &R,
    errors: E,
    folder: Folder<'_>,
    options: ShellOptions,
) -> Result<u8, ProgramFault>
    ensures { IfOk result IsStatus }
{
    let catalog = catalog_of(rt, folder.catalog)?;
    let status = shell_over(rt, errors, folder, &catalog, options);
    drop(catalog);
    status
}
