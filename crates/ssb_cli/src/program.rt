// The program: words, files, a run or a session, and one line and a status for a fault. What holds much is
// let go by a call of `drop`, since the prover writes out all that it holds where the end of a scope lets
// go of it.

ghost use Rattle.std.specs.Prelude.{IfOk};
ghost use Rattle.ssb_files.specs.Faults.{IsStatus};

use crate::explain::{Explaining, explain};
use crate::folder::Folder;
use crate::host::Host;
use crate::run::{Showing, run};
use crate::shell::{ShellOptions, shell};
use crate::tell::{print_text, tell};
use ssb_answer::{Settings, query_of};
use ssb_files::{ProgramFault, catalog_of, read_query};
use ssb_load::Catalog;
use ssb_words::{Tables, Task, WordsFault, task_of};
use std::alloc::AllocError;
use std::fs::File;
use std::io::Write;
use std::rt::{Env, Files};
use std::{env, io};

/// Which of the program's streams are terminals.
#[derive(Clone, Copy)]
pub(crate) struct Terminals {
    pub(crate) input: bool,
    pub(crate) errors: bool,
}

// Says `ok` of a file's text that means something over the catalog.
fn check_over<R: Files + Print + AllocGlobal>(
    rt: &R,
    query: &str,
    catalog: &Catalog,
) -> Result<(), ProgramFault> {
    let text = read_query(rt, query)?;
    let asked = query_of(rt.alloc(), catalog, text.as_str());
    drop(text);
    match asked {
        Ok(query) => {
            drop(query);
            print_text(rt, "ok\n")
        }
        Err(fault) => Err(ProgramFault::Run {
            names: Vec::new(rt.alloc()),
            fault,
        }),
    }
}

fn check<R: Files + Print + AllocGlobal>(
    rt: &R,
    query: &str,
    catalog: Option<&str>,
) -> Result<(), ProgramFault> {
    let catalog = catalog_of(rt, catalog)?;
    let checked = check_over(rt, query, &catalog);
    drop(catalog);
    checked
}

fn words<R: Env + AllocGlobal>(rt: &R) -> Result<Vec<String>, ProgramFault> {
    let given = match env::args(rt) {
        Ok(given) => given,
        Err(error) if error.kind() == io::ErrorKind::OutOfMemory => {
            return Err(ProgramFault::Memory);
        }
        Err(_) => return Err(ProgramFault::BadWords),
    };
    let collected: Result<Vec<String>, AllocError> = given.collect(rt.alloc());
    match collected {
        Ok(given) => Ok(given),
        Err(_) => Err(ProgramFault::Memory),
    }
}

fn print_help<R: Print + AllocGlobal>(rt: &R, help: String) -> Result<(), ProgramFault> {
    let printed = print_text(rt, help.as_str());
    drop(help);
    printed
}

// The status of work that leaves no other.
fn done(work: Result<(), ProgramFault>) -> Result<u8, ProgramFault>
    ensures { IfOk result IsStatus }
{
    match work {
        Ok(()) => Ok(0),
        Err(fault) => Err(fault),
    }
}

// Where the tables lie, and how the work over them is cut, where the numbers are in their ranges.
fn folder_of<'a>(tables: Tables<'a>) -> Result<Folder<'a>, ProgramFault> {
    let Tables {
        data,
        catalog,
        workers,
        morsel,
        parts,
        batch,
    } = tables;
    match Settings::with_defaults(workers, morsel, parts, batch) {
        Some(settings) => Ok(Folder {
            data,
            catalog,
            settings,
        }),
        None => Err(ProgramFault::BadWords),
    }
}

fn act_on_task<R: Host, E: Write + Drop>(
    rt: &R,
    errors: E,
    terminals: Terminals,
    task: Task<'_>,
) -> Result<u8, ProgramFault>
    ensures { IfOk result IsStatus }
{
    match task {
        Task::Run {
            tables,
            query,
            headers,
            timing,
        } => {
            let showing = Showing {
                headers,
                timing,
                is_watched: terminals.errors,
            };
            done(run(rt, folder_of(tables)?, query, showing))
        }
        Task::Explain {
            tables,
            query,
            analyze,
        } => {
            let explaining = Explaining {
                analyzes: analyze,
                is_watched: terminals.errors,
            };
            done(explain(rt, folder_of(tables)?, query, explaining))
        }
        Task::Shell { tables, stop } => {
            let options = ShellOptions {
                stops: stop,
                is_typed: terminals.input && terminals.errors,
                is_watched: terminals.errors,
            };
            shell(rt, errors, folder_of(tables)?, options)
        }
        Task::Check { query, catalog } => done(check(rt, query, catalog)),
    }
}

// What comes of words that ask for no task.
fn act_on_fault<R: Print + AllocGlobal>(rt: &R, fault: WordsFault) -> Result<(), ProgramFault> {
    match fault {
        WordsFault::Help(help) => print_help(rt, help),
        WordsFault::Bad => Err(ProgramFault::BadWords),
        WordsFault::Memory => Err(ProgramFault::Memory),
    }
}

// Does what these words ask.
fn act_on<R: Host, E: Write + Drop>(
    rt: &R,
    errors: E,
    terminals: Terminals,
    given: &[String],
) -> Result<u8, ProgramFault>
    ensures { IfOk result IsStatus }
{
    match task_of(rt.alloc(), given) {
        Ok(task) => act_on_task(rt, errors, terminals, task),
        Err(fault) => done(act_on_fault(rt, fault)),
    }
}

fn act<R: Host, E: Write + Drop>(
    rt: &R,
    errors: E,
    terminals: Terminals,
) -> Result<u8, ProgramFault>
    ensures { IfOk result IsStatus }
{
    let given = words(rt)?;
    let acted = act_on(rt, errors, terminals, given.as_slice());
    drop(given);
    acted
}

/// Does what the words of the command line ask, and gives the exit status. The writer is the error output,
/// for what a session tells.
pub(crate) fn status_of_program<R: Host, E: Write + Drop>(
    rt: &R,
    errors: E,
    terminals: Terminals,
) -> u8
    ensures { IsStatus result }
{
    match act(rt, errors, terminals) {
        Ok(status) => status,
        Err(fault) => {
            let status = tell(rt, &fault);
            drop(fault);
            status
        }
    }
}
