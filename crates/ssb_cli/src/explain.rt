// `ssb explain`: the plan of a query over the tables of a folder.

use crate::folder::{Folder, fault_over};
use crate::host::Host;
use crate::loading::load;
use crate::run::text_of;
use crate::tell::print_text;
use crate::timing::Stopwatch;
use ssb_answer::{Database, Out, RunFault, Watch};
use ssb_files::{ProgramFault, catalog_of};
use ssb_load::Catalog;
use ssb_words::QuerySource;
use std::alloc::Global;
use std::io;

// What people see of a plan, and beside it.
#[derive(Clone, Copy)]
pub(crate) struct Explaining {
    // How many rows each step tests and keeps, and how long it takes.
    pub(crate) analyzes: bool,
    // How far a long load is.
    pub(crate) is_watched: bool,
}

// Puts the line of an answer that took so long behind the lines of a plan.
fn with_answer(alloc: Global, plan: String, micros: u64) -> Result<String, RunFault> {
    let mut plan = plan;
    let Ok(line) = format!(in alloc; "answer: {} ms\n", micros / 1000) else {
        return Err(RunFault::Memory);
    };
    let pushed = plan.push_str(line.as_str());
    drop(line);
    match pushed {
        Ok(()) => Ok(plan),
        Err(_) => Err(RunFault::Memory),
    }
}

// The microseconds that an answer takes in this thread. Nobody sees its rows.
fn micros_of_answer<W: Watch>(
    alloc: Global,
    folder: Folder<'_>,
    database: &Database<'_>,
    text: &str,
    watch: &mut W,
) -> Result<u64, RunFault> {
    let _ = watch.lap();
    let mut rows = Out::new(io::sink());
    let answered = database.answer_alone(alloc, text, folder.settings.morsel_size, &mut rows);
    drop(rows);
    match answered {
        Ok(()) => Ok(watch.lap()),
        Err(fault) => Err(fault),
    }
}

// The plan of a text with the rows and times of its steps, and the time of the answer.
fn analyzed<R: Host>(
    rt: &R,
    folder: Folder<'_>,
    database: &Database<'_>,
    text: &str,
) -> Result<String, RunFault> {
    let mut watch = Stopwatch::start(rt);
    let plan = database.analyze(rt.alloc(), text, &mut watch)?;
    match micros_of_answer(rt.alloc(), folder, database, text, &mut watch) {
        Ok(micros) => with_answer(rt.alloc(), plan, micros),
        Err(fault) => {
            drop(plan);
            Err(fault)
        }
    }
}

// Prints the plan of a text over the tables of a folder.
fn explain_text<R: Host>(
    rt: &R,
    folder: Folder<'_>,
    catalog: &Catalog,
    text: &str,
    explaining: Explaining,
) -> Result<(), ProgramFault> {
    let database = load(rt, folder, catalog, explaining.is_watched)?;
    let explained = if explaining.analyzes {
        analyzed(rt, folder, &database, text)
    } else {
        database.explain(rt.alloc(), text)
    };
    drop(database);
    match explained {
        Ok(plan) => {
            let printed = print_text(rt, plan.as_str());
            drop(plan);
            printed
        }
        Err(fault) => Err(fault_over(rt.alloc(), catalog, fault)),
    }
}

// Prints the plan of a query over the tables of a folder, by a catalog.
fn explain_over<R: Host>(
    rt: &R,
    folder: Folder<'_>,
    catalog: &Catalog,
    query: QuerySource<'_>,
    explaining: Explaining,
) -> Result<(), ProgramFault> {
    let text = text_of(rt, query)?;
    let explained = explain_text(rt, folder, catalog, text.as_str(), explaining);
    drop(text);
    explained
}

/// Loads the tables of a folder as `ssb run` does, and prints the plan of a query over them. Where people watch,
/// a long load shows how far it is.
pub(crate) fn explain<R: Host>(
    rt: &R,
    folder: Folder<'_>,
    query: QuerySource<'_>,
    explaining: Explaining,
) -> Result<(), ProgramFault> {
    let catalog = catalog_of(rt, folder.catalog)?;
    let explained = explain_over(rt, folder, &catalog, query, explaining);
    drop(catalog);
    explained
}
