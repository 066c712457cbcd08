//! What one who embeds the engine writes: a catalog and two files in memory, a query over them, its rows, and
//! the line of a query's fault. `docs/EMBEDDING.md` walks through it.
#![tactic(auto)]

use ssb_answer::{NoGate, Out, RunFault, Settings, run, run_line};
use ssb_load::{Catalog, LoadFault};
use std::io;
use std::process::ExitCode;
use std::sync::Wait;
use std::thread::Threads;

// Which tables there are, and what each of their columns takes. The fact table is the one without a key.
const CATALOG: &[u8] =
    b"sale|item|int|null\nsale|price|int|null\nproduct|id|int|key\nproduct|name|text|need\n";

// The file of each table, in the catalog's order. An empty field is null.
const FILES: [&[u8]; 2] = [b"1|300\n2|450\n1|250\n2|\n", b"1|tea\n2|coffee\n"];

const TOTALS: &str =
    "select name, sum(price), count(*) from sale, product where item = id group by name order by 2 desc";

const MISSPELT: &str = "select sum(prize) from sale";

// Why there is no answer.
#[derive(Drop)]
enum Failure {
    Catalog(LoadFault),
    // As many files as the catalog has tables are asked for, and settings in their ranges.
    Misuse,
    Run(RunFault),
}

// Writes the answer's rows to the standard output, by two workers over morsels of 10,000 rows.
fn answer<R: AllocGlobal + Print + Threads + Wait + Sync>(
    rt: &R,
    text: &str,
) -> Result<(), Failure> {
    let alloc = rt.alloc();
    let catalog = Catalog::read(alloc, CATALOG).map_err(Failure::Catalog)?;
    let files = Vec::from_array(alloc, FILES).map_err(|_| Failure::Run(RunFault::Memory))?;
    let settings = Settings::new(2, 10_000, 1).ok_or(Failure::Misuse)?;
    if files.len() != catalog.tables().len() {
        return Err(Failure::Misuse);
    }
    let mut out = Out::new(io::writer(rt));
    run(rt, alloc, catalog, files, text, settings, &NoGate, &mut out).map_err(Failure::Run)
}

// Prints the answer's rows, or what went wrong.
fn show<R: AllocGlobal + Print + Threads + Wait + Sync>(rt: &R, text: &str) -> io::Result<()> {
    match answer(rt, text) {
        Ok(()) => Ok(()),
        Err(Failure::Run(fault)) => rt.print(run_line(rt.alloc(), "table", &fault)?.as_str()),
        Err(Failure::Catalog(_)) => rt.print("no catalog\n"),
        Err(Failure::Misuse) => rt.print("another number of files, or settings out of range\n"),
    }
}

fn main(rt: HostRuntime) -> io::Result<ExitCode> {
    show(&rt, TOTALS)?;
    show(&rt, MISSPELT)?;
    Ok(ExitCode::SUCCESS)
}
