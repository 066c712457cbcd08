//! What `tests/run_refusals.py` runs while it refuses one growth after the other: trials, over tables that
//! lie in memory. The words name them:
//!
//! - `alone`: a run over the small tables, in the caller's thread
//! - `pieces`: the same, read in pieces of 8 bytes
//! - `threads`: the same by two workers over two parts, two morsels at a time
//! - `sections`: the same, with the fact table in two sections
//! - `finish`: the same by one worker over one part, of which all came back before it is finished
//! - `give_back`: a part takes the groups of its morsels
//! - `merge`: the groups of two sections become one
//! - `partial`: a ticket becomes the groups of its morsel
//! - `block`: a block takes the combinations of all rows of the small tables in place of those of one
//! - `session`: two statements, answered by two workers over the small tables
//! - `plan`: the plan of a query over the small tables, and the rows that its steps leave
//!
//! The first five print the rows of the answer, `session` those of each statement, or the line of memory in
//! place of them, and `plan` its lines. The others print `done`, or `done again` where the call was
//! refused, left what its contract says, and the same call then succeeded. `Memory` comes in place of these where
//! another growth was refused, and `wrong` where something came that may not come. The status is 1 where
//! nothing could be printed, and 2 where a word names no trial.
//!
//! - Files: `ends`, how a trial ends; `files`, `numbers`, the tables; `runs`, `finishing`, the trials that print
//!   rows; `plans`, the one of a plan; `layers`, those of calls that are tried again.
#![tactic(auto)]

mod ends;
mod files;
mod finishing;
mod layers;
mod numbers;
mod plans;
mod runs;

use ends::{Done, Stop};
use finishing::finish_all_back;
use layers::{give_back, join_small, merge_sections, partial_of_ticket};
use plans::tell_plan;
use runs::{run_by_caller, run_by_workers, run_in_pieces, run_over_sections, run_session};
use std::alloc::AllocError;
use std::process::ExitCode;
use std::rt::Env;
use std::sync::Wait;
use std::thread::Threads;
use std::{env, io};

// A word names no trial.
const BAD_WORDS: u8 = 2;

// A write failed.
const FAILED: u8 = 1;

// What a trial prints behind what it wrote.
fn text_of(ended: Result<Done, Stop>) -> &'static str {
    match ended {
        Ok(Done::Written) => "",
        Ok(Done::AtOnce) => "done\n",
        Ok(Done::Again) => "done again\n",
        Err(Stop::Memory) => "Memory\n",
        Err(Stop::Wrong) => "wrong\n",
    }
}

fn print_end<R: Print>(rt: &R, ended: Result<Done, Stop>) -> u8 {
    match rt.print(text_of(ended)) {
        Ok(()) => 0,
        Err(_) => FAILED,
    }
}

// Tries what a word names.
fn act<R: Print + Threads + Wait + Sync + AllocGlobal>(rt: &R, word: &str) -> u8 {
    let ended = match word {
        "alone" => run_by_caller(rt.alloc(), io::writer(rt)),
        "pieces" => run_in_pieces(rt.alloc(), io::writer(rt)),
        "threads" => run_by_workers(rt, rt.alloc(), io::writer(rt)),
        "sections" => run_over_sections(rt, rt.alloc(), io::writer(rt)),
        "finish" => finish_all_back(rt, rt.alloc(), io::writer(rt)),
        "give_back" => give_back(rt.alloc()),
        "merge" => merge_sections(rt.alloc()),
        "partial" => partial_of_ticket(rt.alloc()),
        "block" => join_small(rt.alloc()),
        "session" => run_session(rt, rt.alloc()),
        "plan" => tell_plan(rt.alloc(), io::writer(rt)),
        _ => return BAD_WORDS,
    };
    print_end(rt, ended)
}

// Tries what each word behind the program's name names, up to one that fails.
fn act_on<R: Print + Threads + Wait + Sync + AllocGlobal>(rt: &R, given: &[String]) -> u8 {
    let [_, given @ ..] = given else {
        return 0;
    };
    for word in given {
        let status = act(rt, word.as_str());
        if status != 0 {
            return status;
        }
    }
    0
}

// The words of the command line; an error where memory was refused.
fn words<R: Env + AllocGlobal>(rt: &R) -> io::Result<Vec<String>> {
    let given = env::args(rt)?;
    let collected: Result<Vec<String>, AllocError> = given.collect(rt.alloc());
    Ok(collected?)
}

fn status<R: Print + Env + Threads + Wait + Sync + AllocGlobal>(rt: &R) -> u8 {
    match words(rt) {
        Ok(given) => {
            let status = act_on(rt, given.as_slice());
            drop(given);
            status
        }
        Err(error) if error.kind() == io::ErrorKind::OutOfMemory => {
            print_end(rt, Err(Stop::Memory))
        }
        Err(_) => BAD_WORDS,
    }
}

fn main(rt: HostRuntime) -> ExitCode {
    ExitCode::from(status(&rt))
}
