//! What the bench measures beside `ssb`: reading the records of a file and nothing more, loading the
//! tables of a folder from sections of the fact file, and a query's answer over loaded tables.
//!
//! - `read FILE`: how many records a file has, read with the loader's settings and none of them kept
//! - `load FOLDER THREADS`: the milliseconds of loading the tables of a folder: the fact table's file, where
//!   it has more than 16 MB, in so many sections, each by a thread of its own
//! - `run FOLDER FILE MORSEL TIMES`: the least milliseconds of so many answers to a file's query, by the
//!   caller's thread, in morsels of so many rows; tables are loaded and indexes built once
//! - `run FOLDER FILE MORSEL TIMES WORKERS PARTS BATCH`: the same by so many workers, in threads of their
//!   own, who take up to so many morsels at a time from so many parts
//! - `answer ..`, with the words of `run`: the same from the query's text to the rows, so that the text is read
//!   and indexes are built each time
//!
//! The catalog of a folder lies in it as `catalog`. The status is 1 where a file or a growth failed, or
//! a file is not what it should be, and 2 where the words are others.
//!
//! - Files: `folder`, the files of a folder; `read`, records counted; `load`, loading alone; `tables`, loaded;
//!   `run`, a query's answers, timed.
#![tactic(auto)]

mod folder;
mod load;
mod read;
mod run;
mod tables;

use load::loading_time;
use read::count_records;
use run::{By, Since, answer_time};
use ssb_answer::Settings;
use std::alloc::AllocError;
use std::fs::File;
use std::process::ExitCode;
use std::rt::{Clock, Env, Files};
use std::sync::Wait;
use std::thread::Threads;
use std::{env, fs, io};

// Words that ask for nothing.
const BAD_WORDS: u8 = 2;

// A file, a write or a growth failed.
const FAILED: u8 = 1;

fn words<R: Env + AllocGlobal>(rt: &R) -> Option<Vec<String>> {
    let given = env::args(rt).ok()?;
    let collected: Result<Vec<String>, AllocError> = given.collect(rt.alloc());
    collected.ok()
}

fn status_of(printed: io::Result<()>) -> u8 {
    match printed {
        Ok(()) => 0,
        Err(_) => FAILED,
    }
}

// Prints how many records a file has.
fn print_count<R: Files + Print + AllocGlobal>(rt: &R, given: &[String]) -> u8 {
    let [path] = given else {
        return BAD_WORDS;
    };
    let Ok(file) = fs::open(rt, path.as_str()) else {
        return FAILED;
    };
    let Ok(count) = count_records(rt.alloc(), file) else {
        return FAILED;
    };
    status_of(println!(rt; "{count}"))
}

fn print_micros<R: Print>(rt: &R, what: &str, micros: u128) -> io::Result<()> {
    let whole = micros / 1000;
    let rest = micros % 1000;
    println!(rt; "{what} {whole}.{rest:03} ms")
}

// Prints the milliseconds of loading in so many threads.
fn print_loading_time<R: Files<File = File> + Clock + Print + Threads + Wait + Sync + AllocGlobal>(
    rt: &R,
    given: &[String],
) -> u8 {
    let [folder, threads] = given else {
        return BAD_WORDS;
    };
    let Ok(threads) = threads.parse() else {
        return BAD_WORDS;
    };
    let Some(micros) = loading_time(rt, folder.as_str(), threads) else {
        return FAILED;
    };
    status_of(print_micros(rt, "loading", micros))
}

fn alone(morsel_size: &str) -> Option<By> {
    Some(By::Alone(Settings::new(1, morsel_size.parse().ok()?, 1)?))
}

fn workers(workers: &str, morsel_size: &str, parts: &str, batch: &str) -> Option<By> {
    let workers = workers.parse().ok()?;
    let morsel_size = morsel_size.parse().ok()?;
    let parts = parts.parse().ok()?;
    let batch = batch.parse().ok()?;
    let settings = Settings::new(workers, morsel_size, parts)?.with_batch(batch)?;
    Some(By::Workers(settings))
}

// Prints the least milliseconds of so many answers, given by such workers.
fn print_least<R: Files + Clock + Print + Threads + Wait + Sync + AllocGlobal>(
    rt: &R,
    files: [&str; 2],
    since: Since,
    by: Option<By>,
    times: &str,
) -> u8 {
    let (Some(by), Ok(times)) = (by, times.parse()) else {
        return BAD_WORDS;
    };
    let Some(micros) = answer_time(rt, files, since, by, times) else {
        return FAILED;
    };
    status_of(print_micros(rt, "answering", micros))
}

// Prints how long an answer over loaded tables took.
fn print_answer_time<R: Files + Clock + Print + Threads + Wait + Sync + AllocGlobal>(
    rt: &R,
    since: Since,
    given: &[String],
) -> u8 {
    let by = match given {
        [_, _, morsel_size, _] => alone(morsel_size.as_str()),
        [_, _, morsel_size, _, count, parts, batch] => workers(
            count.as_str(),
            morsel_size.as_str(),
            parts.as_str(),
            batch.as_str(),
        ),
        _ => None,
    };
    let [folder, path, _, times, ..] = given else {
        return BAD_WORDS;
    };
    print_least(
        rt,
        [folder.as_str(), path.as_str()],
        since,
        by,
        times.as_str(),
    )
}

// Does what the words ask, and gives the exit status.
fn act<R: Files<File = File> + Clock + Print + Threads + Wait + Sync + AllocGlobal>(
    rt: &R,
    given: &[String],
) -> u8 {
    let [_, command, given @ ..] = given else {
        return 0;
    };
    let command = command.as_str();
    if command == "read" {
        print_count(rt, given)
    } else if command == "load" {
        print_loading_time(rt, given)
    } else if command == "run" {
        print_answer_time(rt, Since::Job, given)
    } else if command == "answer" {
        print_answer_time(rt, Since::Text, given)
    } else {
        BAD_WORDS
    }
}

fn status<R: Files<File = File> + Clock + Print + Env + Threads + Wait + Sync + AllocGlobal>(
    rt: &R,
) -> u8 {
    let Some(given) = words(rt) else {
        return FAILED;
    };
    let status = act(rt, given.as_slice());
    drop(given);
    status
}

fn main(rt: HostRuntime) -> ExitCode {
    ExitCode::from(status(&rt))
}
