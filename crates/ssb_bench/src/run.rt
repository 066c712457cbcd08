// A query's time over loaded tables: of the answer alone, whose job is there and has its indexes built, and from
// its text on, whose job is made each time.

use crate::folder::catalog_in;
use crate::tables::{database_in, micros_since};
use ssb_answer::{
    Answer, AnswerFault, Context, Database, NoGate, Settings, answer_job, answer_shared,
};
use ssb_job::Job;
use std::alloc::Global;
use std::fs;
use std::rt::{Clock, Files};
use std::sync::{Arc, Wait};
use std::thread::Threads;
use std::time::Instant;

/// Who answers a query, and in morsels of how many rows.
#[derive(Clone, Copy)]
pub(crate) enum By {
    /// The caller's thread.
    Alone(Settings),
    /// Workers in threads of their own.
    Workers(Settings),
}

fn answer_by<R: Threads + Wait + Sync + AllocGlobal>(
    rt: &R,
    job: &Arc<Job, Global>,
    by: By,
) -> Result<Answer, AnswerFault> {
    match by {
        By::Alone(settings) => answer_job(rt.alloc(), job, settings.morsel_size),
        By::Workers(settings) => {
            let context = Context {
                rt,
                alloc: rt.alloc(),
                settings,
                gate: &NoGate,
            };
            answer_shared(&context, job)
        }
    }
}

/// From where on an answer is timed.
#[derive(Clone, Copy)]
pub(crate) enum Since {
    /// From its job on, which is made once.
    Job,
    /// From the query's text on.
    Text,
}

// What is answered again and again.
#[derive(Clone, Copy)]
enum Asked<'a, 'd> {
    Job(&'a Arc<Job, Global>),
    Text(&'a Database<'d>, &'a str),
}

// One answer; none where there is a fault in its place.
fn answer_of<R: Threads + Wait + Sync + AllocGlobal>(
    rt: &R,
    asked: Asked<'_, '_>,
    by: By,
) -> Option<Answer> {
    match asked {
        Asked::Job(job) => answer_by(rt, job, by).ok(),
        Asked::Text(database, text) => {
            let job = database.job(rt.alloc(), text).ok()?;
            let answered = answer_by(rt, &job, by);
            drop(job);
            answered.ok()
        }
    }
}

// How long one answer takes, in microseconds; none where there is a fault in its place.
fn time_of<R: Clock + Threads + Wait + Sync + AllocGlobal>(
    rt: &R,
    asked: Asked<'_, '_>,
    by: By,
) -> Option<u128> {
    let start = Instant::now(rt).ok()?;
    let answer = answer_of(rt, asked, by)?;
    let time = micros_since(rt, start);
    drop(answer);
    time
}

// The least of so many.
fn least_of<R: Clock + Threads + Wait + Sync + AllocGlobal>(
    rt: &R,
    asked: Asked<'_, '_>,
    by: By,
    times: u32,
) -> Option<u128> {
    let mut least = u128::MAX;
    for _ in 0..times {
        least = least.min(time_of(rt, asked, by)?);
    }
    Some(least)
}

// The least over a database.
fn least_over<R: Clock + Threads + Wait + Sync + AllocGlobal>(
    rt: &R,
    database: &Database<'_>,
    text: &str,
    since: Since,
    by: By,
    times: u32,
) -> Option<u128> {
    match since {
        Since::Text => least_of(rt, Asked::Text(database, text), by, times),
        Since::Job => {
            let job = database.job(rt.alloc(), text).ok()?;
            let least = least_of(rt, Asked::Job(&job), by, times);
            drop(job);
            least
        }
    }
}

/// The least microseconds of so many answers of a query's file over the tables of a folder, whose catalog lies in it
/// as `catalog`; none where a file is missing, or is not what it should be.
pub(crate) fn answer_time<R: Files + Clock + Threads + Wait + Sync + AllocGlobal>(
    rt: &R,
    files: [&str; 2],
    since: Since,
    by: By,
    times: u32,
) -> Option<u128> {
    let [folder, path] = files;
    let catalog = catalog_in(rt, folder)?;
    let text = fs::read_to_string(rt, path).ok()?;
    let database = database_in(rt, folder, &catalog)?;
    let least = least_over(rt, &database, text.as_str(), since, by, times);
    drop(database);
    least
}
