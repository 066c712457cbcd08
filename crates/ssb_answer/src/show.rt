// Answers as people read them.

ghost use Rattle.std.specs.Prelude.{◌≡◌, map, string_bytes};
ghost use Rattle.std.specs.Arc.{arc_value};
ghost use Rattle.ssb_answer.specs.Asking.{Asked};
ghost use Rattle.ssb_answer.specs.Showing.{PlainShowsReplies, ShowsOfFiles, ShowsOver};
ghost use Rattle.ssb_answer.specs.ShownStep.{AnswersTitled, ShowsTitled, TitlesJob};
ghost use Rattle.ssb_reply.specs.Running.{LeavesSink};
ghost use Rattle.ssb_rows.specs.Taking.{GrewAlike};

use crate::context::Context;
use crate::database::Database;
use crate::whole::answer_shared;
use ssb_catalog::Catalog;
use ssb_job::Job;
use ssb_pipeline::Gate;
use ssb_reply::RunFault;
use ssb_rows::{Answer, Sink};
use ssb_show::{Shape, write_shown};
use ssb_spelling::titles;
use std::alloc::Global;
use std::sync::{Arc, Wait};
use std::thread::Threads;

/// How far a text has come.
#[derive(Clone, Copy, PartialEq, Eq, Debug)]
pub enum Lap {
    /// It is at hand, and has not been read.
    Begun,
    /// Its query was read and bound.
    Read,
    /// Its rows were worked out.
    Answered,
    /// They were written.
    Written,
}

/// What is told of each lap that a text has reached, so that a program can time it. The call returns, and
/// what it does changes no answer.
pub trait Laps {
    /// A lap was reached.
    fn reached(&mut self, lap: Lap);
}

/// Laps that nobody counts.
#[derive(Drop)]
pub struct NoLaps;

impl Laps for NoLaps {
    fn reached(&mut self, _lap: Lap) {}
}

fn tell_if<T: Laps>(laps: &mut T, is_done: bool, lap: Lap) {
    if is_done {
        laps.reached(lap);
    }
}

/// Rows, and the titles of their columns.
#[derive(Drop)]
pub struct Titled {
    titles: Vec<String>,
    answer: Answer,
}

// What a job's query answers, worked out by workers, with its titles.
fn answer_titled<R: Threads + Wait + Sync, G: Gate + Sync>(
    context: &Context<'_, R, G>,
    catalog: &Catalog,
    job: &Arc<Job, Global>,
) -> Result<Titled, RunFault>
    ensures { TitlesJob catalog.now (arc_value job.now) result }
{
    let Ok(titles) = titles(context.alloc, catalog, job.query()) else {
        return Err(RunFault::Memory);
    };
    let answer = answer_shared(context, job)?;
    Ok(Titled { titles, answer })
}

// Writes what a text answers in a shape.
fn write_titled<W: Sink>(
    alloc: Global,
    shape: Shape,
    titled: Result<Titled, RunFault>,
    out: &mut W,
) -> Result<(), RunFault>
    ensures shows { ShowsTitled shape titled result (W.taken out.old) (W.taken out.new) (W.failures out.old) (W.failures out.new) }
    ensures holds { GrewAlike (W.taken out.old) (W.taken out.new) (W.contents out.old) (W.contents out.new) }
{
    let titled = titled?;
    write_shown(alloc, shape, titled.titles.as_slice(), &titled.answer, out)?;
    Ok(())
}

impl Database<'_> {
    // What a text asks of the tables, worked out by workers, with the titles of its query.
    fn titled_answer<R: Threads + Wait + Sync, G: Gate + Sync, T: Laps>(
        &self,
        context: &Context<'_, R, G>,
        text: &str,
        laps: &mut T,
    ) -> Result<Titled, RunFault>
        ensures { AnswersTitled self.now.catalog self.now.tables text.now result }
    {
        let job = self.job(context.alloc, text)?;
        laps.reached(Lap::Read);
        let answered = answer_titled(context, self.catalog(), &job);
        drop(job);
        tell_if(laps, answered.is_ok(), Lap::Answered);
        answered
    }

    /// [`answer`](Self::answer), with the rows in a shape and under the titles of the query's select columns.
    /// It tells of each lap that it reached: once the query was read, once its rows were worked out, and
    /// once they were written.
    ///
    /// # Errors
    ///
    /// As of [`answer`](Self::answer): nothing is written with any fault but `Answer(Write)`, and with that
    /// a beginning of what is shown.
    pub fn show<R: Threads + Wait + Sync, G: Gate + Sync, T: Laps, W: Sink>(
        &self,
        context: &Context<'_, R, G>,
        text: &str,
        shape: Shape,
        laps: &mut T,
        out: &mut W,
    ) -> Result<(), RunFault>
        ensures shows { ShowsOver self.now.catalog self.now.tables shape text.now result (W.taken out.old) (W.taken out.new) (W.failures out.old) (W.failures out.new) }
        ensures sink { LeavesSink result (W.taken out.old) (W.taken out.new) (W.failures out.old) (W.failures out.new) (W.contents out.old) (W.contents out.new) }
    {
        let titled = self.titled_answer(context, text, laps);
        let written = write_titled(context.alloc, shape, titled, out);
        tell_if(laps, written.is_ok(), Lap::Written);
        written
    }
}

/// A law: the plain shape shows just what is replied.
pub fn plain_shows_replies()
    ensures { PlainShowsReplies }
{}

/// A law: what is shown over the tables that were loaded of files is what is shown of those files.
pub fn shows_of_files()
    ensures { ShowsOfFiles }
{}
