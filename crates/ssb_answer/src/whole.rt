// The whole path, from the bytes of files to the bytes of the answer.

ghost use Rattle.std.specs.Prelude.{◌≡◌, length};
ghost use Rattle.std.specs.Arc.{arc_value};
ghost use Rattle.ssb_answer.specs.Asking.{Asked};
ghost use Rattle.ssb_answer.specs.Writing.{Writes};
ghost use Rattle.ssb_groups.specs.Stands.{Stands};
ghost use Rattle.ssb_job.specs.Kept.{AreOneJob};
ghost use Rattle.ssb_reply.specs.Reply.{seen_rows};
ghost use Rattle.ssb_reply.specs.Running.{LeavesSink, RunsFrom};
ghost use Rattle.ssb_rows.specs.Result.{Answers};
ghost use Rattle.ssb_rows.specs.Taking.{GrewAlike};

use crate::context::Context;
use crate::database::Database;
use crate::grouping::group_shared;
use ssb_bind::bind;
use ssb_catalog::Catalog;
use ssb_groups::Groups;
use ssb_job::Job;
use ssb_lanes::Joined;
use ssb_pipeline::Gate;
use ssb_query::Query;
use ssb_records::Source;
use ssb_reply::RunFault;
use ssb_rows::{Answer, AnswerFault, Sink, rows, write_answer};
use ssb_sql::read;
use std::alloc::Global;
use std::sync::{Arc, Wait};
use std::thread::Threads;

/// The query that a text asks over a catalog.
///
/// # Errors
///
/// `Sql` where the text is no query, `Bind` where the query means nothing over the catalog; `Memory` where a
/// growth was refused.
pub fn query_of(alloc: Global, catalog: &Catalog, text: &str) -> Result<Query, RunFault>
    ensures { Asked catalog.now text.now result }
{
    let select = read(alloc, text)?;
    let query = bind(alloc, catalog, select)?;
    Ok(query)
}

/// The rows of a job's answer, of the groups over all that its query keeps.
///
/// # Errors
///
/// As of [`rows`].
pub fn answer_of_groups(alloc: Global, job: &Job, groups: Groups) -> Result<Answer, AnswerFault>
    requires stands { Stands groups (seen_rows job.now) }
    requires job { AreOneJob groups.job job.now }
    ensures { Answers job.now.query (seen_rows job.now) result }
{
    rows(alloc, groups, job.query())
}

/// What a job's query answers: its rows are grouped by workers in threads of their own, which may wait
/// for each other. How their work is cut and shared changes no answer.
///
/// # Errors
///
/// As of [`rows`]; `Memory` also where a growth was refused on the way to the groups.
pub fn answer_shared<R: Threads + Wait + Sync, G: Gate + Sync>(
    context: &Context<'_, R, G>,
    job: &Arc<Job, Global>,
) -> Result<Answer, AnswerFault>
    ensures { Answers (arc_value job.now).query (seen_rows (arc_value job.now)) result }
{
    match group_shared(context, job) {
        Ok(groups) => answer_of_groups(context.alloc, job, groups),
        Err(_) => Err(AnswerFault::Memory),
    }
}

/// Writes what a text answers.
///
/// # Errors
///
/// The fault that the text has for an answer, with nothing written; `Answer(Write)` only where the sink
/// failed, and then what it took is a beginning of the rows.
pub fn write_answered<W: Sink>(
    answered: Result<Answer, RunFault>,
    out: &mut W,
) -> Result<(), RunFault>
    ensures writes { Writes answered result (W.taken out.old) (W.taken out.new) (W.failures out.old) (W.failures out.new) }
    ensures holds { GrewAlike (W.taken out.old) (W.taken out.new) (W.contents out.old) (W.contents out.new) }
{
    write_answer(&answered?, out)?;
    Ok(())
}

/// Answers a query over the tables of a catalog, each of what its sources give, in the catalog's order,
/// and writes the answer's rows. It loads all tables, reads the query, binds it, answers and writes;
/// the first fault ends it, and nothing is written before the answer is complete.
///
/// One worker loads in the caller's thread. Otherwise a table without a key is read from the sources that
/// stand joined for it in at most a thread for each worker, of which one loads the other tables too; then
/// workers take the morsels of the fact table from parts, and make the groups of each in threads of their
/// own. They may wait for each other. How a table's bytes are cut into sources, how many workers and parts there are,
/// and how large a morsel is, changes no answer.
///
/// # Errors
///
/// `Load` with the number of the table, from 0; `Sql`, `Bind` and `Answer` as the query has it; a
/// `Load` with `Read` only where a read of that table's source failed, and `Answer(Write)` only where
/// the sink failed, and then what it took is a beginning of the answer; `Memory` where a growth was
/// refused.
pub fn run_from<R: Threads + Wait + Sync, S: Source + Send + Drop, G: Gate + Sync, W: Sink>(
    context: &Context<'_, R, G>,
    catalog: &Catalog,
    sources: &mut [Joined<S>],
    text: &str,
    out: &mut W,
) -> Result<(), RunFault>
    requires sources { length sources.old ≡ length catalog.now }
    ensures runs { let source = ⟦<Joined<S> as Source>⟧ in RunsFrom source.given source.failures source.ends source.whole catalog.now text.now sources.old sources.new result (W.taken out.old) (W.taken out.new) }
    ensures sink { LeavesSink result (W.taken out.old) (W.taken out.new) (W.failures out.old) (W.failures out.new) (W.contents out.old) (W.contents out.new) }
{
    let (rt, alloc, settings) = (context.rt, context.alloc, context.settings);
    let database = Database::load(rt, alloc, catalog, sources, settings)?;
    database.answer(context, text, out)
}
