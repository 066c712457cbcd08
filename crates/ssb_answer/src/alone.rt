// The whole path in the caller's thread, which waits for nobody.

ghost use Rattle.std.specs.Prelude.{◌≡◌, ◌<◌, IfOk, length};
ghost use Rattle.std.specs.Arc.{arc_value};
ghost use Rattle.ssb_groups.specs.Stands.{Stands};
ghost use Rattle.ssb_job.specs.Kept.{AreOneJob};
ghost use Rattle.ssb_reply.specs.Reply.{seen_rows};
ghost use Rattle.ssb_reply.specs.Running.{LeavesSink, RunsFrom};
ghost use Rattle.ssb_rows.specs.Result.{Answers};

use crate::database::Database;
use crate::whole::answer_of_groups;
use ssb_catalog::Catalog;
use ssb_groups::Groups;
use ssb_job::Job;
use ssb_pipeline::{Part, every_run};
use ssb_records::Source;
use ssb_reply::RunFault;
use ssb_rows::{Answer, AnswerFault, Sink};
use std::alloc::{AllocError, Global};
use std::sync::Arc;

// One part of all morsels, worked off in this thread.
pub(crate) fn group_alone(
    alloc: Global,
    job: &Arc<Job, Global>,
    morsel_size: u32,
) -> Result<Groups, AllocError>
    requires { 0 < morsel_size }
    ensures stands { IfOk result (λ g. Stands g (seen_rows (arc_value job.now))) }
    ensures job { IfOk result (λ g. AreOneJob g.job (arc_value job.now)) }
{
    // For the prover: the law of parts, and that the fact table is one of the query's.
    every_run();
    let _query = job.query();
    let mut part = Part::open(alloc, Arc::try_clone(job)?, morsel_size, 0, 1)?;
    part.work_off()?;
    Ok(part.into_groups())
}

/// What a job's query answers: its rows are grouped in the caller's thread, in morsels of
/// `morsel_size` rows of the fact table, from 1 on. Their size changes no answer.
///
/// # Errors
///
/// As of [`answer_of_groups`]; `Memory` also where a growth was refused on the way to the groups.
pub fn answer_job(
    alloc: Global,
    job: &Arc<Job, Global>,
    morsel_size: u32,
) -> Result<Answer, AnswerFault>
    requires { 0 < morsel_size }
    ensures { Answers (arc_value job.now).query (seen_rows (arc_value job.now)) result }
{
    match group_alone(alloc, job, morsel_size) {
        Ok(groups) => answer_of_groups(alloc, job, groups),
        Err(_) => Err(AnswerFault::Memory),
    }
}

/// How much is taken at once in one thread. Neither size changes an answer.
#[derive(Clone, Copy, PartialEq, Eq, Debug)]
pub struct Sizes {
    /// How many rows of the fact table, from 1 on.
    pub morsel_size: u32,
    /// How many bytes of a source; more where a line is longer.
    pub piece_size: usize,
}

/// Answers a query over the tables of a catalog, each of what its source gives, in the catalog's order,
/// and writes the answer's rows, as [`run_from`](crate::run_from) does. The caller's thread does all
/// of it, in pieces and morsels of these sizes, and waits for nobody.
///
/// # Errors
///
/// As of [`run_from`](crate::run_from).
pub fn run_alone_from<S: Source, W: Sink>(
    alloc: Global,
    catalog: &Catalog,
    sources: &mut [S],
    text: &str,
    sizes: Sizes,
    out: &mut W,
) -> Result<(), RunFault>
    requires sources { length sources.old ≡ length catalog.now }
    requires size { 0 < sizes.morsel_size }
    ensures runs { RunsFrom S.given S.failures S.ends S.whole catalog.now text.now sources.old sources.new result (W.taken out.old) (W.taken out.new) }
    ensures sink { LeavesSink result (W.taken out.old) (W.taken out.new) (W.failures out.old) (W.failures out.new) (W.contents out.old) (W.contents out.new) }
{
    let database = Database::load_alone(alloc, catalog, sources, sizes.piece_size)?;
    database.answer_alone(alloc, text, sizes.morsel_size, out)
}
