// What finishing asks for where all of its one part came back: nothing.

ghost use Rattle.std.specs.Prelude.{◌≡◌, ◌<◌, IfOk, length};
ghost use Rattle.std.specs.Arc.{arc_value};
ghost use Rattle.ssb_groups.specs.Stands.{Stands};
ghost use Rattle.ssb_job.specs.Kept.{AreOneJob};
ghost use Rattle.ssb_pipeline.specs.Pass.{HoldsNone, IsPassOfParts};
ghost use Rattle.ssb_answer.specs.Reply.{seen_rows};

use crate::ends::{Done, Stop};
use crate::files::small_job;
use ssb_answer::{Out, answer_of_groups, write_answer};
use ssb_groups::Groups;
use ssb_job::Job;
use ssb_pipeline::{NoGate, Parts, PartsPass, finish, work};
use std::alloc::Global;
use std::io::Write;
use std::sync::{Arc, Wait};

// How many morsels of the one part were handed out, and how many came back.
fn counts<R: Wait>(rt: &R, parts: &Parts, pass: &mut PartsPass) -> (u32, u32)
    requires section { 0 < length parts.now.queues }
    requires pass { IsPassOfParts parts.now pass.old }
    requires none { HoldsNone pass.old }
    ensures pass { IsPassOfParts parts.now pass.new }
    ensures none { HoldsNone pass.new }
{
    let mut held = parts.take(rt, 0, pass);
    let part = held.part();
    let counts = (part.handed(), part.returned());
    parts.put(rt, held, pass);
    counts
}

// The groups of the one part, finished. Where all four morsels came back before, no refusal may come.
fn finished<R: Wait>(rt: &R, parts: Parts, pass: &mut PartsPass) -> Result<Groups, Stop>
    requires some { 0 < length parts.queues }
    requires size { 0 < parts.size }
    requires pass { IsPassOfParts parts pass.old }
    requires none { HoldsNone pass.old }
    ensures stands { IfOk result (λ g. Stands g (seen_rows parts.job)) }
    ensures job { IfOk result (λ g. AreOneJob g.job parts.job) }
{
    let counts = counts(rt, &parts, pass);
    match finish(rt, parts, pass) {
        Ok(groups) => Ok(groups),
        Err(_) if counts == (4, 4) => Err(Stop::Wrong),
        Err(_) => Err(Stop::Memory),
    }
}

// The same after a worker in the caller's thread.
fn worked<R: Wait>(rt: &R, parts: Parts, pass: &mut PartsPass) -> Result<Groups, Stop>
    requires some { 0 < length parts.queues }
    requires size { 0 < parts.size }
    requires pass { IsPassOfParts parts pass.old }
    requires none { HoldsNone pass.old }
    ensures stands { IfOk result (λ g. Stands g (seen_rows parts.job)) }
    ensures job { IfOk result (λ g. AreOneJob g.job parts.job) }
{
    work(rt, &parts, 0, pass, 1, &NoGate);
    finished(rt, parts, pass)
}

// The groups over all that a job keeps, by one part.
fn groups_of<R: Wait>(rt: &R, alloc: Global, job: &Arc<Job, Global>) -> Result<Groups, Stop>
    ensures stands { IfOk result (λ g. Stands g (seen_rows (arc_value job.now))) }
    ensures job { IfOk result (λ g. AreOneJob g.job (arc_value job.now)) }
{
    let shared = Arc::try_clone(job)?;
    let (parts, mut passes) = Parts::open(rt, alloc, shared, 2, 1, 1)?;
    worked(rt, parts, &mut passes[0])
}

/// A run in the caller's thread: a worker brings all of one part back, and then it is finished.
pub(crate) fn finish_all_back<R: Wait, W: Write + Drop>(
    rt: &R,
    alloc: Global,
    writer: W,
) -> Result<Done, Stop> {
    let job = small_job(alloc)?;
    let groups = groups_of(rt, alloc, &job)?;
    let answer = answer_of_groups(alloc, &job, groups)?;
    write_answer(&answer, &mut Out::new(writer))?;
    Ok(Done::Written)
}
