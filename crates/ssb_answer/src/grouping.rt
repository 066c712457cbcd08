// The groups over all rows that a query keeps, by workers.

ghost use Rattle.std.specs.Prelude.{IfOk};
ghost use Rattle.std.specs.Arc.{arc_value};
ghost use Rattle.ssb_job.specs.Kept.{AreOneJob};
ghost use Rattle.ssb_groups.specs.Stands.{Stands};
ghost use Rattle.ssb_reply.specs.Reply.{seen_rows};

use crate::alone::group_alone;
use crate::context::Context;
use ssb_groups::Groups;
use ssb_job::Job;
use ssb_pipeline::{Gate, Parts, finish, run_batches};
use ssb_reply::Settings;
use std::alloc::{AllocError, Global};
use std::sync::{Arc, Wait};
use std::thread::Threads;

// One part for each section of the morsels, and one pass for each worker, of whom there are as many as morsels
// at the most; what the workers leave is done in this thread. Where there is at most one
// morsel, this thread works it off without a queue.
pub(crate) fn group_shared<R: Threads + Wait + Sync, G: Gate + Sync>(
    context: &Context<'_, R, G>,
    job: &Arc<Job, Global>,
) -> Result<Groups, AllocError>
    ensures stands { IfOk result (λ g. Stands g (seen_rows (arc_value job.now))) }
    ensures job { IfOk result (λ g. AreOneJob g.job (arc_value job.now)) }
{
    let Settings {
        workers,
        morsel_size,
        parts,
        batch,
    } = context.settings;
    let (rt, alloc) = (context.rt, context.alloc);
    let morsels = job.fact_rows().div_ceil(morsel_size);
    if morsels <= 1 {
        return group_alone(alloc, job, morsel_size);
    }
    // A worker that finds no morsel costs a thread for nothing.
    let workers = workers.min(morsels);
    let shared = Arc::try_clone(job)?;
    let (parts, mut passes) = Parts::open(rt, alloc, shared, morsel_size, parts, workers as usize)?;
    run_batches(rt, &parts, passes.as_mut_slice(), batch, context.gate);
    finish(rt, parts, &mut passes[0])
}
