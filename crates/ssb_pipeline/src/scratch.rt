// Memory that is used again for each batch of tickets.

ghost use Rattle.std.specs.Prelude.{◌≡◌, [], IfOk, false};
ghost use Rattle.ssb_groups.specs.Stands.{Stands};
ghost use Rattle.ssb_job.specs.Kept.{AreOneJob};
ghost use Rattle.ssb_pipeline.specs.State.{AreOver};
ghost use Rattle.ssb_pipeline.specs.Tickets.{has_twice, morsels_of};

use crate::grouping::group_morsels;
use crate::ticket::Ticket;
use ssb_groups::Groups;
use ssb_job::{Block, Job};
use std::alloc::{AllocError, Global};
use std::marker::Model;
use std::snapshot::Snapshot;

/// Memory in which a worker groups the rows of batch after batch, seen as the job.
#[derive(Drop)]
pub(crate) struct Scratch {
    alloc: Global,
    // What the job is, for contracts alone: it has no bytes.
    job: Snapshot<Job>,
    // Groups over no row, whose memory is used again.
    spare: Option<Groups>,
    block: Block,
}

impl Model for Scratch {
    ghost use Rattle.ssb_plan.specs.JobShape.{JobShape};
    ghost use Rattle.ssb_pipeline.specs.Spare.{IsSpareOf};

    ghost Value = { JobShape };

    ghost use Rattle.ssb_job.specs.contracts.job.Job as job_type;

    ghost coded = { job_type.the_row.coded };

    ghost view = { λ s. s.job.value };

    ghost invariant = { λ s. IsSpareOf s.job.value s.spare };
}

impl Scratch {
    // That for a job. It takes no memory yet.
    pub(crate) fn new(alloc: Global, job: &Job) -> Scratch
        ensures { result ≡ job.now }
    {
        Scratch {
            alloc,
            job: Snapshot::of(job),
            spare: None,
            block: Block::new(alloc),
        }
    }

    // Groups over no row: those that were kept, or new ones.
    fn take(&mut self, job: &Job) -> Result<Groups, AllocError>
        requires one_job { AreOneJob self.old job.now }
        ensures same { self.new ≡ self.old }
        ensures stands { IfOk result (λ g. Stands g []) }
        ensures job { IfOk result (λ g. AreOneJob g.job job.now) }
    {
        match self.spare.take() {
            Some(groups) => Ok(groups),
            None => Groups::empty(self.alloc, job),
        }
    }

    // Keeps groups over no row for the next batch.
    pub(crate) fn keep(&mut self, groups: Groups)
        requires one_job { AreOneJob groups.job self.old }
        requires none { Stands groups [] }
        ensures { self.new ≡ self.old }
    {
        self.spare = Some(groups);
    }

    // The groups over the kept combinations of the morsels of some tickets, of so many rows each.
    pub(crate) fn group(
        &mut self,
        job: &Job,
        size: u32,
        tickets: &[Ticket],
    ) -> Result<Groups, AllocError>
        requires one_job { AreOneJob self.old job.now }
        requires apart { has_twice (morsels_of tickets.now) ≡ false }
        ensures same { self.new ≡ self.old }
        ensures over { IfOk result (AreOver job.now size (morsels_of tickets.now)) }
    {
        let groups = self.take(job)?;
        group_morsels(job, size, tickets, &mut self.block, groups)
    }
}
