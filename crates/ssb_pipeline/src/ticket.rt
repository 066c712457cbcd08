// What is handed out.

ghost use Rattle.std.specs.Prelude.{◌≡◌};

use ssb_job::Job;
use std::marker::Model;
use std::snapshot::Snapshot;

/// A morsel of a job that was handed out, and the section of so many whose part gave it. It names the job
/// in contracts alone, where it is a [`Snapshot`], which has no bytes.
#[derive(Drop)]
pub struct Ticket {
    job: Snapshot<Job>,
    size: u32,
    section: u32,
    sections: u32,
    morsel: u32,
}

impl Model for Ticket {
    ghost use Rattle.std.specs.Coded.{codes};
    ghost use Rattle.ssb_pipeline.specs.Tickets.{TicketState};

    ghost Value = { TicketState };

    ghost use Rattle.ssb_job.specs.contracts.job.Job as job_type;

    ghost coded = { Prim.hlevel (codes, job_type.the_row.coded) };

    ghost view = { λ t. record { job = t.job.value; size = t.size; section = t.section; sections = t.sections; morsel = t.morsel } };
}

impl Ticket {
    // The ticket of this morsel, of so many rows, of a job, in this section of so many.
    pub(crate) fn new(job: &Job, size: u32, section: u32, sections: u32, morsel: u32) -> Ticket
        ensures { result ≡ record { job = job.now; size = size; section = section; sections = sections; morsel = morsel } }
    {
        Ticket {
            job: Snapshot::of(job),
            size,
            section,
            sections,
            morsel,
        }
    }

    /// The number of the morsel, from 0.
    pub fn morsel(&self) -> u32
        ensures { result ≡ self.now.morsel }
    {
        self.morsel
    }

    // How many rows each morsel has, but for the last.
    pub(crate) fn size(&self) -> u32
        ensures { result ≡ self.now.size }
    {
        self.size
    }

    // The section of its morsel, from 0.
    pub(crate) fn section(&self) -> u32
        ensures { result ≡ self.now.section }
    {
        self.section
    }

    // How many sections there are.
    pub(crate) fn sections(&self) -> u32
        ensures { result ≡ self.now.sections }
    {
        self.sections
    }
}
