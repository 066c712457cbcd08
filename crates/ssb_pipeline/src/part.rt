// One section's part of the work.
//
// A morsel goes this way: `Part::hand_out` gives the ticket of the least one that was not handed out,
// `Partial::of` probes its rows into groups of its own, and `Part::give_back` merges these into the
// part's and marks the morsel. `Partial::of_all` does the same of several tickets, which then come back
// whole or not at all. `Part::work_off` goes this way with morsel after morsel in the caller's thread,
// until no ticket comes; `Part::sweep` does what is left of a section, also what was handed out and did
// not come back.

ghost use Rattle.std.specs.Prelude.{◌≡◌, ◌<◌, ◌≤◌, ◌-◌, ◌&&◌, ℕ, true, false, not, IfOk, IsOk, OnErr, OnOk, length};
ghost use Rattle.std.specs.List.{All, list_all, list_any, range_with_len};
ghost use Rattle.std.specs.Arc.{arc_value};
ghost use Rattle.ssb_pipeline.specs.Joined.{morsel_rows};
ghost use Rattle.ssb_pipeline.specs.Morsels.{morsel_cut};
ghost use Rattle.ssb_pipeline.specs.Part.{GivesBack, GivesUp, Grows, HandsOut, IsBack, IsLawfulPart, IsOpening, IsOutIn, IsUnrefused, IsWhole, Ran, Returns, has, is_awaited, is_handed_out, ours, ticket_of};
ghost use Rattle.ssb_pipeline.specs.Marks.{marked, with_marks};
ghost use Rattle.ssb_pipeline.specs.Tickets.{morsels_of};
ghost use Rattle.ssb_job.specs.Kept.{AreOneJob};

use crate::fault::ReturnFault;
use crate::partial::Partial;
use crate::scratch::Scratch;
use crate::ticket::Ticket;
use ssb_groups::Groups;
use ssb_job::Job;
use std::alloc::{AllocError, Global};
use std::marker::Model;
use std::sync::Arc;

/// One section of a job's morsels: which were handed out, which came back, which were given up, and the
/// groups over those that came back. It hands out each of them once.
pub struct Part {
    alloc: Global,
    job: Arc<Job, Global>,
    size: u32,
    section: u32,
    sections: u32,
    // The section's first morsel, and how many of its morsels were handed out.
    first: u32,
    next: u32,
    // Of each morsel of the section whether it came back, and how many did.
    marks: Vec<bool>,
    back: u32,
    // Of each morsel whether its ticket was given up and it did not come back, and whether any ticket
    // was given up.
    given: Vec<bool>,
    gave_up: bool,
    groups: Groups,
}

// Written out, so that the crates above need no proof of how its parts are let go.
impl Drop for Part {
    fn drop(self) {
        drop(self.into_groups());
    }
}

impl Model for Part {
    ghost use Rattle.std.specs.Prelude.{◌≡◌, length};
    ghost use Rattle.std.specs.Arc.{arc_value};
    ghost use Rattle.std.specs.Coded.{codes};
    ghost use Rattle.std.specs.List.{range_with_len};
    ghost use Rattle.ssb_pipeline.specs.Marks.{IsKept, marked};
    ghost use Rattle.ssb_pipeline.specs.Part.{PartState};

    ghost Value = { PartState };

    ghost use Rattle.ssb_job.specs.contracts.job.Job as job_type;
    ghost use Rattle.ssb_groups.specs.contracts.groups.Groups as groups_type;

    ghost coded = { Prim.hlevel (codes, job_type.the_row.coded, groups_type.the_row.coded) };

    ghost view = { λ p. record { job = arc_value p.job; size = p.size; section = p.section; sections = p.sections; handed = range_with_len p.first p.next; returned = marked p.first p.marks.items; given = marked p.first p.given.items; gave_up = p.gave_up; groups = p.groups } };

    ghost invariant = { λ p. IsKept (arc_value p.job) p.size p.section p.sections p.first p.next p.marks.items p.back p.groups × (length p.given.items ≡ length p.marks.items) };
}

// Where a section begins, and the one before it ends.
fn morsel_cut(morsels: u32, sections: u32, section: u32) -> u32
    requires some { 0 < sections }
    requires within { section ≤ sections }
    ensures { result ≡ morsel_cut morsels sections section }
{
    (u64::from(section) * u64::from(morsels) / u64::from(sections)) as u32
}

// Sets the marks of the morsels of some tickets, or clears them.
fn set_marks(marks: &mut [bool], first: u32, tickets: &[Ticket], mark: bool)
    requires { All (λ t. (first ≤ t.morsel) × (t.morsel - first < length marks.old)) tickets.now }
    ensures { marks.new ≡ with_marks mark first marks.old (morsels_of tickets.now) }
{
    for place in 0..tickets.len() {
        marks[(tickets[place].morsel() - first) as usize] = mark;
    }
}

// Whether the mark of a morsel is set.
fn is_marked(marks: &[bool], first: u32, morsel: u32) -> bool
    ensures { result ≡ has (marked first marks.now) morsel }
{
    if morsel < first {
        return false;
    }
    match marks.get((morsel - first) as usize) {
        Some(mark) => *mark,
        None => false,
    }
}

impl Part {
    /// A part that hands out the morsels of a section, of which nothing was handed out. A morsel has
    /// so many rows; the section is one of so many, from 0. It makes the room for every later mark.
    ///
    /// # Errors
    ///
    /// Only where a growth was refused.
    pub fn open(
        alloc: Global,
        job: Arc<Job, Global>,
        morsel_size: u32,
        section: u32,
        sections: u32,
    ) -> Result<Part, AllocError>
        requires size { 0 < morsel_size }
        requires section { section < sections }
        ensures opening { IfOk result (IsOpening (arc_value job) morsel_size section sections) }
        ensures lawful { IfOk result IsLawfulPart }
    {
        let morsels = job.fact_rows().div_ceil(morsel_size);
        let first = morsel_cut(morsels, sections, section);
        let end = morsel_cut(morsels, sections, section + 1);
        let marks = Vec::from_elem(alloc, false, (end - first) as usize)?;
        let given = Vec::from_elem(alloc, false, (end - first) as usize)?;
        let groups = Groups::empty(alloc, &job)?;
        Ok(Part {
            alloc,
            job,
            size: morsel_size,
            section,
            sections,
            first,
            next: 0,
            marks,
            back: 0,
            given,
            gave_up: false,
            groups,
        })
    }

    /// A part is lawful: its handed-out morsels are disjoint, the returned ones are among them, and its
    /// groups stand for the kept combinations of those.
    pub fn lawful(&self)
        ensures { IsLawfulPart self.now }
    {
        let _ = &self.next;
    }

    // The ticket of a morsel of its section.
    fn ticket_for(&self, morsel: u32) -> Ticket
        ensures { result ≡ ticket_of self.now morsel }
    {
        Ticket::new(&self.job, self.size, self.section, self.sections, morsel)
    }

    /// A ticket of the section's least morsel that was not handed out; none where all were, or a ticket
    /// was given up.
    pub fn hand_out(&mut self) -> Option<Ticket>
        ensures hands { HandsOut self.old result self.new }
        ensures ran { Ran self.old self.new }
    {
        if self.gave_up || self.next as usize == self.marks.len() {
            return None;
        }
        let ticket = self.ticket_for(self.first + self.next);
        self.next += 1;
        Some(ticket)
    }

    // Whether this number was handed out.
    fn was_handed(&self, morsel: u32) -> bool
        ensures { result ≡ has self.now.handed morsel }
    {
        self.first <= morsel && morsel - self.first < self.next
    }

    // Whether a ticket is for a morsel that was handed out.
    fn is_handed_out(&self, ticket: &Ticket) -> bool
        ensures { result ≡ is_handed_out self.now ticket.now }
    {
        ticket.size() == self.size && self.was_handed(ticket.morsel())
    }

    // Whether each of these tickets is so.
    fn are_handed_out(&self, tickets: &[Ticket]) -> bool
        ensures { result ≡ list_all (is_handed_out self.now) tickets.now }
    {
        tickets.iter().all(|ticket| self.is_handed_out(ticket))
    }

    // Whether the morsel of one of them came back.
    fn has_come_back(&self, tickets: &[Ticket]) -> bool
        ensures { result ≡ list_any (λ t. has self.now.returned t.morsel) tickets.now }
    {
        tickets.iter().any(|ticket| self.is_back(ticket.morsel()))
    }

    /// Takes the groups of morsels that were handed out, of all of them or of none.
    ///
    /// # Errors
    ///
    /// `NotHandedOut` where the part did not hand out each of the tickets, else `Doubled` where a morsel
    /// of theirs came back before, else `Memory` where a growth was refused. The part is as before, and
    /// the partial comes back. Where each of the tickets is out, handed out and neither back nor given up,
    /// it is `Memory` alone.
    pub fn give_back(&mut self, partial: Partial) -> Result<(), ReturnFault>
        requires one_job { All (λ t. AreOneJob t.job self.old.job) partial.tickets }
        ensures gives { GivesBack self.old partial result self.new }
        ensures due { All (IsOutIn self.old) partial.tickets → IsUnrefused result }
        ensures ran { Ran self.old self.new }
    {
        let mut scratch = Scratch::new(self.alloc, &self.job);
        let given = self.take_in(partial, &mut scratch);
        drop(scratch);
        given
    }

    // The same; the memory of the partial's groups is kept in the scratch.
    pub(crate) fn take_in(
        &mut self,
        partial: Partial,
        scratch: &mut Scratch,
    ) -> Result<(), ReturnFault>
        requires one_job { All (λ t. AreOneJob t.job self.old.job) partial.tickets }
        requires scratch { AreOneJob scratch.old self.old.job }
        ensures gives { GivesBack self.old partial result self.new }
        ensures due { All (IsOutIn self.old) partial.tickets → IsUnrefused result }
        ensures ran { Ran self.old self.new }
        ensures same { scratch.new ≡ scratch.old }
    {
        if !self.are_handed_out(partial.tickets()) {
            return Err(ReturnFault::NotHandedOut(partial));
        }
        if self.has_come_back(partial.tickets()) {
            return Err(ReturnFault::Doubled(partial));
        }
        match partial.merge_into(&mut self.groups, scratch) {
            Ok(tickets) => {
                set_marks(
                    self.marks.as_mut_slice(),
                    self.first,
                    tickets.as_slice(),
                    true,
                );
                set_marks(
                    self.given.as_mut_slice(),
                    self.first,
                    tickets.as_slice(),
                    false,
                );
                self.back += tickets.len() as u32;
                Ok(())
            }
            Err(partial) => Err(ReturnFault::Memory(partial)),
        }
    }

    // The section's first morsel, and the one behind its last.
    fn bounds(&self) -> (u32, u32)
        ensures order { result.0 ≤ result.1 }
        ensures ours { ours self.now ≡ range_with_len result.0 (result.1 - result.0) }
    {
        (self.first, self.first + self.marks.len() as u32)
    }

    // Hands out all of the section that was not handed out, to the caller.
    fn hand_out_all(&mut self)
        ensures { self.new ≡ record self.old { handed = ours self.old } }
    {
        self.next = self.marks.len() as u32;
    }

    // Whether a morsel came back.
    fn is_back(&self, morsel: u32) -> bool
        ensures { result ≡ has self.now.returned morsel }
    {
        is_marked(&self.marks, self.first, morsel)
    }

    /// Whether the ticket of a morsel was given up, and the morsel did not come back.
    pub fn gave(&self, morsel: u32) -> bool
        ensures { result ≡ has self.now.given morsel }
    {
        is_marked(&self.given, self.first, morsel)
    }

    // Whether a ticket is for a morsel that was handed out and did not come back.
    fn is_awaited(&self, ticket: &Ticket) -> bool
        ensures { result ≡ is_awaited self.now ticket.now }
    {
        self.is_handed_out(ticket) && !self.is_back(ticket.morsel())
    }

    // Does the morsel of a ticket that was handed out and did not come back, and takes its groups.
    // Refused, the part is as before.
    fn bring_back(&mut self, ticket: Ticket, scratch: &mut Scratch) -> Result<(), AllocError>
        requires one_job { AreOneJob ticket.job self.old.job }
        requires scratch { AreOneJob scratch.old self.old.job }
        requires handed { is_handed_out self.old ticket ≡ true }
        requires fresh { has self.old.returned ticket.morsel ≡ false }
        ensures back { OnOk result (Returns ticket.morsel self.old self.new) }
        ensures job { OnOk result (self.new.job ≡ self.old.job) }
        ensures err { OnErr result (self.new ≡ self.old) }
        ensures same { scratch.new ≡ scratch.old }
    {
        let Ok(partial) = Partial::of_one(self.alloc, &self.job, ticket, scratch) else {
            return Err(AllocError);
        };
        match self.take_in(partial, scratch) {
            Ok(()) => Ok(()),
            Err(ReturnFault::Memory(_)) => Err(AllocError),
            Err(_) => unreachable!(),
        }
    }

    /// Hands out, does and takes back one morsel after the other in the caller's thread, until no
    /// ticket comes. Where nothing was out before and no ticket was given up, all of the section came
    /// back then.
    ///
    /// # Errors
    ///
    /// Only where a growth was refused. The part stands with what came back so far.
    pub fn work_off(&mut self) -> Result<(), AllocError>
        ensures ran { Ran self.old self.new }
        ensures grows { Grows self.old self.new }
        ensures whole { OnOk result (IsBack self.old → self.old.gave_up ≡ false → IsWhole self.new) }
        ensures lawful { IsLawfulPart self.new }
    {
        self.lawful();
        let mut scratch = Scratch::new(self.alloc, &self.job);
        while let Some(ticket) = self.hand_out() {
            self.lawful();
            self.bring_back(ticket, &mut scratch)?;
            self.lawful();
        }
        Ok(())
    }

    /// Does all of the section that did not come back, in the caller's thread, also where a ticket was
    /// given up. Where all of it came back before, the groups stay as they are, and it takes no memory.
    ///
    /// # Errors
    ///
    /// Only where a growth was refused. The part stands with what came back so far, and all of its
    /// section may be handed out.
    pub fn sweep(&mut self) -> Result<(), AllocError>
        ensures ran { Ran self.old self.new }
        ensures grows { Grows self.old self.new }
        ensures whole { OnOk result (IsWhole self.new) }
        ensures lawful { IsLawfulPart self.new }
        ensures at_once { IsWhole self.old → IsOk result }
        ensures same { IsWhole self.old → self.new.groups ≡ self.old.groups }
    {
        self.lawful();
        self.hand_out_all();
        self.lawful();
        let (first, end) = self.bounds();
        let mut scratch = Scratch::new(self.alloc, &self.job);
        for morsel in first..end {
            if !self.is_back(morsel) {
                let ticket = self.ticket_for(morsel);
                self.bring_back(ticket, &mut scratch)?;
                self.lawful();
            }
        }
        Ok(())
    }

    /// Gives a ticket up: no morsel is handed out any more. Where the part handed it out and its morsel did
    /// not come back, the morsel is given up. It takes no memory.
    pub fn give_up(&mut self, ticket: Ticket)
        ensures gives_up { GivesUp ticket self.old self.new }
        ensures ran { Ran self.old self.new }
    {
        if self.is_awaited(&ticket) {
            let place = ticket.morsel() - self.first;
            self.given[place as usize] = true;
        }
        self.gave_up = true;
    }

    /// How many morsels were handed out.
    pub fn handed(&self) -> u32
        ensures { result ≡ length self.now.handed }
    {
        self.next
    }

    // How many morsels were not handed out yet. It only tunes how many tickets a worker takes at once: nothing
    // rests on it.
    pub(crate) fn left(&self) -> u32
        ensures { result ≡ length (ours self.now) - length self.now.handed }
    {
        let (first, end) = self.bounds();
        (end - first).saturating_sub(self.handed())
    }

    /// How many morsels came back.
    pub fn returned(&self) -> u32
        ensures { result ≡ length self.now.returned }
    {
        self.back
    }

    /// Whether a ticket was given up.
    pub fn gave_up(&self) -> bool
        ensures { result ≡ self.now.gave_up }
    {
        self.gave_up
    }

    /// The groups over the morsels that came back; they count no more rows than lie there.
    pub fn into_groups(self) -> Groups
        ensures groups { result ≡ self.groups }
        ensures few { result.counted ≤ length (morsel_rows self.job self.size self.returned) }
    {
        let Part {
            alloc: _,
            job,
            size: _,
            section: _,
            sections: _,
            first: _,
            next: _,
            marks,
            back: _,
            given,
            gave_up: _,
            groups,
        } = self;
        drop(job);
        drop(marks);
        drop(given);
        groups
    }
}
