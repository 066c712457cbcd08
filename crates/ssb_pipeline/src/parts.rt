// All parts of a job, each in a queue of its own.

ghost use Rattle.std.specs.Prelude.{◌≡◌, ◌<◌, ◌≤◌, ◌^◌, ◌⊎◌, true, false, [], length, All, IfOk};
ghost use Rattle.std.specs.Arc.{arc_value};
ghost use Rattle.crossbeam_queue.specs.Passes.{view, IsPassOf, ruled_capacity};
ghost use Rattle.ssb_job.specs.Kept.{AreOneJob, fact_rows};
ghost use Rattle.ssb_pipeline.specs.Part.{AreOut, Follows, IsLawfulPart, IsOpening, IsReached, Ran};
ghost use Rattle.ssb_pipeline.specs.Rule.{BringsOwn, knows, taker, putter};
ghost use Rattle.ssb_pipeline.specs.Pass.{IsPartOf, IsPassOfParts, HoldsNone, KnowsNothing, known, knowing, newcomers};
ghost use Rattle.ssb_pipeline.specs.Batch.{IsBatchOf};
ghost use Rattle.std.specs.Borrow.{sem};
ghost use Rattle.ssb_pipeline.specs.Lending.{LendsPart};

use crate::line::{Line, LinePass, another_one, open_one, put_one, take_one};
use crate::part::Part;
use crate::partial::Partial;
use crate::scratch::Scratch;
use crate::ticket::Ticket;
use ssb_job::Job;
use std::alloc::{AllocError, Global};
use std::marker::Model;
use std::sync::{Arc, Wait};

/// The parts. Contracts see the names of their queues, and the job.
pub struct Parts {
    alloc: Global,
    queues: Vec<Line>,
    sections: u32,
    job: Arc<Job, Global>,
    size: u32,
}

// Written out, so that the crates above need no proof of how its parts are let go.
impl Drop for Parts {
    fn drop(self) {
        let Parts {
            alloc: _,
            queues,
            sections: _,
            job,
            size: _,
        } = self;
        drop(queues);
        drop(job);
    }
}

impl Model for Parts {
    ghost use Rattle.std.specs.Prelude.{◌≡◌, List, map, length, All};
    ghost use Rattle.std.specs.Arc.{arc_value};
    ghost use Rattle.ssb_pipeline.specs.Pass.{PartsState, queue_name, IsSingle};

    ghost Value = { PartsState };

    ghost use Rattle.ssb_job.specs.contracts.job.Job as job_type;
    ghost use Rattle.std.specs.Coded.{codes};

    ghost coded = { Prim.hlevel (codes, job_type.the_row.coded) };

    ghost view = { λ p. record { queues = map queue_name p.queues.items; job = arc_value p.job; size = p.size } };

    ghost invariant = { λ p. All IsSingle p.queues.items × (length p.queues.items ≡ p.sections) };
}

/// One worker's knowledge of all parts.
pub struct PartsPass {
    passes: Vec<LinePass>,
}

// Written out, so that the crates above need no proof of how its parts are let go.
impl Drop for PartsPass {
    fn drop(self) {
        let PartsPass { passes } = self;
        drop(passes);
    }
}

impl Model for PartsPass {
    ghost use Rattle.std.specs.Prelude.{List, map, All};
    ghost use Rattle.ssb_pipeline.specs.Pass.{PassState, pass_name, pass_view, IsAtRest};

    ghost Value = { PassState };

    ghost use Rattle.ssb_pipeline.specs.contracts.line.Knowledge as knowledge_type;
    ghost use Rattle.std.specs.Coded.{codes};

    ghost coded = { Prim.hlevel (codes, knowledge_type.the_row.coded) };

    ghost view = { λ p. record { queues = map pass_name p.passes.items; views = map pass_view p.passes.items } };

    ghost invariant = { λ p. All IsAtRest p.passes.items };
}

/// A part that was taken, and its section. Contracts see both; [`Held::part`] lends the part.
#[derive(Drop)]
pub struct Held {
    // The number of its section, from 0.
    pub(crate) section: u32,
    pub(crate) part: Part,
}

impl Held {
    /// The part, to work on.
    pub fn part(&mut self) -> &mut Part
        ensures* writes_back { sem 𝓛 (LendsPart self.entry result) }
        ensures value { result.now ≡ self.old.part }
    {
        &mut self.part
    }
}

impl Parts {
    /// Takes the part of a section, numbered from 0, as soon as it is free; it may wait for other
    /// passes. A core run leads to the part from what this pass saw of it, and from an opening part; and
    /// what is due to this pass is out: handed out, and neither back nor given up. It takes no memory.
    pub fn take<R: Wait>(&self, rt: &R, section: u32, pass: &mut PartsPass) -> Held
        requires section { section < length self.now.queues }
        requires pass { IsPassOfParts self.now pass.old }
        requires holds_none { HoldsNone pass.old }
        ensures section { result.section ≡ section }
        ensures part { IsPartOf self.now section result.part }
        ensures lawful { IsLawfulPart result.part }
        ensures reached { IsReached result.part }
        ensures ran { Ran (known pass.old section).seen result.part }
        ensures follows { Follows result.part (known pass.old section).seen }
        ensures due { AreOut result.part (known pass.old section).due }
        ensures view { pass.new ≡ knowing pass.old section (taker (known pass.old section) result.part) }
        ensures pass { IsPassOfParts self.now pass.new }
    {
        self.take_from(rt, section, pass)
    }

    // The same, whatever other parts the pass holds.
    pub(crate) fn take_from<R: Wait>(&self, rt: &R, section: u32, pass: &mut PartsPass) -> Held
        requires section { section < length self.now.queues }
        requires pass { IsPassOfParts self.now pass.old }
        ensures section { result.section ≡ section }
        ensures part { IsPartOf self.now section result.part }
        ensures lawful { IsLawfulPart result.part }
        ensures reached { IsReached result.part }
        ensures ran { Ran (known pass.old section).seen result.part }
        ensures follows { Follows result.part (known pass.old section).seen }
        ensures due { AreOut result.part (known pass.old section).due }
        ensures view { pass.new ≡ knowing pass.old section (taker (known pass.old section) result.part) }
        ensures pass { IsPassOfParts self.now pass.new }
    {
        let part = take_one(
            rt,
            &self.queues[section as usize],
            &mut pass.passes[section as usize],
        );
        Held { section, part }
    }

    /// Puts a part back that this pass took; it may wait. The part was changed by its own calls alone: a
    /// core run leads to it from what was taken; and what came back or was given up meanwhile was due to
    /// this pass, or handed out meanwhile. The next take of the section, by whichever pass, finds it. It
    /// takes no memory.
    pub fn put<R: Wait>(&self, rt: &R, held: Held, pass: &mut PartsPass)
        requires section { held.section < length self.now.queues }
        requires pass { IsPassOfParts self.now pass.old }
        requires holds { (known pass.old held.section).holds ≡ true }
        requires ran { Ran (known pass.old held.section).seen held.part }
        requires own { BringsOwn (known pass.old held.section) held.part }
        ensures view { pass.new ≡ knowing pass.old held.section (putter (known pass.old held.section) held.part) }
        ensures pass { IsPassOfParts self.now pass.new }
    {
        let Held { section, part } = held;
        put_one(
            rt,
            &self.queues[section as usize],
            &mut pass.passes[section as usize],
            part,
        );
    }
}

impl Parts {
    /// The number of sections.
    pub fn sections(&self) -> u32
        ensures { result ≡ length self.now.queues }
    {
        self.sections
    }

    // What holds of the fact table, for the prover: the query names it, and 32 bits number its rows.
    pub(crate) fn fact_table(&self)
        ensures named { self.now.job.query.fact < length self.now.job.query.from }
        ensures few { fact_rows self.now.job < 2 ^ 32 }
    {
        let _query = self.job.query();
        let _rows = self.job.fact_rows();
    }

    // Memory for a worker of these parts. It takes none yet.
    pub(crate) fn scratch(&self) -> Scratch
        ensures { result ≡ self.now.job }
    {
        Scratch::new(self.alloc, &self.job)
    }

    // The partial of a batch of tickets of these parts' job; where it can't be made, the tickets.
    pub(crate) fn partial_of(
        &self,
        tickets: Vec<Ticket>,
        scratch: &mut Scratch,
    ) -> Result<Partial, Vec<Ticket>>
        requires one_job { All (λ t. AreOneJob t.job self.now.job) tickets.items }
        requires scratch { AreOneJob scratch.old self.now.job }
        ensures batch { IsBatchOf tickets.items result }
        ensures same { scratch.new ≡ scratch.old }
    {
        match Partial::in_scratch(&self.job, tickets, scratch) {
            Ok(partial) => Ok(partial),
            Err((tickets, _)) => Err(tickets),
        }
    }

    // No tickets, with room for so many, or for none where a growth is refused; and for how many.
    pub(crate) fn room(&self, count: u32) -> (u32, Vec<Ticket>)
        ensures room { (result.0 ≡ count) ⊎ (result.0 ≡ 0) }
        ensures none { result.1.items ≡ [] }
    {
        let mut tickets = Vec::new(self.alloc);
        match tickets.reserve(count as usize) {
            Ok(()) => (count, tickets),
            Err(_) => (0, tickets),
        }
    }

    /// Another pass, which has seen as much.
    ///
    /// # Errors
    ///
    /// Only where a growth was refused; the pass that is given is as before.
    pub fn another(&self, alloc: Global, pass: &mut PartsPass) -> Result<PartsPass, AllocError>
        requires pass { IsPassOfParts self.now pass.old }
        requires none { HoldsNone pass.old }
        ensures same { pass.new ≡ pass.old }
        ensures new { IfOk result (λ p. p ≡ newcomers pass.old) }
    {
        let mut passes = Vec::new(alloc);
        for section in 0..self.queues.len() {
            passes.push(another_one(
                &self.queues[section as usize],
                &mut pass.passes[section as usize],
            ))?;
        }
        Ok(PartsPass { passes })
    }

    // The queue of one section, in which its opening part lies, and the queue's first pass. On its own,
    // since each way out of the loop below has all queues and passes to let go.
    fn open_section<R: Wait>(
        rt: &R,
        alloc: Global,
        job: &Arc<Job, Global>,
        morsel_size: u32,
        section: u32,
        sections: u32,
    ) -> Result<(Line, LinePass), AllocError>
        requires size { 0 < morsel_size }
        requires section { section < sections }
        ensures queue { IfOk result (λ r. IsPassOf r.0 r.1 × (ruled_capacity r.0 ≡ 1)) }
        ensures knows { IfOk result (λ r. view r.1 ≡ knows false (view r.1).seen [] []) }
        ensures opening { IfOk result (λ r. IsOpening (arc_value job.now) morsel_size section sections (view r.1).seen) }
    {
        let part = Part::open(alloc, Arc::try_clone(job)?, morsel_size, section, sections)?;
        open_one(rt, alloc, part)
    }

    fn open_first<R: Wait>(
        rt: &R,
        alloc: Global,
        job: Arc<Job, Global>,
        morsel_size: u32,
        sections: u32,
    ) -> Result<(Parts, PartsPass), AllocError>
        requires size { 0 < morsel_size }
        ensures job { IfOk result (λ r. (r.0.job ≡ arc_value job) × (r.0.size ≡ morsel_size) × (length r.0.queues ≡ sections)) }
        ensures pass { IfOk result (λ r. IsPassOfParts r.0 r.1 × HoldsNone r.1 × KnowsNothing r.1) }
    {
        let mut queues = Vec::new(alloc);
        let mut passes = Vec::new(alloc);
        for section in 0..sections {
            let (line, pass) = Parts::open_section(
                rt,
                alloc,
                &job,
                morsel_size,
                section,
                sections,
            )?;
            queues.push(line)?;
            passes.push(pass)?;
        }
        Ok((
            Parts {
                alloc,
                queues,
                sections,
                job,
                size: morsel_size,
            },
            PartsPass { passes },
        ))
    }

    /// The parts of a job, one for each of so many sections of its morsels, each free, and so many
    /// passes. A morsel has `morsel_size` rows, from 1 on. It may wait while it puts the parts.
    ///
    /// # Errors
    ///
    /// Only where a growth was refused.
    pub fn open<R: Wait>(
        rt: &R,
        alloc: Global,
        job: Arc<Job, Global>,
        morsel_size: u32,
        sections: u32,
        passes: usize,
    ) -> Result<(Parts, Vec<PartsPass>), AllocError>
        requires size { 0 < morsel_size }
        requires passes { 0 < passes }
        ensures job { IfOk result (λ r. (r.0.job ≡ arc_value job) × (r.0.size ≡ morsel_size) × (length r.0.queues ≡ sections)) }
        ensures count { IfOk result (λ r. length r.1.items ≡ passes) }
        ensures passes { IfOk result (λ r. All (λ p. IsPassOfParts r.0 p × HoldsNone p × KnowsNothing p) r.1.items) }
    {
        let (parts, first) = Parts::open_first(rt, alloc, job, morsel_size, sections)?;
        let all = parts.more(alloc, first, passes)?;
        Ok((parts, all))
    }

    // So many passes, the first of which is given.
    fn more(
        &self,
        alloc: Global,
        first: PartsPass,
        passes: usize,
    ) -> Result<Vec<PartsPass>, AllocError>
        requires count { 0 < passes }
        requires first { IsPassOfParts self.now first × HoldsNone first × KnowsNothing first }
        ensures count { IfOk result (λ r. length r.items ≡ passes) }
        ensures passes { IfOk result (λ r. All (λ p. IsPassOfParts self.now p × HoldsNone p × KnowsNothing p) r.items) }
    {
        let mut first = first;
        let mut all = Vec::new(alloc);
        for _ in 1..passes {
            let pass = self.another(alloc, &mut first)?;
            all.push(pass)?;
        }
        all.push(first)?;
        Ok(all)
    }
}
