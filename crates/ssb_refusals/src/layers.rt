// Calls whose contracts say what a refused growth leaves: each is called once more with that, and then succeeds.

ghost use Rattle.std.specs.Prelude.{◌≡◌, ◌<◌, IfOk};
ghost use Rattle.std.specs.Arc.{arc_value};
ghost use Rattle.std.specs.List.{All};
ghost use Rattle.ssb_job.specs.Kept.{AreOneJob};

use crate::ends::{Done, Stop};
use crate::files::small_job;
use crate::numbers::{are_squares, numbers_job};
use ssb_groups::Groups;
use ssb_job::{Block, Job};
use ssb_pipeline::{Part, Partial, ReturnFault, Ticket};
use std::alloc::{AllocError, Global};
use std::sync::Arc;

// The numbers are four morsels of as many rows.
const MORSEL_SIZE: u32 = 10;

// A part of all morsels.
fn whole_part(alloc: Global, job: &Arc<Job, Global>) -> Result<Part, AllocError>
    ensures { IfOk result (λ p. AreOneJob p.job (arc_value job.now)) }
{
    Part::open(alloc, Arc::try_clone(job)?, MORSEL_SIZE, 0, 1)
}

// A part's next ticket.
fn next_ticket(part: &mut Part) -> Result<Ticket, Stop>
    ensures job { AreOneJob part.new.job part.old.job }
    ensures ticket { IfOk result (λ t. AreOneJob t.job part.old.job) }
{
    match part.hand_out() {
        Some(ticket) => Ok(ticket),
        None => Err(Stop::Wrong),
    }
}

// The partial of a part's next ticket.
fn next_partial(alloc: Global, job: &Job, part: &mut Part) -> Result<Partial, Stop>
    requires { AreOneJob part.old.job job.now }
    ensures job { AreOneJob part.new.job job.now }
    ensures partial { IfOk result (λ p. All (λ t. AreOneJob t.job job.now) p.tickets) }
{
    let ticket = next_ticket(part)?;
    match Partial::of(alloc, job, ticket) {
        Ok(partial) => Ok(partial),
        Err(_) => Err(Stop::Memory),
    }
}

// Gives a partial back that was refused, to a part of which so many morsels came back before.
fn give_back_again(part: &mut Part, partial: Partial, before: u32) -> Result<Done, Stop>
    requires { All (λ t. AreOneJob t.job part.old.job) partial.tickets }
    ensures { AreOneJob part.new.job part.old.job }
{
    if part.returned() != before {
        return Err(Stop::Wrong);
    }
    match part.give_back(partial) {
        Ok(()) => Ok(Done::Again),
        Err(_) => Err(Stop::Wrong),
    }
}

// Gives a partial back; where that is refused, once more.
fn give_one_back(part: &mut Part, partial: Partial) -> Result<Done, Stop>
    requires { All (λ t. AreOneJob t.job part.old.job) partial.tickets }
    ensures { AreOneJob part.new.job part.old.job }
{
    let before = part.returned();
    match part.give_back(partial) {
        Ok(()) => Ok(Done::AtOnce),
        Err(ReturnFault::Memory(partial)) => give_back_again(part, partial, before),
        Err(_) => Err(Stop::Wrong),
    }
}

// Gives the partial of each morsel back.
fn give_all_back(alloc: Global, job: &Job, part: &mut Part) -> Result<Done, Stop>
    requires { AreOneJob part.old.job job.now }
{
    let mut done = Done::AtOnce;
    for _ in 0..4 {
        let partial = next_partial(alloc, job, part)?;
        done = done.and(give_one_back(part, partial)?);
    }
    Ok(done)
}

/// Each morsel is given back to its part.
pub(crate) fn give_back(alloc: Global) -> Result<Done, Stop> {
    let job = numbers_job(alloc)?;
    let mut part = whole_part(alloc, &job)?;
    let done = give_all_back(alloc, &job, &mut part)?;
    drop(job);
    let groups = part.into_groups();
    are_squares(alloc, &groups, 40, 1, 40)?;
    drop(groups);
    Ok(done)
}

// The groups of one of two sections, each of two morsels.
fn groups_of_section(
    alloc: Global,
    job: &Arc<Job, Global>,
    section: u32,
) -> Result<Groups, AllocError>
    requires { section < 2 }
    ensures { IfOk result (λ g. AreOneJob g.job (arc_value job.now)) }
{
    let mut part = Part::open(alloc, Arc::try_clone(job)?, MORSEL_SIZE, section, 2)?;
    part.work_off()?;
    Ok(part.into_groups())
}

// Merges the groups of the second section, which were refused; both stand as before.
fn merge_again(alloc: Global, groups: &mut Groups, second: Groups) -> Result<Done, Stop>
    requires { AreOneJob groups.old.job second.job }
{
    are_squares(alloc, groups, 20, 1, 20)?;
    are_squares(alloc, &second, 20, 21, 40)?;
    if groups.counted().checked_add(second.counted()).is_none() {
        return Err(Stop::Wrong);
    }
    match groups.merge(second) {
        Ok(()) => Ok(Done::Again),
        Err(_) => Err(Stop::Wrong),
    }
}

// Merges the groups of the second section into those of the first; where that is refused, once more.
fn merge(alloc: Global, groups: &mut Groups, second: Groups) -> Result<Done, Stop>
    requires { AreOneJob groups.old.job second.job }
{
    if groups.counted().checked_add(second.counted()).is_none() {
        return Err(Stop::Wrong);
    }
    match groups.merge(second) {
        Ok(()) => Ok(Done::AtOnce),
        Err((second, _)) => merge_again(alloc, groups, second),
    }
}

/// The groups of two sections become one.
pub(crate) fn merge_sections(alloc: Global) -> Result<Done, Stop> {
    let job = numbers_job(alloc)?;
    let mut groups = groups_of_section(alloc, &job, 0)?;
    let second = groups_of_section(alloc, &job, 1)?;
    drop(job);
    let done = merge(alloc, &mut groups, second)?;
    are_squares(alloc, &groups, 40, 1, 40)?;
    drop(groups);
    Ok(done)
}

// The partial of a part's first ticket, which was refused: the ticket is whole.
fn partial_again(alloc: Global, job: &Job, ticket: Ticket) -> Result<(Partial, Done), Stop>
    requires { AreOneJob ticket.job job.now }
    ensures { IfOk result (λ r. All (λ t. AreOneJob t.job job.now) r.0.tickets) }
{
    if ticket.morsel() != 0 {
        return Err(Stop::Wrong);
    }
    match Partial::of(alloc, job, ticket) {
        Ok(partial) => Ok((partial, Done::Again)),
        Err(_) => Err(Stop::Wrong),
    }
}

// The partial of a part's first ticket; where that is refused, at the second try.
fn partial_of(alloc: Global, job: &Job, ticket: Ticket) -> Result<(Partial, Done), Stop>
    requires { AreOneJob ticket.job job.now }
    ensures { IfOk result (λ r. All (λ t. AreOneJob t.job job.now) r.0.tickets) }
{
    match Partial::of(alloc, job, ticket) {
        Ok(partial) => Ok((partial, Done::AtOnce)),
        Err((ticket, _)) => partial_again(alloc, job, ticket),
    }
}

// A part takes the partial of its first ticket.
fn bring_first_back(alloc: Global, job: &Job, part: &mut Part) -> Result<Done, Stop>
    requires { AreOneJob part.old.job job.now }
{
    let ticket = next_ticket(part)?;
    let (partial, done) = partial_of(alloc, job, ticket)?;
    match part.give_back(partial) {
        Ok(()) => Ok(done),
        Err(ReturnFault::Memory(_)) => Err(Stop::Memory),
        Err(_) => Err(Stop::Wrong),
    }
}

/// The groups of a ticket's morsel are made, and the part that handed it out takes them.
pub(crate) fn partial_of_ticket(alloc: Global) -> Result<Done, Stop> {
    let job = numbers_job(alloc)?;
    let mut part = whole_part(alloc, &job)?;
    let done = bring_first_back(alloc, &job, &mut part)?;
    drop(job);
    let groups = part.into_groups();
    are_squares(alloc, &groups, 10, 1, 10)?;
    drop(groups);
    Ok(done)
}

// Joins all rows of the fact table, which was refused: the block has no combination.
fn join_all_again(job: &Job, block: &mut Block) -> Result<Done, Stop> {
    if block.len() != 0 {
        return Err(Stop::Wrong);
    }
    match job.join_range(0, job.fact_rows(), block) {
        Ok(()) => Ok(Done::Again),
        Err(_) => Err(Stop::Wrong),
    }
}

// Joins all rows of the fact table; where that is refused, once more.
fn join_all(job: &Job, block: &mut Block) -> Result<Done, Stop> {
    match job.join_range(0, job.fact_rows(), block) {
        Ok(()) => Ok(Done::AtOnce),
        Err(_) => join_all_again(job, block),
    }
}

/// A block takes the combinations of the first row of the small tables, and then those of all: five, of which the
/// last is of the last row, of the first date and of the first supplier.
pub(crate) fn join_small(alloc: Global) -> Result<Done, Stop> {
    let job = small_job(alloc)?;
    let mut block = Block::new(alloc);
    job.join_range(0, job.fact_rows().min(1), &mut block)?;
    let done = join_all(&job, &mut block)?;
    drop(job);
    if block.len() == 5 && block.row(4).as_slice() == [6, 0, 0].as_slice() {
        Ok(done)
    } else {
        Err(Stop::Wrong)
    }
}
