// Lists of calls of a part, and of a twin that was opened alike.

ghost use Rattle.std.specs.Prelude.{◌≡◌, ◌<◌, MatchOption, None, Some, IfOk, slice_set};
ghost use Rattle.std.specs.Arc.{arc_value};
ghost use Rattle.ssb_job.specs.Kept.{AreOneJob};
ghost use Rattle.ssb_pipeline.specs.Replay.{Answers, AreOf, BringsTo, GivesTo, HandsTo, IsEmpty, IsReplay, LiesIn};

use crate::fault::ReturnFault;
use crate::part::Part;
use crate::partial::Partial;
use crate::ticket::Ticket;
use ssb_job::Job;
use std::alloc::{AllocError, Global};
use std::mem;
use std::sync::Arc;

/// A call of a list that [`replay`] makes. Each ticket that comes lies in the next slot, from 0.
#[derive(Clone, Copy, PartialEq, Eq)]
pub enum Call {
    /// The own part hands out.
    Hand,
    /// Its twin does.
    TwinHand,
    /// The groups over the morsel of this slot's ticket are given back to the own part.
    Back(u32),
    /// This slot's ticket is given up to the own part.
    Up(u32),
    /// The own part is swept.
    Sweep,
}

/// What a call comes to.
#[derive(Clone, Copy, PartialEq, Eq)]
pub enum Reply {
    /// The ticket of this morsel came.
    Ticket(u32),
    /// No ticket came.
    NoMorsel,
    /// The own part took what the call brought, or was swept.
    Done,
    /// No ticket lies in the slot, or there is no such slot.
    NoTicket,
    /// The own part did not hand the ticket out, which stays in its slot.
    NotHandedOut,
    /// The ticket's morsel came back before; it stays in its slot.
    Doubled,
}

// The tickets that came, each in a slot of its own, which is empty once it was used.
type Slots = Vec<Option<Ticket>>;

// A part hands out; a ticket goes into the next slot.
fn hand(job: &Job, part: &mut Part, slots: &mut Slots) -> Result<Reply, AllocError>
    requires part { AreOneJob part.old.job job.now }
    requires of { AreOf job.now slots.old.items }
    ensures hands { IfOk result (λ r. HandsTo r part.old slots.old.items part.new slots.new.items) }
    ensures part { AreOneJob part.new.job job.now }
    ensures of { IfOk result (λ _. AreOf job.now slots.new.items) }
{
    let Some(ticket) = part.hand_out() else {
        return Ok(Reply::NoMorsel);
    };
    let morsel = ticket.morsel();
    match slots.push(Some(ticket)) {
        Ok(()) => Ok(Reply::Ticket(morsel)),
        Err(_) => Err(AllocError),
    }
}

// Takes the ticket out of a slot.
fn take_ticket(slots: &mut Slots, slot: u32) -> Option<Ticket>
    ensures ticket { MatchOption result (IsEmpty slots.old.items slot) (LiesIn slots.old.items slot) }
    ensures slots { MatchOption result (slots.new.items ≡ slots.old.items) (λ t. slots.new.items ≡ slice_set slots.old.items slot None) }
{
    if slot as usize >= slots.len() {
        return None;
    }
    mem::replace(&mut slots[slot as usize], None)
}

// Gives the groups over the morsel of a slot's ticket back; a refused ticket goes back into its slot.
fn bring_back(
    alloc: Global,
    job: &Job,
    part: &mut Part,
    slots: &mut Slots,
    slot: u32,
) -> Result<Reply, AllocError>
    requires part { AreOneJob part.old.job job.now }
    requires of { AreOf job.now slots.old.items }
    ensures brings { IfOk result (λ r. BringsTo slot r part.old slots.old.items part.new slots.new.items) }
    ensures part { AreOneJob part.new.job job.now }
    ensures of { IfOk result (λ _. AreOf job.now slots.new.items) }
{
    let Some(ticket) = take_ticket(slots, slot) else {
        return Ok(Reply::NoTicket);
    };
    let Ok(partial) = Partial::of(alloc, job, ticket) else {
        return Err(AllocError);
    };
    match part.give_back(partial) {
        Ok(()) => Ok(Reply::Done),
        Err(ReturnFault::NotHandedOut(partial)) => {
            slots[slot as usize] = Some(partial.into_ticket());
            Ok(Reply::NotHandedOut)
        }
        Err(ReturnFault::Doubled(partial)) => {
            slots[slot as usize] = Some(partial.into_ticket());
            Ok(Reply::Doubled)
        }
        Err(ReturnFault::Memory(_)) => Err(AllocError),
    }
}

// Gives the ticket of a slot up.
fn give_up(job: &Job, part: &mut Part, slots: &mut Slots, slot: u32) -> Reply
    requires part { AreOneJob part.old.job job.now }
    requires of { AreOf job.now slots.old.items }
    ensures gives { GivesTo slot result part.old slots.old.items part.new slots.new.items }
    ensures part { AreOneJob part.new.job job.now }
    ensures of { AreOf job.now slots.new.items }
{
    match take_ticket(slots, slot) {
        Some(ticket) => {
            part.give_up(ticket);
            Reply::Done
        }
        None => Reply::NoTicket,
    }
}

// Makes a call.
fn answer(
    alloc: Global,
    job: &Job,
    own: &mut Part,
    twin: &mut Part,
    slots: &mut Slots,
    call: Call,
) -> Result<Reply, AllocError>
    requires own { AreOneJob own.old.job job.now }
    requires twin { AreOneJob twin.old.job job.now }
    requires of { AreOf job.now slots.old.items }
    ensures answers { IfOk result (λ r. Answers call r (record { own = own.old; twin = twin.old; slots = slots.old.items }) (record { own = own.new; twin = twin.new; slots = slots.new.items })) }
    ensures own { AreOneJob own.new.job job.now }
    ensures twin { AreOneJob twin.new.job job.now }
    ensures of { IfOk result (λ _. AreOf job.now slots.new.items) }
{
    match call {
        Call::Hand => hand(job, own, slots),
        Call::TwinHand => hand(job, twin, slots),
        Call::Back(slot) => bring_back(alloc, job, own, slots, slot),
        Call::Up(slot) => Ok(give_up(job, own, slots, slot)),
        Call::Sweep => {
            own.sweep()?;
            Ok(Reply::Done)
        }
    }
}

/// Opens a part of a section, and a twin alike, and makes a list of calls of them, one after the other:
/// whoever mixes tickets up gets these replies. Gives the part, and a reply for each call. A morsel has
/// `morsel_size` rows, from 1 on; the section is one of `sections`, from 0.
///
/// # Errors
///
/// Only where a growth was refused.
pub fn replay(
    alloc: Global,
    job: Arc<Job, Global>,
    morsel_size: u32,
    section: u32,
    sections: u32,
    calls: &[Call],
) -> Result<(Part, Vec<Reply>), AllocError>
    requires size { 0 < morsel_size }
    requires section { section < sections }
    ensures { IfOk result (λ r. IsReplay (arc_value job) morsel_size section sections calls.now r.0 r.1.items) }
{
    let mut own = Part::open(alloc, Arc::try_clone(&job)?, morsel_size, section, sections)?;
    let mut twin = Part::open(alloc, Arc::try_clone(&job)?, morsel_size, section, sections)?;
    let mut slots = Vec::new(alloc);
    let mut replies = Vec::new(alloc);
    for place in 0..calls.len() {
        let call = &calls[place];
        let reply = answer(alloc, &job, &mut own, &mut twin, &mut slots, *call)?;
        replies.push(reply)?;
    }
    own.lawful();
    Ok((own, replies))
}
