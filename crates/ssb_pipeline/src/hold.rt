// What a worker does while it holds a part: it gets a batch of tickets, or brings one back.

ghost use Rattle.std.specs.Prelude.{◌≡◌, ◌<◌, ◌≤◌, [], List};
ghost use Rattle.std.specs.List.{All};
ghost use Rattle.ssb_job.specs.Kept.{AreOneJob};
ghost use Rattle.ssb_pipeline.specs.Batch.{BringsBatch, GetsTickets, HandsBatch, IsBatchOf, IsBatchWith, IsDueTo, Settles};
ghost use Rattle.ssb_pipeline.specs.Part.{IsOutIn};
ghost use Rattle.ssb_pipeline.specs.Pass.{known};
ghost use Rattle.ssb_pipeline.specs.Tickets.{TicketState, morsels_of};
ghost use Rattle.ssb_pipeline.specs.Work.{IsReady, StaysReady};

use crate::fault::ReturnFault;
use crate::gate::Gate;
use crate::part::Part;
use crate::partial::Partial;
use crate::parts::{Parts, PartsPass};
use crate::scratch::Scratch;
use crate::ticket::Ticket;
use std::sync::Wait;

// A part hands out a ticket for which there is no room, so that it is given up.
fn hand_out_none<G: Gate>(part: &mut Part, section: u32, gate: &G)
    ensures { HandsBatch 0 [] part.old part.new }
{
    part.lawful();
    if let Some(ticket) = part.hand_out() {
        gate.while_held(section, ticket.morsel());
        part.give_up(ticket);
    }
}

// A worker takes at most an eighth of what is left, so that no worker has a long batch when the others have
// none.
const SHARES: u32 = 8;

// How many tickets a worker takes at once where there is room for so many, and so many are left.
fn share_of(room: u32, left: u32) -> u32
    requires { 0 < room }
    ensures some { 0 < result }
    ensures many { result ≤ room }
{
    room.min((left / SHARES).max(1))
}

// A part hands out up to so many tickets, for which there is room, and fewer near the end of its section;
// where there is room for none, one that is given up.
fn hand_out_batch<G: Gate>(
    part: &mut Part,
    section: u32,
    room: u32,
    gate: &G,
    tickets: &mut Vec<Ticket>,
)
    requires { tickets.old.items ≡ [] }
    ensures { HandsBatch room tickets.new.items part.old part.new }
{
    if room == 0 {
        hand_out_none(part, section, gate);
        return;
    }
    part.lawful();
    for _ in 0..share_of(room, part.left()) {
        let Some(ticket) = part.hand_out() else {
            return;
        };
        gate.while_held(section, ticket.morsel());
        if let Err(refused) = tickets.push(ticket) {
            part.give_up(refused.value);
            return;
        }
    }
}

// Gets up to so many tickets in a hold of its own; they are due then.
pub(crate) fn get_tickets<R: Wait, G: Gate>(
    rt: &R,
    parts: &Parts,
    section: u32,
    pass: &mut PartsPass,
    batch: u32,
    gate: &G,
) -> Vec<Ticket>
    requires { IsReady parts.now section pass.old }
    ensures ready { StaysReady parts.now section pass.old pass.new }
    ensures gets { GetsTickets batch result.items (known pass.old section) (known pass.new section) }
{
    let (room, tickets) = parts.room(batch);
    let mut tickets = tickets;
    let mut held = parts.take(rt, section, pass);
    hand_out_batch(held.part(), section, room, gate, &mut tickets);
    parts.put(rt, held, pass);
    tickets
}

// A part notes that these tickets, which are out, are given up.
fn give_all_up(part: &mut Part, tickets: Vec<Ticket>)
    requires { All (IsOutIn part.old) tickets.items }
    ensures { Settles (morsels_of tickets.items) part.old part.new }
{
    let mut tickets = tickets;
    while let Some(ticket) = tickets.pop() {
        part.give_up(ticket);
    }
}

// A part takes a batch, the tickets of which are out, or notes that they are given up. It refuses none
// but for want of memory.
fn take_back(part: &mut Part, made: Result<Partial, Vec<Ticket>>, scratch: &mut Scratch)
    requires made { IsBatchWith (IsOutIn part.old) made }
    requires scratch { AreOneJob scratch.old part.old.job }
    ensures same { scratch.new ≡ scratch.old }
    ensures settles { (ts : List TicketState) → IsBatchOf ts made → Settles (morsels_of ts) part.old part.new }
{
    match made {
        Ok(partial) => match part.take_in(partial, scratch) {
            Ok(()) => {}
            Err(ReturnFault::Memory(partial)) => give_all_up(part, partial.into_tickets()),
            Err(ReturnFault::NotHandedOut(_)) => unreachable!(),
            Err(ReturnFault::Doubled(_)) => unreachable!(),
        },
        Err(tickets) => give_all_up(part, tickets),
    }
}

// Takes a batch that is due back whole, or notes that its tickets are given up, in a hold of its own.
pub(crate) fn bring_back<R: Wait>(
    rt: &R,
    parts: &Parts,
    section: u32,
    pass: &mut PartsPass,
    made: Result<Partial, Vec<Ticket>>,
    scratch: &mut Scratch,
)
    requires ready { IsReady parts.now section pass.old }
    requires scratch { AreOneJob scratch.old parts.now.job }
    requires made { IsBatchWith (IsDueTo (known pass.old section)) made }
    ensures ready { StaysReady parts.now section pass.old pass.new }
    ensures brings { (ts : List TicketState) → IsBatchOf ts made → BringsBatch ts (known pass.old section) (known pass.new section) }
    ensures same { scratch.new ≡ scratch.old }
{
    let mut held = parts.take(rt, section, pass);
    take_back(held.part(), made, scratch);
    parts.put(rt, held, pass);
}
