// Which tickets make a batch.

ghost use Rattle.std.specs.Prelude.{◌≡◌, nat_eq};
ghost use Rattle.std.specs.List.{list_all, list_any};
ghost use Rattle.ssb_pipeline.specs.Tickets.{batch_fault, has_twice, is_alike, morsels_of};

use crate::ticket::Ticket;

/// Why some tickets make no partial, least first.
#[derive(Clone, Copy, PartialEq, Eq)]
pub enum BatchFault {
    /// There is no ticket.
    NoTicket,
    /// Two of them differ in the size of a morsel, in their section, or in how many sections there are.
    MixedTickets,
    /// Two of them are for one morsel.
    MorselTwice,
    /// A growth was refused.
    Memory,
}

fn is_alike(a: &Ticket, b: &Ticket) -> bool
    ensures { result ≡ is_alike a.now b.now }
{
    a.size() == b.size() && a.section() == b.section() && a.sections() == b.sections()
}

// Whether all of some tickets are like another.
fn are_alike(first: &Ticket, rest: &[Ticket]) -> bool
    ensures { result ≡ list_all (is_alike first.now) rest.now }
{
    rest.iter().all(|ticket| is_alike(first, ticket))
}

// Whether one of some tickets is for this morsel.
fn has_morsel(tickets: &[Ticket], morsel: u32) -> bool
    ensures { result ≡ list_any (λ t. nat_eq morsel t.morsel) tickets.now }
{
    tickets.iter().any(|ticket| morsel == ticket.morsel())
}

// Whether two tickets are for one morsel.
fn has_twice(tickets: &[Ticket]) -> bool
    ensures { result ≡ has_twice (morsels_of tickets.now) }
{
    let mut rest = tickets;
    while let [first, behind @ ..] = rest {
        if has_morsel(behind, first.morsel()) {
            return true;
        }
        rest = behind;
    }
    false
}

// The least fault of some tickets as a batch, before memory is asked for.
pub(crate) fn fault_of(tickets: &[Ticket]) -> Option<BatchFault>
    ensures { result ≡ batch_fault tickets.now }
{
    let [first, rest @ ..] = tickets else {
        return Some(BatchFault::NoTicket);
    };
    if !are_alike(first, rest) {
        return Some(BatchFault::MixedTickets);
    }
    if has_twice(tickets) {
        return Some(BatchFault::MorselTwice);
    }
    None
}
