// What calls that answer a query work with.

use ssb_reply::Settings;
use std::alloc::Global;

/// What calls that answer a query by workers work with. None of it changes an answer.
#[derive(Drop)]
pub struct Context<'a, R, G> {
    /// The system, which makes threads.
    pub rt: &'a R,
    /// What memory is asked of.
    pub alloc: Global,
    /// How many workers and parts there are, and how much a worker takes at once.
    pub settings: Settings,
    /// What is called on the way of each worker; where there is at most one morsel, nothing is.
    /// [`NoGate`](crate::NoGate) does nothing.
    pub gate: &'a G,
}
