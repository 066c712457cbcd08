//! Morsels: the work on a job, cut into pieces that are done one by one, by any workers, in any order.
//!
//! - Offers: [`Part`], [`Ticket`] and [`Partial`]: one section's work; [`Parts`], [`PartsPass`] and
//!   [`Held`]: all sections, shared; [`run_workers`], [`run_batches`] and [`finish`]; [`Gate`];
//!   [`replay`] of calls.
//! - Callers: `ssb_answer`; embedders with threads of their own.
//! - Files: `part`, which tells the way of a morsel, `ticket`, `batch`, `partial`, `grouping`, `scratch`,
//!   `fault`, `calls`: one section; `line`, `parts`, `hold`, `worker`, `gate`, `finishing`: all of them; `law`.
//! - Definitions: `Morsels`, `Joined`, `Tickets`, `State`, `Part`, `Replay`: one section; `Rule`, `Free`,
//!   `Pass`, `Lending`, `Work`, `Batch`, `Finish`: all of them; `Marks`, `Probed`, `Spare`: for the contracts inside.
#![tactic(auto)]

mod batch;
mod calls;
mod fault;
mod finishing;
mod gate;
mod grouping;
mod hold;
mod law;
mod line;
mod part;
mod partial;
mod parts;
mod scratch;
mod ticket;
mod worker;

pub use batch::BatchFault;
pub use calls::{Call, Reply, replay};
pub use fault::ReturnFault;
pub use finishing::finish;
pub use gate::{Gate, NoGate};
pub use law::{core_runs, every_run, free_parts, morsels_in_sections, rows_in_morsels};
pub use part::Part;
pub use partial::Partial;
pub use parts::{Held, Parts, PartsPass};
pub use ticket::Ticket;
pub use worker::{run_batches, run_workers, work};
