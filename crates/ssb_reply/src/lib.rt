//! Replies: what a run owes for its files and its text, and how it tells a fault.
//!
//! - Offers: [`Settings`] of a run, [`RunFault`], and [`run_line`], the line of a fault.
//! - Callers: `ssb_answer`, whose runs owe the reply; `ssb_files`, which shows faults.
//! - Apart: what a run owes is said where no run is known, and the program's lines are proved beside the
//!   runs.
//! - Files: `settings`, `run_fault`, `fault_line`, `law`.
//! - Definitions: `Reply`, from the bytes of files to the bytes of the answer or the one fault;
//!   `Running`, `Settled`, `Told`, `FaultLine`, `Settings`.
#![tactic(auto)]

pub mod fault_line;
mod law;
pub mod run_fault;
pub mod settings;

pub use fault_line::{MEMORY_LINE, load_line, run_line, words_line};
pub use law::{loaded_tables_fit, one_reply};
pub use run_fault::RunFault;
pub use settings::{DEFAULT_BATCH, DEFAULT_MORSEL_SIZE, DEFAULT_PARTS, DEFAULT_WORKERS, Settings};
