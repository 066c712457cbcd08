//! Words: what those of the command line ask, and those of a shell's commands.
//!
//! - Offers: [`task_of`], the task that words ask, or the text of help; [`command_of`], the command that a line
//!   is; [`text_named`], the benchmark's thirteen queries by their names.
//! - Callers: `ssb_cli`.
//! - Apart: a program is linked whole at each check, so what has much to prove stands in libraries.
//! - Files: `words`, `commands`, `benchmark`.
//! - Definitions: `Words`, `Commands`, `Benchmark`.
#![tactic(auto)]

mod benchmark;
pub mod commands;
pub mod words;

pub use benchmark::text_named;
pub use commands::{Command, command_of};
pub use words::{QuerySource, Tables, Task, WordsFault, task_of};
