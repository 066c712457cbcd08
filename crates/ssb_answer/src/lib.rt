//! Answers: the whole path of a query, from the bytes of files to the bytes of the answer.
//!
//! - Offers: [`Database`], tables loaded once, and the plans of texts over them; [`Session`], the statements of an
//!   input over them, in a [`Manner`]; [`run`] and [`run_alone`] over readers, [`run_from`] and [`run_alone_from`] over sources,
//!   [`answer_bytes`] over files in memory; [`Context`], [`Settings`], [`RunFault`], [`Gate`], [`Laps`]; [`Shape`],
//!   in which [`Database::show`] writes; [`rows`], [`write_answer`], [`Answer`], [`AnswerRows`],
//!   [`AnswerRow`], [`Sink`], [`Out`].
//! - Callers: the program; embedders.
//! - Files: `database`, `session`, `context`; `show`: for people; `whole`, `grouping`: by workers; `alone`: in
//!   the caller's thread; `readers`, `bytes`, `law`.
//! - Definitions: `Database`, `Session`, `Steps`, `Showing`, `Asking`, `Explaining`, `Writing`; the reply that a run
//!   owes is handed on from the crate below. `SessionStep`, `ShownStep`: for the contracts inside.
#![tactic(auto)]

mod alone;
mod bytes;
mod context;
pub mod database;
mod grouping;
mod law;
mod readers;
pub mod session;
pub mod show;
mod whole;

pub use alone::{Sizes, answer_job, run_alone_from};
pub use bytes::answer_bytes;
pub use context::Context;
pub use database::Database;
pub use law::{outcomes_are_replies, outcomes_are_shown, replies_of_files, sessions_are_whole};
pub use readers::{run, run_alone};
pub use session::{Manner, Session, SessionEnd, SessionOutcome, Step};
pub use show::{Lap, Laps, NoLaps, plain_shows_replies, shows_of_files};
pub use ssb_explain::Watch;
pub use ssb_lanes::{
    CatalogTable, Joined, ReadOptions, Section, load_all_with, load_with, sections_of,
};
pub use ssb_load::{In, Source};
pub use ssb_pipeline::{Gate, NoGate};
pub use ssb_reply::{RunFault, Settings, run_line};
pub use ssb_rows::{
    Answer, AnswerFault, AnswerRow, AnswerRows, Out, Sink, SinkFault, rows, write_answer,
};
pub use ssb_show::{Mode, Shape};
pub use ssb_sql::SqlFault;
pub use ssb_statements::{
    Next, NoPrompts, Prompts, Script, Statement, StatementBuffer, Statements,
};
pub use whole::{answer_of_groups, answer_shared, query_of, run_from, write_answered};
