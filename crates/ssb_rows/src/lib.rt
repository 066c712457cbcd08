//! Rows: those of a query's groups, in order, their text, and the sink that takes it.
//!
//! - Offers: [`rows`], which gives an [`Answer`], which lends [`AnswerRows`] and each [`AnswerRow`], or an
//!   [`AnswerFault`]; [`write_answer`] to a [`Sink`]; [`Out`], a writer as one; [`Page`] and [`put_rows`], by
//!   which a text of more than rows is written.
//! - Callers: `ssb_reply`; `ssb_show`, which writes rows for people; `ssb_answer`, which offers all this to
//!   embedders.
//! - Apart: rows are proved beside the pipeline, which knows nothing of them.
//! - Files: `rows_of`, `item`, `having`, `order`, `answer`, `row`, `keyed`, `cells`: rows; `write`, `shown`,
//!   `page`: their text; `sink`, `writer`; `fault`.
//! - Definitions: `Result`, `Order`, `Text`, `Titles`; `Taking`: what a sink took; `Writing`: what a call
//!   that writes did to a page and its sink; `Entries`, `Kept`, `Leads`: for the contracts inside.
#![tactic(auto)]

pub mod answer;
mod cells;
pub mod fault;
mod having;
mod item;
mod keyed;
mod order;
pub mod page;
pub mod row;
mod rows_of;
mod shown;
pub mod sink;
mod write;
pub mod writer;

pub use answer::{Answer, AnswerRows};
pub use fault::AnswerFault;
pub use order::one_order;
pub use page::Page;
pub use row::AnswerRow;
pub use rows_of::rows;
pub use sink::{Sink, SinkFault, write_all};
pub use write::{put_rows, write_answer};
pub use writer::Out;
