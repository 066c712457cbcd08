//! Shows: an answer as people read it, under titles, and set in columns.
//!
//! - Offers: [`Shape`], its [`Mode`] and whether it has headers; [`write_shown`], an answer in a shape to a sink.
//! - Callers: `ssb_answer`, which offers all this to embedders; the program.
//! - Apart: what people read is proved beside the text that programs read.
//! - Files: `shape`; `fields`, `piece`: what a line has; `columns`, `put`, `sheet`, `write`: the text.
//! - Definitions: `Shown`, `Columns`; `Pieces`: for the contracts inside.
#![tactic(auto)]

mod columns;
mod fields;
mod piece;
mod put;
pub mod shape;
mod sheet;
mod write;

pub use shape::{Mode, Shape, plain_is_text};
pub use write::write_shown;
