//! Numbers, codes and flags in few bytes: each list takes as many a value as its widest asks for.
//!
//! - Offers: [`Numbers`], [`Codes`] and [`Nulls`], seen in contracts as lists; [`NumbersBuilder`] and
//!   [`CodesBuilder`], which take many, one at a time; [`NumberSlice`], [`CodeSlice`] and
//!   [`flag_at`], by which code that goes over many rows reads them.
//! - Callers: `ssb_cells`, which keeps columns in them; `ssb_plan` and `ssb_job`, which read the
//!   slices.
//! - Apart: how many bytes a value takes is nobody else's matter, and its edits are tried over this
//!   little alone.
//! - Files: `numbers`, `codes`, `nulls`; `builder`, of the first two; `width`, of their values; `lent`,
//!   the slices.
//! - Definitions: `Narrow`, `Recoded`, `Flags`, `Lent`.
#![tactic(auto)]

mod builder;
mod codes;
pub mod lent;
mod nulls;
mod numbers;
mod width;

pub use builder::{CodesBuilder, NumbersBuilder};
pub use codes::Codes;
pub use lent::{CodeSlice, NumberSlice, flag_at};
pub use nulls::Nulls;
pub use numbers::Numbers;
pub use width::Width;
