//! Sets of numbers, by the places in their order where the answer turns, and the rows of a column by them.
//!
//! - Offers: [`NumberSet`], a range, one number, listed numbers, the others, or several sets joined by a
//!   [`Join`]; [`Check`], which stands for a set where many numbers between [`Bounds`] are tested, by
//!   [`Flags`] or otherwise; [`ValueSlice`], the values of a column as numbers, and its rows that pass what
//!   is asked ([`Asks`]); [`Marks`], a bit for each row of a batch, by which ranges are tested.
//! - Callers: `ssb_conditions`, `ssb_plan` and `ssb_job`; `ssb_pipeline`, for the size of a batch.
//! - Apart: what a set has is said without a condition.
//! - Files: `set`; `join`; `merge`, of two sets; `halves`, of many; `runs`, between two cuts; `values`;
//!   `asks`; `kernel`, the loop; `rows`, of a range, and by which loop; `nulls`; `check`; `asked`, what checks ask; `choice`,
//!   which check it is; `lanes`, 64 numbers by vectors; `marks`.
//! - Definitions: `NumberSets`, `Orders`, `Joins`, `Merging`, `Stays`, `Values`, `Passing`, `Checks`, `Marks`.
#![tactic(auto)]

mod asked;
pub mod asks;
pub mod check;
mod choice;
mod halves;
pub mod join;
mod kernel;
mod lanes;
pub mod marks;
mod merge;
pub mod nulls;
mod rows;
mod runs;
pub mod set;
pub mod values;

pub use asks::Asks;
pub use check::{Check, Flags};
pub use join::Join;
pub use marks::{MARKED_ROWS, Marks};
pub use nulls::keep_values;
pub use rows::fill;
pub use set::NumberSet;
pub use values::{Bounds, ValueSlice};
