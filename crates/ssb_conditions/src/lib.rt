//! Conditions over rows: what one says, by three-valued logic.
//!
//! - Offers: [`truth_of`], over whatever operands have values; [`eval`] and [`all_true`], over a combination of
//!   rows; [`among`], [`either`] and [`settling`], of which it is made; [`cell`] and [`column_value`].
//! - Callers: `ssb_plan` and `ssb_job`, for WHERE; `ssb_groups`, for the cells of a combination; `ssb_rows`, for
//!   HAVING.
//! - Apart: WHERE and HAVING share it, and it is proved without filters and indexes.
//! - Files: `valuation`, `evaluation`, `value`.
//! - Definitions: `Holds`, `Rows`; `Met`, `Together`: for the contracts here and in the next crates.
#![tactic(auto)]

mod evaluation;
pub mod valuation;
mod value;

pub use evaluation::{all_true, among, either, eval, settling, truth_of};
pub use valuation::{Valuation, literal_value};
pub use value::{cell, column_value, table_at};
