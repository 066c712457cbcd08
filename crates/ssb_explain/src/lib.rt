//! Plans as text: what a job does, a line a step.
//!
//! - Offers: [`explain`], the text of a job's plan; [`analyze`], with the rows that each step leaves, timed by a
//!   [`Watch`].
//! - Callers: `ssb_answer`, for `ssb explain` and `.explain`; embedders through it.
//! - Apart: what answers a query stands without it.
//! - Files: `members`, of a set; `lines`, of a table; `group_count`, of GROUP BY; `plan_text`, the whole; `steps`, what each leaves.
//! - Definitions: `Explained`; `Analyzed`; `Members`, of a set; `GroupCount`, of GROUP BY.
#![tactic(auto)]

mod group_count;
mod lines;
pub mod members;
mod plan_text;
mod steps;

pub use plan_text::explain;
pub use steps::{Watch, analyze};
