//! Queries: what a text means over a catalog, its names bound to columns.
//!
//! - Offers: [`Query`] and its parts, of which the tables form a star; [`BoundColumn`] and what is over
//!   it.
//! - Callers: `ssb_bind`, which makes queries; `ssb_conditions`, `ssb_plan`, `ssb_job`, `ssb_groups` and `ssb_rows`,
//!   which answer them; embedders through `ssb_bind`.
//! - Apart: those that answer a query need not wait for the proofs of reading and binding one.
//! - Files: `query`, `column`, `star`.
//! - Definitions: `Star`, `Tables`.
#![tactic(auto)]

pub mod column;
pub mod query;
mod star;

pub use column::{BoundColumn, BoundOperand, copy_condition};
pub use query::{BoundItem, BoundOrder, Origin, Query, QueryParts, TableRules, rule_at};
pub use star::{fact_place, unjoined};
