//! Groups: the aggregates of each group of the rows that were added.
//!
//! - Offers: [`Groups`], which stand for a list of rows in whatever order they came: `empty`, `add`,
//!   `add_block`, `merge`, `append`, `read_group`; [`Group`], which that fills, and [`Total`].
//! - Callers: `ssb_pipeline`, whose parts hold groups; `ssb_rows`, which makes rows of them.
//! - Files: `groups`, `store`, `table`; `places`, `room`: where keys stand; `key`, `keys`, `column`, `columns`,
//!   `digits`, `domains`: keys; `gather`, `numbers`, `block_totals`, `alone`, `pair`, `evaluate`,
//!   `outcome`: what a block adds; `kept`, `totals`, `tallies`, `joining`: aggregates.
//! - Definitions: `Value`, `Aggregates`, `Rows`, `Seen`, `Stands`, `Added`: what groups stand for; `Keys`,
//!   `GroupKeys`, `Refs`, `Digits`, `Places`, `Tallies`, `Joining`, `Gathering`, `Alone`, `Pairs`, `Outcomes`,
//!   `Totals`: how they are kept.
#![tactic(auto)]

mod alone;
mod block_totals;
mod column;
mod columns;
mod digits;
mod domains;
mod evaluate;
mod gather;
pub mod groups;
mod joining;
mod kept;
mod key;
mod keys;
mod numbers;
mod outcome;
mod pair;
mod places;
mod room;
mod store;
mod table;
mod tallies;
pub mod totals;

pub use groups::{Group, Groups, any_order, over_no_row, stands_for_any};
pub use totals::Total;
