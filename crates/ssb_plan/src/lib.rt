//! Plans: what a query does to the tables, as a value.
//!
//! - Offers: [`Plan`], by [`plan_of`]: how each table of FROM is reached ([`Access`], a [`Dimension`] with its
//!   [`Index`]), and where each conjunct of WHERE is tested; [`TableFilter`], the rows of one table that meet the
//!   conjuncts over it: a [`ColumnFilter`] for each column that some speak of alone, and the others evaluated; what
//!   groups and aggregates take ([`ColumnRef`], [`Input`]).
//! - Callers: `ssb_job`, which joins rows by a plan; `ssb_groups`, by its inputs; `ssb_explain`, which tells it.
//! - Apart: a plan is made once, and told and worked off by others.
//! - Files: `plan`, `conjuncts`, `join`; `input`, `spans`, `ranks`; `dimension`, `index`: rows by their keys;
//!   `table_filter`, `column_filter`, `sets`, `leaves`: conditions over one column as sets; `only`, `sole`.
//! - Definitions: `JobShape`, `Build`, `Inputs`, `Spans`, `Ranks`, `Loaded`, `Index`; `Accesses`, `DimensionIndex`,
//!   `Filters`, `KeyNumbers`, `Only`, `Serves`, `Sets`, `Split`: for the contracts here and in the next crates.
#![tactic(auto)]

pub mod column_filter;
mod conjuncts;
pub mod dimension;
pub mod index;
pub mod input;
pub mod join;
mod leaves;
mod only;
pub mod plan;
mod ranks;
pub mod sets;
mod sole;
mod spans;
pub mod table_filter;

pub use column_filter::{ColumnFilter, values_of};
pub use dimension::Dimension;
pub use index::{Index, Lookup, Span};
pub use input::{ColumnRef, Input};
pub use join::Join;
pub use only::only_at;
pub use plan::{Access, Plan, plan_of};
pub use sets::ValueSet;
pub use table_filter::{Local, TableFilter, alone};
