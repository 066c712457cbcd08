//! Trees: conditions, expressions and aggregates, over names as they are written or over places as they
//! are meant.
//!
//! - Offers: [`Condition`], [`Operand`] and [`Filter`]; [`Expr`] and [`Aggregate`]; [`Leaves`] and
//!   [`LeavesInOrder`], by which each leaf becomes another; [`Test`], by which a leaf is found;
//!   [`Kinds`], by which trees have types.
//! - Callers: `ssb_sql`, which reads them; `ssb_bind`, which puts columns in the place of names;
//!   `ssb_conditions` and `ssb_groups`, which evaluate them; `ssb_plan`, which tests them by column.
//! - Apart: text and meaning share the forms, and nothing else.
//! - Files: `condition`, `operand`, `expr`, `aggregate`; `leaf`, `map_condition`, `map_expr`,
//!   `find_operand`, `find_column`; `types`.
//! - Definitions: `Conditions`, `Expressions`, `Types`, `Lists`.
#![tactic(auto)]

pub mod aggregate;
pub mod condition;
pub mod expr;
mod find_column;
mod find_operand;
pub mod leaf;
mod map_condition;
mod map_expr;
pub mod operand;
pub mod types;

pub use aggregate::{Aggregate, SetFunction};
pub use condition::Condition;
pub use expr::{Expr, Step};
pub use leaf::{Leaves, LeavesInOrder, Made, Test};
pub use operand::{Filter, Operand, mapped_columns, mapped_filter};
pub use types::{Kinds, aggregate_type, has_mixed, texts_are_columns};
