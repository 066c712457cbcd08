//! Spelling: how columns, expressions and conditions of a query are spelt, by the names of the catalog.
//!
//! - Offers: [`titles`], of a query's select columns, and [`put_title`], of one; [`put_name`], of a column;
//!   [`put_aggregate`]; [`put_condition`], over operands that are spelt by [`Names`]; [`put_number`],
//!   [`put_quoted`].
//! - Callers: `ssb_show`, for titles; `ssb_explain`, for plans; `ssb_answer`.
//! - Apart: what shows an answer and what shows a plan both stand on it.
//! - Files: `form`, `names`, `expression`, `titles_of`, `condition`.
//! - Definitions: `Titles`, `Conditions`.
#![tactic(auto)]

pub mod condition;
mod expression;
pub mod form;
mod names;
mod titles_of;

pub use condition::{Names, Spells, put_condition, put_number, put_quoted};
pub use expression::put_aggregate;
pub use names::put_name;
pub use titles_of::{put_title, titles};
