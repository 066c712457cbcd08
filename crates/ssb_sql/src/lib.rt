//! The query language: from a text to the one query that it spells.
//!
//! - Offers: [`read`], which accepts exactly the texts of the grammar; [`Select`] with its parts;
//!   [`SqlFault`]; laws: [`one_select`], [`one_meaning`], [`one_statement`].
//! - Callers: `ssb_bind`, to which a select means something; `ssb_answer`; embedders.
//! - Files: `read_text`; `select`, `named`; `parse`, `read_select`, `read_item`, `read_condition`,
//!   `read_test`, `read_expr`, `read_parts`, `chain`, `steps`: from tokens to the tree; `fault`.
//! - Definitions: `Grammar`, `Conditions`, `Expressions`, `Forms`, `Depth`, `Spells`, `OneStatement`, `Titles`,
//!   `Told`: the language; `Steps`, `Room`, `Exact`, `ReadSelects`, `ReadConditions`, `ReadExpressions`,
//!   `ReadParts`: what the code does, for the contracts inside.
#![tactic(auto)]

mod chain;
pub mod fault;
pub mod named;
mod parse;
mod read_condition;
mod read_expr;
mod read_item;
mod read_parts;
mod read_select;
mod read_test;
mod read_text;
pub mod select;
mod steps;

pub use fault::SqlFault;
pub use named::ColumnName;
pub use parse::one_meaning;
pub use read_text::{one_select, one_statement, read};
pub use select::{Item, Key, Order, Output, Select};
pub use ssb_terms::{Literal, Name, Op, Text};
pub use ssb_trees::{Aggregate, Condition, Expr, Filter, Operand, SetFunction, Step};
