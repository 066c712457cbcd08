//! Binding: what a select means over a catalog, or the least of ten reasons why it means nothing.
//!
//! - Offers: [`bind`], which gives a [`Query`] or a [`BindFault`].
//! - Callers: `ssb_reply`, whose reply it is part of; `ssb_answer`; embedders.
//! - Files: `scope`, `resolved`, `resolve_output`: the select with its names resolved, each once;
//!   `bind_to_catalog`, `bind_select`, `binding`, `bind_having`, `law`: the query; `judge`, `search`,
//!   `names`, `fit`, `typing`, `groups`, `orders`, `limits`, `fault`: what is wrong with either.
//! - Definitions: `Meaning`, `Resolved`, `Query`, `Faults`, `Columns`, `Bound`, `Orders`, `Names`,
//!   `Typing`, `Rules`, `Titles`: what a select means, and each refusal; `Binding`: the query as the code
//!   makes it.
#![tactic(auto)]

mod bind_having;
mod bind_select;
mod bind_to_catalog;
mod binding;
pub mod fault;
pub mod fit;
mod groups;
mod judge;
pub mod law;
mod limits;
mod names;
mod orders;
mod resolve_output;
pub mod resolved;
mod scope;
mod search;
mod typing;

pub use bind_to_catalog::bind;
pub use fault::{BindFault, TooMany};
pub use ssb_query::{BoundColumn, BoundItem, BoundOrder, Origin, Query, QueryParts, TableRules};
