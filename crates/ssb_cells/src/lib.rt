//! Values, columns and tables: what every other layer reads values from.
//!
//! - Offers: [`Value`], [`Truth`], [`compare`], [`sort_cmp`], [`Op`], [`ColType`], [`Column`], [`Table`];
//!   [`ColumnBuilder`] and [`ColumnParts`], columns that grow by values and by parts.
//! - Callers: `ssb_load` and `ssb_lanes`, which fill columns; `ssb_conditions`, `ssb_plan`, `ssb_job`,
//!   `ssb_groups` and `ssb_rows`, which read them.
//! - Files: `value`, `truth`, `order`: values; `column`, over `texts` and their `dictionary`;
//!   `builder`, `parts`; `table`.
//! - Definitions: `Cell`, `Values`, `Truth`, `Compare`, `Order`: values; `Tables`, `Codes`, `Lent`,
//!   `Joined`, `Lawful`: what is seen of columns and tables; `Stored`, `Building`, `Spelling`, `Parts`:
//!   how they are kept.
#![tactic(auto)]

pub mod builder;
pub mod column;
mod dictionary;
pub mod order;
pub mod parts;
pub mod table;
mod texts;
pub mod truth;
pub mod value;

pub use builder::ColumnBuilder;
pub use column::{Column, codes_tell_texts, numbers_have_no_text};
pub use order::{compare, sort_cmp};
pub use parts::ColumnParts;
pub use ssb_packed::{CodeSlice, NumberSlice, flag_at};
pub use ssb_terms::{ColType, Op};
pub use table::Table;
pub use truth::Truth;
pub use value::Value;

/// A growth was refused: the only fault of a call that needs nothing but memory.
pub type Memory = std::alloc::AllocError;
