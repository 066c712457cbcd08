//! Terms: names, reserved words, literals, operators, and what a column takes.
//!
//! - Offers: [`Name`], [`Keyword`], [`Literal`], [`Text`], [`Op`], and the rule of a column: [`ColType`],
//!   [`Role`], [`Rule`].
//! - Callers: `ssb_catalog`, `ssb_tokens`, `ssb_trees` and those above; embedders find them in
//!   `ssb_cells`, `ssb_load` and `ssb_sql`.
//! - Apart: the catalog and the query language share these words, and neither needs the other.
//! - Files: `keyword`, `name`, `text`, `literal`, `operator`, `rule`.
//! - Definitions: `Keywords`, `Names`, `Roles`.
#![tactic(auto)]

pub mod keyword;
pub mod literal;
pub mod name;
pub mod operator;
pub mod rule;
pub mod text;

pub use keyword::{Keyword, keyword_of, spelling};
pub use literal::{Literal, copy_literals};
pub use name::{Name, is_name, is_reserved, is_word_byte};
pub use operator::{Adding, Op};
pub use rule::{ColType, Role, Rule};
pub use text::Text;
