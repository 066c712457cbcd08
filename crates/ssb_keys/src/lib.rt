//! Keys as numbers: what stands for the values of several columns, as one number.
//!
//! - Offers: [`Kept`], what stands for a value; [`Domain`], the values that a column may have, as the numbers below a
//!   radix; [`add_digit`], by which a number takes a digit more; [`KeySet`], in which each number has a place.
//! - Callers: `ssb_groups`, whose groups have such keys.
//! - Apart: it knows no table and no query, so arithmetic is proved here alone.
//! - Files: `kept`; `domain`; `numbers`; `key_set`, `dense`, `hashed`, `guesses`: where numbers stand.
//! - Definitions: `Domains`; `Sets`, `KeySets`.
#![tactic(auto)]

pub mod dense;
pub mod domain;
mod guesses;
pub mod hashed;
pub mod kept;
pub mod key_set;
pub mod numbers;

pub use domain::Domain;
pub use kept::Kept;
pub use key_set::KeySet;
pub use numbers::add_digit;
