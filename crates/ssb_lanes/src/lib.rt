//! Tables that threads load: one file in sections, and all tables at the same time.
//!
//! - Offers: [`sections_of`] a file, each a [`Section`]; [`Joined`], sources one after the other as one;
//!   [`load_with`], of a [`CatalogTable`] by [`ReadOptions`], and [`load_all_with`], which give what one thread
//!   would.
//! - Callers: `ssb_answer`, which loads by `load_all_with`; `ssb_files`, which opens files in sections.
//! - Apart: it starts threads, and `ssb_load`, which it stands on, starts none.
//! - Files: `sections`, `spans`; `joined`; `all_joined`, `read_joined`, which tells the way of a load;
//!   `options`; `lane`, `berth`, `board`, `lanes`, `part`, `assembly`, `moved`, `joining`: its steps.
//! - Definitions: `Sections`; `Joined`, `JoinedSource`, `JoinedLaws`; `Lane`, `Berth`, `Lanes`, `Part`,
//!   `Assembly`, `Moved`, `Joining`: for the contracts inside.
#![tactic(auto)]

mod all_joined;
mod assembly;
mod berth;
mod board;
pub mod joined;
mod joining;
mod lane;
mod lanes;
mod moved;
mod options;
mod part;
mod read_joined;
mod sections;
mod spans;

pub use all_joined::load_all_with;
pub use joined::Joined;
pub use options::ReadOptions;
pub use read_joined::{CatalogTable, load_with};
pub use sections::{Section, sections_of};
