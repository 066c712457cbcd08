//! Records of fields between bars, as `csv` reads them of what a source of bytes gives.
//!
//! - Offers: [`Source`] and [`In`], a reader as one; [`Pieces`], its bytes cut behind line feeds;
//!   [`take_all`], which hands the records to an [`Intake`]; the faults of files: [`LoadFault`],
//!   [`RecordFault`], [`CatalogFault`].
//! - Callers: `ssb_catalog` and `ssb_load`, whose intakes take the records; `ssb_lanes`, which reads
//!   several sources.
//! - Apart: catalogs and tables are read by the same loop.
//! - Files: `source`, `reader`, `history`; `bars`, `pieces`, `field`, `intake`; `fault`.
//! - Definitions: `Records`, `Width`, `Intake`, `CutShort`: records; `Giving`, `Settled`: sources;
//!   `Pieces`, `Lines`; `Titles`.
#![tactic(auto)]

mod bars;
pub mod fault;
mod field;
pub mod history;
pub mod intake;
pub mod pieces;
pub mod reader;
pub mod source;

pub use bars::bar_reader;
pub use fault::{CatalogFault, LoadFault, RecordFault};
pub use field::{field_bytes, field_text, is_all_text, is_wide};
pub use history::History;
pub use intake::{Intake, take_all, take_text};
pub use pieces::{Pieces, split_lines};
pub use reader::In;
pub use source::{PIECE_SIZE, Source, SourceFault};
