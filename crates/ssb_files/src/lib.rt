//! What the program has of the system: files that are opened, some in sections, and how it tells a fault.
//!
//! - Offers: [`open_all`], [`catalog_of`], [`read_query`], [`open`] and [`create`]; [`Counted`], a source whose
//!   bytes are counted; [`ProgramFault`] with its line and status.
//! - Callers: `ssb_cli`.
//! - Apart: a program is linked whole at each check, so what has much to prove stands in libraries.
//! - Files: `files`, `counted`, `listing`, `paths`, `fault`, `report`.
//! - Definitions: `Files`, `Listing`, `Opening`, `Shown`, `Faults`.
#![tactic(auto)]

pub mod counted;
pub mod fault;
mod files;
mod listing;
mod paths;
mod report;

pub use counted::{Counted, counted_all};
pub use fault::ProgramFault;
pub use files::{catalog_of, create, names_of, open, open_all, read_query, size_of_files};
pub use listing::table_lines;
pub use report::{OUT_OF_MEMORY, program_line, program_status_of};
pub use ssb_lanes::Section;
pub use ssb_reply::MEMORY_LINE;
