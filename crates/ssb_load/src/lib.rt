//! The tables that files give: each the table of its records, or the first faulty record's least fault.
//!
//! - Offers: [`Catalog`] and [`LoadFault`]; [`load`] over a reader, [`load_from`] over a [`Source`],
//!   [`load_all`] for the tables of a catalog.
//! - Callers: `ssb_lanes`, which loads a table's sections side by side; `ssb_answer`; embedders.
//! - Files: `read_table`, `all_tables`; `table_intake`, a table on its way, by `loader`, `value`,
//!   `number` and `digits`, and `judge` where a record is faulty; `fault`.
//! - Definitions: `Tables`, `Rules`, `Numbers`, `Loading`, `Files`, `Runs`: what loading answers;
//!   `Subject`, `Loader`, `TableIntake`: for the contracts inside.
#![tactic(auto)]

mod all_tables;
mod digits;
pub mod fault;
mod judge;
mod loader;
mod number;
mod read_table;
pub mod table_intake;
mod value;

pub use all_tables::{load_all, load_tables};
pub use fault::FileFault;
pub use judge::key_place;
pub use read_table::{load, load_from, load_in_pieces, rules_at};
pub use ssb_catalog::{Catalog, ColumnDef, TableDef};
pub use ssb_records::{CatalogFault, In, LoadFault, PIECE_SIZE, RecordFault, Source, SourceFault};
pub use ssb_terms::{Name, Role, Rule};
pub use table_intake::TableIntake;
