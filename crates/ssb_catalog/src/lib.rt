//! Catalogs: which tables there are, and what each of their columns takes.
//!
//! - Offers: [`Catalog`], read from a file or built in, that of the Star Schema Benchmark; [`TableDef`]
//!   and [`ColumnDef`], which it lends.
//! - Callers: `ssb_load` and `ssb_lanes`, which load its tables; `ssb_bind`, which looks names up;
//!   embedders through `ssb_load`.
//! - Apart: binding needs catalogs and no tables, so it is proved beside loading.
//! - Files: `catalog`; `read_catalog`, `catalog_intake`, `entry`, `draft`: reading; `benchmark`,
//!   `built_in`.
//! - Definitions: `Catalog`, `Shapes`, `CatalogReading`, `BuiltIn`; `CatalogIntake`, `Drafting`,
//!   `Listing`: for the contracts inside.
#![tactic(auto)]

mod benchmark;
mod built_in;
pub mod catalog;
mod catalog_intake;
mod draft;
mod entry;
mod read_catalog;

pub use catalog::{Catalog, ColumnDef, TableDef};
