// Why the tables of a catalog were not all loaded.

use ssb_records::LoadFault;
use thiserror::Error;

/// Why the tables of a catalog were not all loaded.
#[derive(Clone, Copy, PartialEq, Eq, Debug, Error)]
#[error("table {table}: {fault}")]
pub struct FileFault {
    /// The number of the table, from 0.
    pub table: u32,
    /// The fault of its file.
    pub fault: LoadFault,
}
