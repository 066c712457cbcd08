// The tables of a folder, and how long something took.

use crate::folder::sources_of;
use ssb_answer::Database;
use ssb_load::{Catalog, PIECE_SIZE};
use std::rt::{Clock, Files};
use std::time::Instant;

// How long ago a moment was, in microseconds.
pub(crate) fn micros_since<R: Clock>(rt: &R, start: Instant) -> Option<u128> {
    let elapsed = start.elapsed(rt).ok()?;
    Some(elapsed.as_micros())
}

/// The tables of a catalog in a folder, loaded; none where a file is missing, or is not what it should be.
pub(crate) fn database_in<'a, R: Files + AllocGlobal>(
    rt: &R,
    folder: &str,
    catalog: &'a Catalog,
) -> Option<Database<'a>> {
    let mut sources = sources_of(rt, folder, catalog, 1)?;
    Database::load_alone(rt.alloc(), catalog, &mut sources, PIECE_SIZE).ok()
}
