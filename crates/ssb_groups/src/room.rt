// Room that is used again for each block.

use ssb_keys::Kept;
use std::alloc::Global;

/// What finding places needs, whose memory is used again; what it holds between two calls is of no matter.
#[derive(Drop)]
pub(crate) struct Room {
    pub(crate) alloc: Global,
    /// What stands for the values of a column, or of the group columns of one combination.
    pub(crate) cells: Vec<Kept>,
    /// What stands for the values of a second column.
    pub(crate) right_cells: Vec<Kept>,
    /// The numbers of a second column that has no null.
    pub(crate) right_numbers: Vec<i64>,
    /// The number of each combination's key.
    pub(crate) numbers: Vec<u64>,
    /// The place of each combination's key.
    pub(crate) places: Vec<usize>,
}

impl Room {
    // It takes no memory yet.
    pub(crate) fn new(alloc: Global) -> Room {
        Room {
            alloc,
            cells: Vec::new(alloc),
            right_cells: Vec::new(alloc),
            right_numbers: Vec::new(alloc),
            numbers: Vec::new(alloc),
            places: Vec::new(alloc),
        }
    }
}
