// What a block adds to one aggregate.

use ssb_keys::Kept;
use std::alloc::Global;

/// How values are listed.
#[derive(Clone, Copy, PartialEq, Eq)]
pub(crate) enum Listing {
    /// By what stands for each.
    Cells,
    /// As numbers: each value is one.
    Numbers,
    /// As codes: each value is a text.
    Codes,
}

/// An aggregate over each combination of a block alone. The memory of the lists is used again for the next block.
#[derive(Drop)]
pub(crate) struct BlockTotals {
    /// Which list has them.
    pub(crate) listing: Listing,
    /// What stands for each.
    pub(crate) cells: Vec<Kept>,
    /// Each, where all are numbers.
    pub(crate) numbers: Vec<i64>,
    /// The code of each, where all are texts.
    pub(crate) codes: Vec<u32>,
}

impl BlockTotals {
    // Over no combination. It takes no memory yet.
    pub(crate) fn new(alloc: Global) -> BlockTotals {
        BlockTotals {
            listing: Listing::Cells,
            cells: Vec::new(alloc),
            numbers: Vec::new(alloc),
            codes: Vec::new(alloc),
        }
    }
}
