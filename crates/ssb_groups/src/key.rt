// A key of a group.

use ssb_keys::Kept;

/// What stands for the values of the group columns. Two keys of one job are equal exactly where their values are.
#[derive(Clone, Copy)]
pub(crate) enum KeyRef<'a> {
    /// One number for all, where there may be at most 2^62 keys.
    Number(u64),
    /// One for each, in their order, where there may be more.
    Cells(&'a [Kept]),
}
