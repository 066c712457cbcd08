// In how many bytes each number or code of a list is kept.

use crate::lent::BELOW_CODE;

/// So many bytes. What a list means is the same in each.
#[derive(Clone, Copy, PartialEq, Eq, PartialOrd, Ord)]
pub enum Width {
    /// One byte.
    One,
    /// Two.
    Two,
    /// Four.
    Four,
    /// Eight.
    Eight,
}

impl Width {
    /// The least for the codes of so many texts, each of which is kept as a number below it.
    pub fn of_codes(texts: u32) -> Width {
        match texts.saturating_sub(BELOW_CODE) {
            0..=0x80 => Width::One,
            0x81..=0x8000 => Width::Two,
            _ => Width::Four,
        }
    }
}
