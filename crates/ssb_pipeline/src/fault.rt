// Why what tickets bring back is not taken.

use crate::partial::Partial;

/// Why a part does not take a partial, which comes back in each.
#[derive(Drop)]
pub enum ReturnFault {
    /// The part handed out no such tickets: the morsels of one have another size, or it did not hand out
    /// some number, as any number outside its section.
    NotHandedOut(Partial),
    /// The morsel of some ticket came back before.
    Doubled(Partial),
    /// A growth was refused.
    Memory(Partial),
}
