// Why bytes give no tokens, or tokens nothing that they should spell.

ghost use Rattle.std.specs.Prelude.{◌≡◌};

use std::alloc::AllocError;

/// Why nothing was read.
#[derive(Clone, Copy)]
pub enum Stop {
    /// A growth was refused.
    Memory,
    /// What stands there spells nothing.
    Syntax,
}

impl From<AllocError> for Stop {
    ghost use Rattle.ssb_tokens.specs.declared.stop.Stop.TheVariants.{Memory};

    ghost from_gives = { λ _ e. e ≡ Memory };

    fn from(_error: AllocError) -> Stop {
        Stop::Memory
    }
}
